// The interface that every scheme stands behind, and what its calls promise.
ghost use Rattle.scheme.specs.Meaning.{Meaning, Sound, Follows, on_enter, on_leave, on_begin, at_start};
ghost use Rattle.scheme.specs.Polls.{on_poll, says_not_yet};
ghost use Rattle.scheme.specs.Texts.{poll_text};
ghost use Rattle.std.specs.Prelude.{◌≡◌, is_ok, OnErr, Some};

use crate::refused::Refused;
use std::fmt;

/// Readers are numbered from 0 to READERS - 1.
pub const READERS: u32 = 16;

/// What a poll says: no wait is open, somebody is still awaited, or the wait is over and now closed. Three answers, and none is an error, so no `Result`.
#[derive(Clone, Copy, PartialEq, Eq, Debug)]
pub enum Poll {
    NoWait,
    NotYet,
    Over,
}

impl Poll {
    /// Whether somebody is still awaited.
    pub fn is_not_yet(self) -> bool
        ensures { result ≡ says_not_yet self }
    {
        self == Poll::NotYet
    }
}

impl fmt::Display for Poll {
    ghost output = { λ poll. Some (poll_text poll) };

    fn fmt<W: fmt::Write>(&self, f: &mut fmt::Formatter<W>) -> fmt::Result {
        f.write_str(match self {
            Poll::NoWait => "none",
            Poll::NotYet => "not yet",
            Poll::Over => "over",
        })
    }
}

/// A scheme tells the one task that changes the list when the readers have gone.
// The clause `refused` stands at each call: inside `Follows`, whoever reads a contract would not see that nothing changes.
pub trait Scheme: Sized {
    // The readers inside, whether a wait is open, and the readers that it awaits.
    ghost meaning: { Self → Meaning };

    /// No visit is under way, and no wait is open.
    fn new() -> Self
        ensures { meaning result ≡ at_start };

    /// A visit starts. Accepted for readers 0 to 15 that are outside, and for no other; what is refused leaves the scheme as it was.
    fn enter(&mut self, reader: u32) -> Result<(), Refused>
        ensures follows { Follows meaning (on_enter reader) self.old self.new (is_ok result) }
        ensures refused { OnErr result (self.new ≡ self.old) };

    /// The visit ends, and nobody waits for it any more. Accepted for readers inside, and for no other.
    fn leave(&mut self, reader: u32) -> Result<(), Refused>
        ensures follows { Follows meaning (on_leave reader) self.old self.new (is_ok result) }
        ensures refused { OnErr result (self.new ≡ self.old) };

    /// A wait starts, for every visit that is under way. Accepted unless one is open.
    fn begin(&mut self) -> Result<(), Refused>
        ensures follows { Follows meaning on_begin self.old self.new (is_ok result) }
        ensures refused { OnErr result (self.new ≡ self.old) };

    /// Asks whether the wait is over, and closes it if so. With no wait open it leaves the scheme as it was.
    fn poll(&mut self) -> Poll
        ensures follows { Follows meaning on_poll self.old self.new result }
        ensures none { result ≡ Poll.NoWait → self.new ≡ self.old };

    // Whoever is inside has a number from 0 to 15, whoever is awaited is inside, and nobody is awaited unless a wait is open.
    ghost sound: { (s : Self) → Sound (meaning s) };
}
