// Calls of a scheme as values, and the run of any list of them on a new scheme.
ghost use Rattle.std.specs.Prelude.{◌≡◌, is_ok, Some};
ghost use Rattle.scheme.specs.Scripts.{on_call, told};
ghost use Rattle.scheme.specs.Texts.{answer_text, call_text};
ghost use Rattle.scheme.specs.Runs.{Ran};
ghost use Rattle.scheme.specs.Meaning.{Follows, at_start};

use crate::interface::{Poll, Scheme};
use crate::refused::Refused;
use std::fmt;

/// A call of a scheme, with the reader that makes it.
#[derive(Clone, Copy, PartialEq, Eq, Debug)]
pub enum Call {
    Enter(u32),
    Leave(u32),
    Begin,
    Poll,
}

impl fmt::Display for Call {
    ghost output = { λ call. Some (call_text call) };

    fn fmt<W: fmt::Write>(&self, f: &mut fmt::Formatter<W>) -> fmt::Result {
        match self {
            Call::Enter(reader) => write!(f, "enter {reader}"),
            Call::Leave(reader) => write!(f, "leave {reader}"),
            Call::Begin => f.write_str("begin"),
            Call::Poll => f.write_str("poll"),
        }
    }
}

/// What came of it: enter, leave and begin are accepted or refused, and a poll says what it says. A `Result` inside would say the first two by one layer more.
#[derive(Clone, Copy, PartialEq, Eq, Debug)]
pub enum Answer {
    Accepted,
    Refused,
    Polled(Poll),
}

impl From<Result<(), Refused>> for Answer {
    ghost from_gives = { λ said answer. answer ≡ told (is_ok said) };

    fn from(said: Result<(), Refused>) -> Answer {
        match said {
            Ok(()) => Answer::Accepted,
            Err(Refused) => Answer::Refused,
        }
    }
}

impl From<Poll> for Answer {
    ghost use Rattle.scheme.specs.declared.script.Answer.{Answer};

    ghost from_gives = { λ poll answer. answer ≡ Answer.Polled poll };

    fn from(said: Poll) -> Answer {
        Answer::Polled(said)
    }
}

impl fmt::Display for Answer {
    ghost output = { λ answer. Some (answer_text answer) };

    fn fmt<W: fmt::Write>(&self, f: &mut fmt::Formatter<W>) -> fmt::Result {
        match self {
            Answer::Accepted => f.write_str("accepted"),
            Answer::Refused => f.write_str("refused"),
            Answer::Polled(poll) => write!(f, "{poll}"),
        }
    }
}

/// Makes one call on a scheme. What is refused leaves it as it was, and so does a poll with no wait open.
pub fn call_on<S: Scheme>(scheme: &mut S, call: Call) -> Answer
    ensures follows { Follows S.meaning (on_call call) scheme.old scheme.new result }
    ensures refused { result ≡ Answer.Refused → scheme.new ≡ scheme.old }
    ensures none { result ≡ Answer.Polled Poll.NoWait → scheme.new ≡ scheme.old }
{
    // No closures in place of calls: a call is a value, which histories keep and tests list.
    match call {
        Call::Enter(reader) => scheme.enter(reader).into(),
        Call::Leave(reader) => scheme.leave(reader).into(),
        Call::Begin => scheme.begin().into(),
        Call::Poll => scheme.poll().into(),
    }
}

// Makes the calls, one after another, on a scheme on which none was made yet.
#[tactic(auto, using(crate::proofs::Scripts::one_more, crate::proofs::Scripts::all_made))]
fn call_all<S: Scheme, const N: usize>(scheme: &mut S, calls: &[Call; N]) -> [Answer; N]
    requires { S.meaning scheme.old ≡ at_start }
    ensures { Ran S.meaning calls.now scheme.new result }
{
    let mut answers = [Answer::Refused; N];
    // No `calls.map(..)`, which asks that the array and two numbers fit in memory, as not every length does; no `zip` with `iter_mut()`, after which a proof knows how many answers there are and not what they are.
    for (i, call) in calls.iter().enumerate() {
        answers[i] = call_on(scheme, *call);
    }
    answers
}

/// Runs any list of calls on a new scheme: the scheme as they leave it, and their answers. Arrays, since there is no heap.
pub fn run<S: Scheme, const N: usize>(calls: &[Call; N]) -> (S, [Answer; N])
    ensures { Ran S.meaning calls.now result.0 result.1 }
{
    let mut scheme = S::new();
    let answers = call_all(&mut scheme, calls);
    (scheme, answers)
}
