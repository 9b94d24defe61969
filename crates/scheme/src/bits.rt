// Two sets of sixteen bits: the readers inside, and while a wait is open those that it awaits.
ghost use Rattle.std.specs.Prelude.{◌≡◌, ℕ, is_some, true};
ghost use Rattle.scheme.specs.ReaderSets.{awaited_by, members};
ghost use Rattle.scheme.specs.SoundSets.{bits_known, quiet_without};

use crate::interface::{Poll, Scheme};
use crate::reader::Reader;
use crate::reader_set::ReaderSet;
use crate::refused::Refused;

#[derive(Drop)]
pub struct Bits {
    inside: ReaderSet,
    // The readers that the open wait awaits, or none if no wait is open.
    wait: Option<ReaderSet>,
    ghost within: { (r : ℕ) → awaited_by wait r ≡ true → members inside r ≡ true },
}

impl Scheme for Bits {
    ghost meaning = { λ s. record { inside = members s.inside; waits = is_some s.wait; awaited = awaited_by s.wait } };

    ghost sound = { λ s. record { known = bits_known s.inside.bits; within = s.within; quiet = quiet_without s.wait } };

    fn new() -> Bits {
        Bits {
            inside: ReaderSet::empty(),
            wait: None,
        }
    }

    fn enter(&mut self, reader: u32) -> Result<(), Refused> {
        let reader = Reader::try_from(reader)?;
        self.inside.insert(reader)
    }

    #[tactic(auto, using(crate::proofs::Words::none_high))]
    fn leave(&mut self, reader: u32) -> Result<(), Refused> {
        let reader = Reader::try_from(reader)?;
        self.inside.remove(reader)?;
        if let Some(awaited) = &mut self.wait {
            // It is not awaited if it entered after the wait began.
            let _ = awaited.remove(reader);
        }
        Ok(())
    }

    fn begin(&mut self) -> Result<(), Refused> {
        if self.wait.is_some() {
            return Err(Refused);
        }
        self.wait = Some(self.inside);
        Ok(())
    }

    fn poll(&mut self) -> Poll {
        match self.wait {
            None => Poll::NoWait,
            Some(awaited) if !awaited.is_empty() => Poll::NotYet,
            Some(_) => {
                self.wait = None;
                Poll::Over
            }
        }
    }
}
