// An entering reader takes the current phase, 0 or 1, and each phase has a count of the readers inside that took it.
// A wait turns the phase, so that the old count only falls, and is over when that count is 0.
ghost use Rattle.std.specs.Prelude.{◌≡◌, ℕ, false};
ghost use Rattle.scheme.specs.Visits.{phased, under, visiting};
ghost use Rattle.scheme.specs.SoundVisits.{phased_sound};

use crate::interface::{Poll, Scheme};
use crate::phase_number::PhaseNumber;
use crate::reader::Reader;
use crate::refused::Refused;
use crate::visits::Visits;

#[derive(Drop)]
pub struct Phase {
    visits: Visits,
    phase: PhaseNumber,
    // A flag: whom an open wait awaits follows from the current phase.
    waits: bool,
    // With no wait open all readers inside entered under the current phase.
    ghost settled: { (r : ℕ) → waits ≡ false → under visits.table phase r ≡ visiting visits.table r },
}

impl Scheme for Phase {
    ghost meaning = { λ s. phased s.visits.table s.phase s.waits };

    ghost sound = { λ s. phased_sound _ _ _ s.visits.sized };

    fn new() -> Phase {
        Phase {
            visits: Visits::none(),
            phase: PhaseNumber::Zero,
            waits: false,
        }
    }

    fn enter(&mut self, reader: u32) -> Result<(), Refused> {
        let reader = Reader::try_from(reader)?;
        self.visits.enter(reader, self.phase)
    }

    #[tactic(auto, using(crate::specs::SoundVisits::nobody_past))]
    fn leave(&mut self, reader: u32) -> Result<(), Refused> {
        let reader = Reader::try_from(reader)?;
        self.visits.leave(reader)
    }

    fn begin(&mut self) -> Result<(), Refused> {
        if self.waits {
            return Err(Refused);
        }
        self.phase = self.phase.other();
        self.waits = true;
        Ok(())
    }

    fn poll(&mut self) -> Poll {
        if !self.waits {
            return Poll::NoWait;
        }
        if self.visits.any_under(self.phase.other()) {
            return Poll::NotYet;
        }
        self.waits = false;
        Poll::Over
    }
}
