// Two schemes as one: the first has readers 0 to 7, the second readers 8 to 15, which it knows as 0 to 7.
ghost use Rattle.scheme.specs.Halves.{Joins, joined};
ghost use Rattle.std.proofs.Common.{rules};

use crate::interface::{Poll, READERS, Scheme};
use crate::refused::Refused;

// How many readers each of the two has.
const HALF: u32 = READERS / 2;

#[derive(Drop)]
pub struct Pair<A: Scheme, B: Scheme> {
    first: A,
    second: B,
    // One half's wait may be over before the other's, so the pair knows by itself whether its wait is open.
    waits: bool,
    ghost joins: { Joins waits (A.meaning first) (B.meaning second) },
}

impl<A: Scheme, B: Scheme> Scheme for Pair<A, B> {
    ghost meaning = { λ s. joined s.waits (A.meaning s.first) (B.meaning s.second) };

    ghost sound = { Prim.search rules };

    fn new() -> Pair<A, B> {
        Pair {
            first: A::new(),
            second: B::new(),
            waits: false,
        }
    }

    // `leave` goes the same ways as `enter`, in as many words: the two schemes have two types, so one way for both would take two closures.
    fn enter(&mut self, reader: u32) -> Result<(), Refused> {
        match reader {
            0..HALF => self.first.enter(reader),
            HALF..READERS => self.second.enter(reader - HALF),
            _ => Err(Refused),
        }
    }

    fn leave(&mut self, reader: u32) -> Result<(), Refused> {
        match reader {
            0..HALF => self.first.leave(reader),
            HALF..READERS => self.second.leave(reader - HALF),
            _ => Err(Refused),
        }
    }

    fn begin(&mut self) -> Result<(), Refused> {
        if self.waits {
            return Err(Refused);
        }
        // Neither half has a wait open, so both accept. No `?`: its tests for a refusal that cannot come made waits of a pair of two pairs, in one loop, take half as long again.
        let _ = self.first.begin();
        let _ = self.second.begin();
        self.waits = true;
        Ok(())
    }

    fn poll(&mut self) -> Poll {
        if !self.waits {
            return Poll::NoWait;
        }
        let first = self.first.poll();
        let second = self.second.poll();
        let still_waits = first.is_not_yet() || second.is_not_yet();
        if still_waits {
            return Poll::NotYet;
        }
        self.waits = false;
        Poll::Over
    }
}
