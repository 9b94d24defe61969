// A set of readers in sixteen bits: reader r is in it where bit r is 1.
ghost use Rattle.std.specs.Prelude.{◌≡◌, false, is_ok, not, OnErr, true};
ghost use Rattle.scheme.specs.Meaning.{anybody, nobody, updated};
ghost use Rattle.scheme.specs.ReaderSets.{members};

use crate::reader::Reader;
use crate::refused::Refused;

/// Contracts see it as a function from numbers to yes or no, by `members`.
#[derive(Clone, Copy, PartialEq, Eq, Debug)]
pub struct ReaderSet {
    // No `impl Model`: its `Value` may be no function ("A function has no code"), and a list or a finite set would have to be read back as one in each clause.
    bits: u16,
}

impl ReaderSet {
    #[tactic(auto, using(crate::proofs::Words::no_bit))]
    pub fn empty() -> ReaderSet
        ensures { members result ≡ nobody }
    {
        ReaderSet { bits: 0 }
    }

    #[tactic(auto, using(crate::proofs::Words::bit_read))]
    pub fn contains(self, reader: Reader) -> bool
        ensures { result ≡ members self reader.number }
    {
        (self.bits >> reader.number) & 1 == 1
    }

    // The clause `kept` stands at each call that may refuse, here and in `visits.rt`, since it speaks of two states and not of one value.
    /// Puts the reader in. Refused if it is in already.
    #[tactic(auto, using(crate::proofs::Words::bit_set))]
    pub fn insert(&mut self, reader: Reader) -> Result<(), Refused>
        ensures answer { is_ok result ≡ not (members self.old reader.number) }
        ensures put { members self.new ≡ updated (members self.old) reader.number true }
        ensures kept { OnErr result (self.new ≡ self.old) }
    {
        if self.contains(reader) {
            return Err(Refused);
        }
        self.bits |= 1 << reader.number;
        Ok(())
    }

    /// Takes the reader out. Refused if it is not in.
    #[tactic(auto, using(crate::proofs::Words::bit_cleared))]
    pub fn remove(&mut self, reader: Reader) -> Result<(), Refused>
        ensures answer { is_ok result ≡ members self.old reader.number }
        ensures out { members self.new ≡ updated (members self.old) reader.number false }
        ensures kept { OnErr result (self.new ≡ self.old) }
    {
        if !self.contains(reader) {
            return Err(Refused);
        }
        self.bits &= !(1 << reader.number);
        Ok(())
    }

    #[tactic(auto, using(crate::proofs::Words::empty_word, crate::proofs::Words::no_bit))]
    pub fn is_empty(self) -> bool
        ensures answer { result ≡ not (anybody (members self)) }
        ensures empty { result ≡ true → members self ≡ nobody }
    {
        self.bits == 0
    }
}
