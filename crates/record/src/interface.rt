// The interface of a kind of record: which kind it is, how many fields it has, and its making.
ghost use Rattle.std.specs.Prelude.{◌≡◌, ℕ, ◌≤◌, ◌↔◌, List, [], ◌∷◌, length, take, ℤ, IfOk};
ghost use Rattle.std.proofs.Common.{inl};
ghost use Rattle.std.specs.List.{slice_get};
ghost use Rattle.record.specs.declared.kind.Kind.{Kind};
ghost use Rattle.record.specs.Making.{Making, made_of, SoundMaking};
ghost use Rattle.record.specs.Made.{made};

use crate::fault::Fault;
use crate::kind::Kind;

/// The most fields that a kind may have, and so how many numbers making is handed.
pub const MOST_FIELDS: usize = 4;

/// `make` gives only records within the limits. A kind keeps its fields private, so that nothing else gives one.
pub trait Record: Copy {
    // Which kind it is.
    ghost KIND: { Kind };

    const KIND: Kind;

    // How many fields it has.
    ghost COUNT: { ℕ };

    const COUNT: usize;

    // What a record means: its fields, in order.
    ghost fields: { Self → List ℤ };

    // What four numbers make: the fields of a record, or the first field at fault.
    ghost making: { Making };

    // The limits of the kind.
    ghost within: { Self → Type 0 };

    /// The record of these numbers, or the first field at fault. A kind with fewer fields ignores the numbers behind its last.
    fn make(numbers: [i32; MOST_FIELDS]) -> Result<Self, Fault>
        ensures gives { made fields result ≡ made_of making numbers }
        ensures within { IfOk result within };

    /// The two constants, as functions that no kind writes anew.
    final fn own_kind() -> Kind
        ensures { result ≡ KIND }
    {
        Self::KIND
    }

    final fn field_count() -> usize
        ensures { result ≡ COUNT }
    {
        Self::COUNT
    }

    /// The field at place i, counted from 0. Each kind lists its fields itself, since an array of `COUNT` would have a computed length, which Rattle has not.
    fn field(&self, i: usize) -> Option<i32>
        ensures { result ≡ slice_get (fields self.now) i };

    // A kind has 1 to 4 fields, and each of its records has them all.
    ghost fewest: { 1 ≤ COUNT };

    ghost most: { COUNT ≤ 4 };

    ghost full: { (x : Self) → length (fields x) ≡ COUNT };

    // A record is no more than its fields.
    ghost told: { (x y : Self) → fields x ≡ fields y → x ≡ y };

    // A record has just the numbers that it was made of, and a kind reads no number but its own.
    ghost sound: { SoundMaking COUNT making };

    // A record of given numbers is within the limits exactly if making gives it.
    ghost limits: { (a b c d : ℤ) (x : Self) → fields x ≡ take COUNT (a ∷ b ∷ c ∷ d ∷ []) → within x ↔ (making a b c d ≡ inl (fields x)) };
}
