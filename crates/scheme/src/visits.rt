// The visits of all readers, and for each phase the count of those under it.
ghost use Rattle.std.specs.Prelude.{◌≡◌, false, is_some, length, not, slice_index, true, is_ok, OnErr, OnOk};
ghost use Rattle.scheme.specs.declared.phase_number.PhaseNumber.{PhaseNumber};
ghost use Rattle.scheme.specs.Counts.{number};
ghost use Rattle.scheme.specs.Meaning.{anybody, nobody, readers, updated};
ghost use Rattle.scheme.specs.PhaseNumbers.{index_of, other, same};
ghost use Rattle.scheme.specs.Visits.{under, visiting};

use crate::interface::READERS;
use crate::phase_number::PhaseNumber;
use crate::reader::Reader;
use crate::refused::Refused;

// The table has a place for each reader. By a cast, since a constant may call no function.
const PLACES: usize = READERS as usize;

/// Who is inside, and under which phase.
#[derive(Drop)]
pub struct Visits {
    // Contracts name the table, and there is no `impl Model`: its view would leave the counts out of what "the whole scheme stays as it was" says of `Phase`.
    // The phase that each reader took as it entered, or none for one that is outside. An array, since there is no heap.
    table: [Option<PhaseNumber>; PLACES],
    counts: [u8; 2],
    ghost sized: { length table ≡ readers },
    ghost two: { length counts ≡ 2 },
    // A phase's count tells how many are inside who entered under it.
    ghost counted: { (p : PhaseNumber) → slice_index counts (index_of p) ≡ number (under table p) },
}

impl Visits {
    /// All readers are outside.
    #[tactic(auto, using(crate::proofs::Phases::none_visiting, crate::proofs::Phases::none_under, crate::proofs::Counts::number_nobody))]
    pub fn none() -> Visits
        ensures inside { visiting result.table ≡ nobody }
        ensures phases { (p : PhaseNumber) → under result.table p ≡ nobody }
    {
        Visits {
            table: [None; PLACES],
            counts: [0; 2],
        }
    }

    /// Whether the reader is inside.
    #[tactic(auto, unfolding(crate::specs::Visits::visiting))]
    pub fn contains(&self, reader: Reader) -> bool
        ensures { result ≡ visiting self.now.table reader.number }
    {
        self.table[usize::from(reader)].is_some()
    }

    // The clause `kept` stands at each call that may refuse, since it speaks of two states and not of one value.
    /// A visit of the reader begins under the phase. Refused if it is inside.
    #[tactic(auto, using(crate::proofs::Phases::visiting_set, crate::proofs::Phases::entered_under, crate::proofs::Phases::room_left), unfolding(crate::specs::Visits::visiting))]
    pub fn enter(&mut self, reader: Reader, phase: PhaseNumber) -> Result<(), Refused>
        ensures answer { is_ok result ≡ not (visiting self.old.table reader.number) }
        ensures inside { OnOk result (visiting self.new.table ≡ updated (visiting self.old.table) reader.number true) }
        ensures phases { OnOk result ((p : PhaseNumber) → under self.new.table p ≡ updated (under self.old.table p) reader.number (same phase p)) }
        ensures kept { OnErr result (self.new ≡ self.old) }
    {
        if self.contains(reader) {
            return Err(Refused);
        }
        let place = usize::from(reader);
        self.table[place] = Some(phase);
        self.counts[usize::from(phase)] += 1;
        Ok(())
    }

    /// The visit of the reader ends, and its phase has one reader less. Refused if it is outside.
    #[tactic(auto, using(crate::proofs::Phases::visiting_set, crate::proofs::Phases::left_under, crate::proofs::Phases::some_counted), unfolding(crate::specs::Visits::visiting))]
    pub fn leave(&mut self, reader: Reader) -> Result<(), Refused>
        ensures answer { is_ok result ≡ visiting self.old.table reader.number }
        ensures inside { OnOk result (visiting self.new.table ≡ updated (visiting self.old.table) reader.number false) }
        ensures phases { OnOk result ((p : PhaseNumber) → under self.new.table p ≡ updated (under self.old.table p) reader.number false) }
        ensures kept { OnErr result (self.new ≡ self.old) }
    {
        let place = usize::from(reader);
        let phase = self.table[place].take().ok_or(Refused)?;
        self.counts[usize::from(phase)] -= 1;
        Ok(())
    }

    /// Whether a reader is inside that entered under the phase; if not, all entered under the other.
    #[tactic(auto, using(crate::proofs::Phases::count_tells, crate::proofs::Phases::nobody_under, crate::proofs::Phases::others_under))]
    pub fn any_under(&self, phase: PhaseNumber) -> bool
        ensures answer { result ≡ anybody (under self.now.table phase) }
        ensures empty { result ≡ false → under self.now.table phase ≡ nobody }
        ensures others { result ≡ false → under self.now.table (other phase) ≡ visiting self.now.table }
    {
        self.counts[usize::from(phase)] > 0
    }
}
