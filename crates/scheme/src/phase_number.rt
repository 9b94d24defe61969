// The two phases: an entering reader takes the current one, and a wait turns to the other.
ghost use Rattle.std.specs.Prelude.{◌≡◌};
ghost use Rattle.scheme.specs.PhaseNumbers.{index_of, other};

#[derive(Clone, Copy, PartialEq, Eq, Debug)]
pub enum PhaseNumber {
    Zero,
    One,
}

impl PhaseNumber {
    pub fn other(self) -> PhaseNumber
        ensures { result ≡ other self }
    {
        match self {
            PhaseNumber::Zero => PhaseNumber::One,
            PhaseNumber::One => PhaseNumber::Zero,
        }
    }
}

// The place of what is kept for a phase, in a table of two.
impl From<PhaseNumber> for usize {
    ghost from_gives = { λ phase place. place ≡ index_of phase };

    fn from(phase: PhaseNumber) -> usize {
        phase as usize
    }
}
