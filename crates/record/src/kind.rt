// The kinds of record by name, and the word that each has in a schedule.
ghost use Rattle.std.specs.Prelude.{◌≡◌, Some};
ghost use Rattle.record.specs.Kinds.{kind_word};

use std::fmt;

#[derive(Clone, Copy, PartialEq, Eq, Debug)]
pub enum Kind {
    Way,
    Par,
}

impl Kind {
    /// The kind as a schedule names it. It stays beside `Display`, which prints it.
    pub fn word(self) -> &'static str
        ensures { result.now ≡ kind_word self }
    {
        match self {
            Kind::Way => "way",
            Kind::Par => "par",
        }
    }
}

impl fmt::Display for Kind {
    ghost output = { λ kind. Some (kind_word kind) };

    fn fmt<W: fmt::Write>(&self, f: &mut fmt::Formatter<W>) -> fmt::Result {
        f.write_str(self.word())
    }
}
