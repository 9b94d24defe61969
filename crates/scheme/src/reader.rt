// A reader that there is.
ghost use Rattle.std.specs.Prelude.{◌<◌};
ghost use Rattle.scheme.specs.Meaning.{readers};

use crate::interface::READERS;
use crate::refused::Refused;

#[derive(Clone, Copy, PartialEq, Eq, Debug)]
pub struct Reader {
    pub number: u32,
    ghost known: { number < readers },
}

// The place of what is kept for a reader, in a table of all.
impl From<Reader> for usize {
    ghost use Rattle.std.specs.Prelude.{◌≡◌};

    ghost from_gives = { λ reader place. place ≡ reader.number };

    fn from(reader: Reader) -> usize {
        reader.number as usize
    }
}

impl TryFrom<u32> for Reader {
    ghost use Rattle.scheme.specs.Readers.{Numbered};

    type Error = Refused;

    ghost try_from_gives = { Numbered };

    fn try_from(number: u32) -> Result<Reader, Refused> {
        if number >= READERS {
            return Err(Refused);
        }
        Ok(Reader { number })
    }
}
