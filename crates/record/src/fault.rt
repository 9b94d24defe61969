// What is wrong with numbers that make no record.
ghost use Rattle.std.specs.Prelude.{Some};
ghost use Rattle.record.specs.Faults.{fault_text};

use std::error::Error;
use std::fmt;

/// The first field that is outside its limits, counted from 1. A number and no enum: each kind has fields of its own.
#[derive(Clone, Copy, PartialEq, Eq, Debug)]
pub struct Fault {
    pub field: u8,
}

impl fmt::Display for Fault {
    ghost output = { λ fault. Some (fault_text fault.field) };

    fn fmt<W: fmt::Write>(&self, f: &mut fmt::Formatter<W>) -> fmt::Result {
        write!(f, "field {} is at fault", self.field)
    }
}

impl Error for Fault {}
