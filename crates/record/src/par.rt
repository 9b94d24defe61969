// A parameter: a value between the least and the most that it may be.
ghost use Rattle.record.specs.declared.kind.Kind.{Kind};
ghost use Rattle.record.specs.Pars.{par_fields, par_making, ParWithin};
ghost use Rattle.std.proofs.Common.{rules};

use crate::fault::Fault;
use crate::interface::{MOST_FIELDS, Record};
use crate::kind::Kind;
use crate::range::checked;

#[derive(Clone, Copy, PartialEq, Eq, Debug)]
pub struct Par {
    value: i32,
    least: i32,
    most: i32,
}

impl Record for Par {
    ghost KIND = { Kind.Par };

    const KIND: Kind = Kind::Par;

    ghost COUNT = { 3 };

    const COUNT: usize = 3;

    ghost fields = { par_fields };

    ghost making = { par_making };

    ghost within = { ParWithin };

    ghost fewest = { Prim.search rules };

    ghost most = { Prim.search rules };

    ghost full = { Prim.search rules };

    ghost told = { Prim.search rules };

    ghost sound = { Prim.search rules };

    ghost limits = { Prim.search rules };

    fn make(numbers: [i32; MOST_FIELDS]) -> Result<Par, Fault> {
        let [value, least, most, _unread] = numbers;
        Ok(Par {
            value: checked(value, least..=most, 1)?,
            least,
            most,
        })
    }

    fn field(&self, i: usize) -> Option<i32> {
        [self.value, self.least, self.most].get(i).copied()
    }
}
