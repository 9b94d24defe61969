// A waypoint.
ghost use Rattle.record.specs.declared.kind.Kind.{Kind};
ghost use Rattle.record.specs.Ways.{way_fields, way_making, WayWithin};
ghost use Rattle.std.proofs.Common.{rules, arith};

use crate::fault::Fault;
use crate::interface::{MOST_FIELDS, Record};
use crate::kind::Kind;
use crate::range::checked;

// The greatest latitude and longitude, either way, in units of 0.0000001 degree; the least and greatest height in cm; the greatest speed in cm/s.
// Each end has a constant: for one that holds a range the check says "a call in a constant's value is not supported yet".
const LATITUDE: i32 = 900_000_000;

const LONGITUDE: i32 = 1_800_000_000;

const LOWEST: i32 = -100_000;

const HIGHEST: i32 = 1_000_000;

const FASTEST: i32 = 3_000;

#[derive(Clone, Copy, PartialEq, Eq, Debug)]
pub struct Way {
    latitude: i32,
    longitude: i32,
    height: i32,
    speed: i32,
}

impl Record for Way {
    ghost KIND = { Kind.Way };

    const KIND: Kind = Kind::Way;

    ghost COUNT = { 4 };

    const COUNT: usize = 4;

    ghost fields = { way_fields };

    ghost making = { way_making };

    ghost within = { WayWithin };

    ghost fewest = { Prim.search rules };

    ghost most = { Prim.search rules };

    ghost full = { Prim.search rules };

    ghost told = { Prim.search rules };

    // At four fields `Prim.search rules` stops at its limit of case splits.
    ghost sound = { Prim.grind arith };

    ghost limits = { λ a b c d x e. Prim.grind arith };

    fn make(numbers: [i32; MOST_FIELDS]) -> Result<Way, Fault> {
        let [latitude, longitude, height, speed] = numbers;
        Ok(Way {
            latitude: checked(latitude, -LATITUDE..=LATITUDE, 1)?,
            longitude: checked(longitude, -LONGITUDE..=LONGITUDE, 2)?,
            height: checked(height, LOWEST..=HIGHEST, 3)?,
            speed: checked(speed, 0..=FASTEST, 4)?,
        })
    }

    fn field(&self, i: usize) -> Option<i32> {
        [self.latitude, self.longitude, self.height, self.speed]
            .get(i)
            .copied()
    }
}
