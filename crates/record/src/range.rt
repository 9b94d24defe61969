// Limits of a field, both allowed.
ghost use Rattle.std.specs.Prelude.{◌≡◌, false, is_ok, OnOk, IfOk, IfErr};
ghost use Rattle.std.specs.Range.{range_inclusive_start, range_inclusive_end, range_inclusive_exhausted};
ghost use Rattle.record.specs.Making.{Between, lies};

use crate::fault::Fault;
use std::ops::RangeInclusive;

/// The number itself where it is within the limits of the field.
pub(crate) fn checked(number: i32, limits: RangeInclusive<i32>, field: u8) -> Result<i32, Fault>
    requires { range_inclusive_exhausted limits ≡ false }
    ensures answer { is_ok result ≡ lies (range_inclusive_start limits) (range_inclusive_end limits) number }
    ensures within { OnOk result (Between (range_inclusive_start limits) (range_inclusive_end limits) number) }
    ensures value { IfOk result (λ n. n ≡ number) }
    ensures blamed { IfErr result (λ fault. fault.field ≡ field) }
{
    if limits.contains(&number) {
        Ok(number)
    } else {
        Err(Fault { field })
    }
}
