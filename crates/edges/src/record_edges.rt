// The limits of each field, and one beyond each.
use record::{MOST_FIELDS, Par, Record, Way};
use std::process::Abort;
use std::test::Fail;

// Four numbers, and the field that is at fault, or `None` where a record is made.
type Edge = ([i32; MOST_FIELDS], Option<u8>);

const WAYS: &[Edge] = &[
    ([0, 0, 0, 0], None),
    ([900_000_000, 0, 0, 0], None),
    ([900_000_001, 0, 0, 0], Some(1)),
    ([-900_000_000, 0, 0, 0], None),
    ([-900_000_001, 0, 0, 0], Some(1)),
    ([0, 1_800_000_000, 0, 0], None),
    ([0, 1_800_000_001, 0, 0], Some(2)),
    ([0, -1_800_000_000, 0, 0], None),
    ([0, -1_800_000_001, 0, 0], Some(2)),
    ([0, 0, -100_000, 0], None),
    ([0, 0, -100_001, 0], Some(3)),
    ([0, 0, 1_000_000, 0], None),
    ([0, 0, 1_000_001, 0], Some(3)),
    ([0, 0, 0, -1], Some(4)),
    ([0, 0, 0, 3_000], None),
    ([0, 0, 0, 3_001], Some(4)),
    ([900_000_000, -1_800_000_000, 1_000_000, 3_000], None),
    // Of several fields outside their limits the first is blamed.
    ([900_000_001, 1_800_000_001, 1_000_001, 3_001], Some(1)),
    ([0, 1_800_000_001, 1_000_001, 3_001], Some(2)),
    ([0, 0, -100_001, -1], Some(3)),
    ([2_147_483_647, 0, 0, 0], Some(1)),
    ([-2_147_483_648, 0, 0, 0], Some(1)),
];

const PARS: &[Edge] = &[
    ([5, 5, 5, 0], None),
    ([6, 0, 5, 0], Some(1)),
    ([-1, 0, 5, 0], Some(1)),
    ([0, 0, 5, 0], None),
    ([5, 0, 5, 0], None),
    // With the least above the most no value will do.
    ([5, 6, 4, 0], Some(1)),
    ([6, 6, 4, 0], Some(1)),
    ([4, 6, 4, 0], Some(1)),
    ([-2_147_483_648, -2_147_483_648, 2_147_483_647, 0], None),
    ([2_147_483_647, -2_147_483_648, 2_147_483_647, 0], None),
    // The fourth number is not read.
    ([5, 5, 5, 2_147_483_647], None),
    ([6, 0, 5, -2_147_483_648], Some(1)),
];

// Each of the edges is made, or has the fault that it is to have.
fn check_edges<R: Record>(rt: &impl Abort, edges: &[Edge]) {
    for (numbers, fault) in edges {
        assert_eq!(rt; R::make(*numbers).err().map(|found| found.field), *fault);
    }
}

#[test]
fn waypoints(rt: HostRuntime) {
    check_edges::<Way>(&rt, WAYS);
}

#[test]
fn parameters(rt: HostRuntime) {
    check_edges::<Par>(&rt, PARS);
}

// A record has the numbers that it was made of, each in its place, and no more.
fn check_fields<R: Record>(rt: &impl Abort, numbers: [i32; MOST_FIELDS]) -> Result<(), Fail> {
    let made = R::make(numbers)?;
    let wanted = numbers.iter().copied().take(R::field_count()).map(Some);
    let found = (0..=MOST_FIELDS).map(|place| made.field(place));
    for (found, wanted) in found.zip(wanted.chain([None; MOST_FIELDS])) {
        assert_eq!(rt; found, wanted);
    }
    Ok(())
}

#[test]
fn fields_are_the_numbers(rt: HostRuntime) -> Result<(), Fail> {
    check_fields::<Way>(&rt, [1, 2, 3, 4])?;
    check_fields::<Way>(&rt, [-900_000_000, 1_800_000_000, -100_000, 3_000])?;
    check_fields::<Par>(&rt, [7, -8, 9, 10])
}

#[test]
fn kinds_have_their_words(rt: HostRuntime) {
    assert_eq!(rt; Way::own_kind().word(), "way");
    assert_eq!(rt; Par::own_kind().word(), "par");
    assert_eq!(rt; Way::field_count(), 4);
    assert_eq!(rt; Par::field_count(), 3);
}
