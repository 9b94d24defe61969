// A waypoint and a parameter are made, and one of each is refused.
use record::{MOST_FIELDS, Par, Record, Way};
use std::io;

// What came of making: the fields, or the field at fault.
fn show<R: Record>(rt: &impl Print, numbers: [i32; MOST_FIELDS]) -> io::Result<()> {
    let kind = R::own_kind();
    match R::make(numbers) {
        Ok(made) => {
            print!(rt; "{kind} made:")?;
            show_fields(rt, &made)
        }
        Err(fault) => println!(rt; "{kind} refused, {fault}"),
    }
}

fn show_fields<R: Record>(rt: &impl Print, made: &R) -> io::Result<()> {
    for value in (0..R::field_count()).filter_map(|i| made.field(i)) {
        print!(rt; " {value}")?;
    }
    println!(rt; "")
}

pub fn show_all(rt: &impl Print) -> io::Result<()> {
    show::<Way>(rt, [473_977_110, 85_450_220, 61_200, 1_500])?;
    show::<Way>(rt, [473_977_110, 1_800_000_001, 61_200, 1_500])?;
    show::<Par>(rt, [50, 0, 100, 0])?;
    show::<Par>(rt, [101, 0, 100, 0])
}
