// Shows a wait from beginning to end, on each scheme: the readers that were inside when it began are awaited, those that
// entered later are not, and it is over exactly when the last awaited one has gone. Then records are made and refused.
#![tactic(auto)]

mod records;
mod schemes;

use std::io;

fn main(rt: HostRuntime) -> io::Result<()> {
    schemes::show_all(&rt)?;
    records::show_all(&rt)
}
