// One list of calls, run on each scheme.
use scheme::{Bits, Call, Pair, Phase, Scheme, run};
use std::io;

// The type of an array in a constant names its length.
const CALLS: usize = 21;

// Readers 2 and 9 are inside when the wait begins; 5 and 12 enter while it is open.
const SCRIPT: [Call; CALLS] = [
    Call::Enter(2),
    Call::Enter(9),
    Call::Enter(9),
    Call::Enter(16),
    Call::Poll,
    Call::Begin,
    Call::Begin,
    Call::Poll,
    Call::Enter(5),
    Call::Enter(12),
    Call::Leave(2),
    Call::Poll,
    Call::Leave(5),
    Call::Enter(2),
    Call::Poll,
    Call::Leave(9),
    Call::Poll,
    Call::Poll,
    Call::Leave(9),
    Call::Leave(2),
    Call::Leave(12),
];

fn show<S: Scheme + Drop>(rt: &impl Print, name: &str) -> io::Result<()> {
    println!(rt; "{name}")?;
    let (_scheme, answers) = run::<S, CALLS>(&SCRIPT);
    for (call, answer) in SCRIPT.iter().zip(&answers) {
        println!(rt; "  {call}: {answer}")?;
    }
    Ok(())
}

pub fn show_all(rt: &impl Print) -> io::Result<()> {
    show::<Bits>(rt, "bits")?;
    show::<Phase>(rt, "phase")?;
    show::<Pair<Bits, Phase>>(rt, "pair of bits and phase")?;
    show::<Pair<Pair<Bits, Phase>, Bits>>(rt, "pair of a pair and bits")?;
    show::<Pair<Pair<Bits, Phase>, Pair<Phase, Bits>>>(rt, "pair of two pairs")
}
