// The numbers of readers, and calls out of their order, on every scheme.
use scheme::{Answer, Bits, Call, Pair, Phase, Poll, Scheme, run};
use std::process::Abort;

// The type of an array in a constant names its length.
const CALLS: usize = 26;

const SCRIPT: [(Call, Answer); CALLS] = [
    (Call::Poll, Answer::Polled(Poll::NoWait)),
    (Call::Leave(0), Answer::Refused),
    (Call::Enter(0), Answer::Accepted),
    (Call::Enter(7), Answer::Accepted),
    (Call::Enter(8), Answer::Accepted),
    (Call::Enter(15), Answer::Accepted),
    (Call::Enter(15), Answer::Refused),
    (Call::Enter(16), Answer::Refused),
    (Call::Enter(23), Answer::Refused),
    (Call::Enter(4_294_967_295), Answer::Refused),
    (Call::Leave(16), Answer::Refused),
    (Call::Leave(4_294_967_295), Answer::Refused),
    (Call::Begin, Answer::Accepted),
    (Call::Begin, Answer::Refused),
    (Call::Leave(0), Answer::Accepted),
    (Call::Leave(7), Answer::Accepted),
    (Call::Leave(8), Answer::Accepted),
    (Call::Enter(8), Answer::Accepted),
    (Call::Poll, Answer::Polled(Poll::NotYet)),
    (Call::Leave(15), Answer::Accepted),
    (Call::Poll, Answer::Polled(Poll::Over)),
    // A second wait awaits the reader that the first did not.
    (Call::Begin, Answer::Accepted),
    (Call::Poll, Answer::Polled(Poll::NotYet)),
    (Call::Leave(8), Answer::Accepted),
    (Call::Poll, Answer::Polled(Poll::Over)),
    (Call::Poll, Answer::Polled(Poll::NoWait)),
];

fn check_scheme<S: Scheme + Drop>(rt: &impl Abort) {
    let calls = SCRIPT.map(|(call, _)| call);
    let (_scheme, answers) = run::<S, CALLS>(&calls);
    for ((call, expected), answer) in SCRIPT.iter().zip(&answers) {
        assert_eq!(rt; answer, expected, "{call}");
    }
}

#[test]
fn every_scheme_answers_alike(rt: HostRuntime) {
    check_scheme::<Bits>(&rt);
    check_scheme::<Phase>(&rt);
    check_scheme::<Pair<Bits, Phase>>(&rt);
    check_scheme::<Pair<Phase, Bits>>(&rt);
    check_scheme::<Pair<Pair<Bits, Phase>, Bits>>(&rt);
    check_scheme::<Pair<Phase, Pair<Phase, Bits>>>(&rt);
}
