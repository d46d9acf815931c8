//! What the faults of a sweep say in words: no clause speaks of these texts.

use std::test::Fail;
use sweep::SweepFault;

const TEXTS: [(SweepFault, &str); 5] = [
    (SweepFault::NoMemory, "out of memory"),
    (SweepFault::NoReply, "no reply came back"),
    (
        SweepFault::WrongReply,
        "a reply is refused, of another request, or contradicts an earlier one",
    ),
    (SweepFault::TooManyHops, "a cable is more than 63 hops away"),
    (
        SweepFault::TooManyNodes,
        "there are more than 64 switches, or more than 256 adapter ports",
    ),
];

#[test]
fn faults_of_a_sweep_say_what_stopped_it(rt: HostRuntime) -> Result<(), Fail> {
    for (fault, text) in TEXTS.iter() {
        let reported = format!(in rt.alloc(); "{}", *fault)?;
        assert!(rt; reported.as_str() == *text);
    }
    Ok(())
}
