//! What the faults of a push say: no clause speaks of these texts.

use std::test::Fail;
use table_push::PushFault;

const TEXTS: [(PushFault, &str); 3] = [
    (PushFault::NoReply, "no reply came back"),
    (PushFault::Refused, "an agent refuses"),
    (
        PushFault::NotAsSet,
        "a reply is not what was set, or of another request",
    ),
];

#[test]
fn faults_of_a_push_say_what_stopped_it(rt: HostRuntime) -> Result<(), Fail> {
    for (fault, text) in TEXTS.iter() {
        let reported = format!(in rt.alloc(); "{}", *fault)?;
        assert!(rt; reported.as_str() == *text);
    }
    Ok(())
}
