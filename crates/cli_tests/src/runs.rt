//! A whole run, in which an allocation may fail.

use crate::calls::reported_of;
use crate::fixtures::{REPORT, SENDS};
use std::test::Fail;
use test_fabrics::TWO_SWITCHES;

/// With enough memory the report; if an allocation fails, status 3 and the beginning of a line that says so.
/// tests/refused-memory lets each allocation of this test fail in turn.
#[test]
fn a_run_is_reported_or_its_want_of_memory_is_reported(rt: HostRuntime) -> Result<(), Fail> {
    let Ok(reported) = reported_of(rt.alloc(), TWO_SWITCHES, SENDS) else {
        return Ok(());
    };
    if reported.status == 0 {
        assert_eq!(rt; reported.out.as_slice(), REPORT.as_bytes());
        assert_eq!(rt; reported.err.len(), 0);
        return Ok(());
    }
    assert_eq!(rt; reported.status, 3);
    assert!(rt; REPORT.as_bytes().starts_with(reported.out.as_slice()));
    let memory = b"fault memory\n".starts_with(reported.err.as_slice());
    let write = b"fault write\n".starts_with(reported.err.as_slice());
    assert!(rt; memory || write, "{:?}", reported.err.as_slice());
    Ok(())
}
