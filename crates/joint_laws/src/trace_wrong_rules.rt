//! A wrong rule for the ports by which packets load cables. The function does nothing: its contract says that with this rule the law
//! is false.

ghost use Rattle.joint_laws.specs.TraceWrongRules.{LastCablesLoadToo};

/// If packets loaded cables between switches alone, the last step of a trace to an adapter would load nothing.
pub fn last_cables_load_too()
    ensures { LastCablesLoadToo }
{}
