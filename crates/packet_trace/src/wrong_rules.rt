//! A wrong rule for traces, and the law that it breaks, so that a reader sees that it says something. The function does nothing:
//! its contract says that with this rule the law is false.

ghost use Rattle.packet_trace.specs.WrongRules.{EndsAreNotAll};

/// If of a packet to one port the last step alone is reported, the port where it comes in first is left out.
pub fn ends_are_not_all()
    ensures { EndsAreNotAll }
{}
