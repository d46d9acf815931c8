//! What a trace and the loads of cables have in common. The functions do nothing; their clauses are the theorems.

ghost use Rattle.joint_laws.specs.TraceLaws.{LoadsFollowTraces, OwnLoadsFollowTraces};

/// A packet that is accepted leaves switches by the ports by which it loads cables, and by no others.
pub fn loads_follow_traces()
    ensures { LoadsFollowTraces }
{}

/// So it is of each fabric that is brought up, by the LFTs that its switches hold.
pub fn own_loads_follow_traces()
    ensures { OwnLoadsFollowTraces }
{}
