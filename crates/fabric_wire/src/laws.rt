//! The laws of the fabrics of topologies, and of exchanges hop by hop. Each function's contract is its law;
//! it does nothing.

ghost use Rattle.topo_file.specs.Sound.{IsSound};
ghost use Rattle.smp_wire.specs.Good.{IsGood, ShowsLinks, SwitchesJoined};
ghost use Rattle.fabric_wire.specs.Laws.{CablesKeepGood, CablesKeepLinks, ExchangesGoByHops, TopologiesAreJoined, TopologiesGiveGood, TopologiesShowLinks};
ghost use Rattle.fabric_wire.specs.OfTopology.{fabric_of};
ghost use Rattle.fabric_wire.specs.TwoSwitches.{two_switches};

/// The two-switch topology of our examples is sound, and its fabric is good, its links show, and its
/// switches are joined: so what is proved under these premises is not proved of nothing.
pub fn the_two_switch_fabric_is_good()
    ensures sound { IsSound two_switches }
    ensures good { IsGood (fabric_of two_switches) }
    ensures links { ShowsLinks (fabric_of two_switches) }
    ensures joined { SwitchesJoined (fabric_of two_switches) }
{}

/// The walk that answers an SMP is the way that the hop rules take it. In a good fabric the replies that
/// come are those that the rules bring, and no others: each node on the way out hands the SMP on over a
/// cable until one gives it to its agent, and each on the way back hands on its answer until it is at the
/// subnet manager's node. The agent that is reached alone may have changed.
pub fn exchanges_go_by_hops()
    ensures { ExchangesGoByHops }
{}

/// At power-up the fabric of a topology is good, a port is Down if and only if it has no cable, and
/// switches are joined.
pub fn topologies_give_good_fabrics()
    ensures good { TopologiesGiveGood }
    ensures links { TopologiesShowLinks }
    ensures joined { TopologiesAreJoined }
{}

/// Whatever cable is cut or mended, a good fabric stays good, and a port is Down if and only if it has no cable.
pub fn cables_keep_fabrics()
    ensures good { CablesKeepGood }
    ensures links { CablesKeepLinks }
{}
