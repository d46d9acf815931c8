//! What holds after every push. The functions do nothing; their clauses are the theorems.

ghost use Rattle.table_push.specs.BroughtUpLaws.{AllMasksAreThere, BroughtUpForwardsByLid, BroughtUpForwardsByMlid, BroughtUpHasNoIdleBits, MasksKeepWhatIsUp, PushesBringUp, PushesKeepTheEndPorts};
ghost use Rattle.table_push.specs.Enforcement.{OnlySuchPortsCount};
ghost use Rattle.table_push.specs.Fault.{taken_of};
ghost use Rattle.table_push.specs.Forget.{PushesForget, PushesReplace};
ghost use Rattle.table_push.specs.SetUp.{EachPortIsServed, EachSwitchIsSetUp};
ghost use Rattle.table_push.specs.Laws.{EverySwitchHasItsTable, MasksAreRead, PushesKeepTheGraph, MlidRangesAreTheirOwn, MlidRangesMakeAll, MlidRangesMakeTheWhole};

/// After a push over the fabric of its graph every switch has the table of its own routes, and none is left out.
pub fn every_switch_has_its_table()
    ensures { EverySwitchHasItsTable }
{}

/// The graph of a fabric is its graph after a push, so that a further push finds its way.
pub fn pushes_keep_the_graph()
    ensures { PushesKeepTheGraph }
{}

/// Once ports, P_Key tables and LFTs are pushed in turn, each port of a channel adapter has its LID and the keys
/// that are given for it, the port that it is attached to lets in and out what these keys allow, and each switch forwards each
/// LID along the chosen way.
pub fn brought_up_is_as_routed()
    ensures ports { EachPortIsServed }
    ensures switches { EachSwitchIsSetUp }
{}

/// A fabric that is brought up, with keys for each LID, forwards by LID: entries lead to the port of their LID and to no
/// other, from each switch that carries a channel adapter, and no switch holds back what that port accepts.
pub fn brought_up_forwards_by_lid()
    ensures { BroughtUpForwardsByLid }
{}

/// A fabric that is brought up, and whose switches have the masks of the receivers of each multicast LID, forwards by
/// multicast LID along the spanning tree: from each port of a channel adapter the bits of the masks lead to each other
/// receiver, to no other port of a channel adapter, and never back to the port that sends.
pub fn brought_up_forwards_by_mlid()
    ensures { BroughtUpForwardsByMlid }
{}

/// And no bit of these masks is set in vain: over the cable of its port, and from there by the bits of that multicast LID, a
/// receiver is reached. So a switch sends what is for a group to another only if a member lies beyond it.
pub fn brought_up_has_no_idle_bits()
    ensures { BroughtUpHasNoIdleBits }
{}

/// A fabric that is brought up still is once its switches have all masks of some receivers, and then the masks of every
/// switch of the graph are these.
pub fn masks_keep_what_is_up()
    ensures up { MasksKeepWhatIsUp }
    ensures masks { AllMasksAreThere }
{}

/// Over the good fabric of the routes' graph, the three pushes, one after another, bring it up: each switch has its own
/// LFT, each port of a channel adapter its LID and the keys that are given to that, and each port of a switch
/// before one the full form of these keys. And they keep the end ports that the agents show.
pub fn pushes_bring_up()
    ensures up { PushesBringUp }
    ensures ends { PushesKeepTheEndPorts }
{}

/// Two fabrics that differ only in what pushes write become one by the same pushes. So a push after another, over the same
/// graph, by the same LIDs and with keys for as many of them, leaves nothing of what that wrote.
pub fn pushes_forget()
    ensures forget { PushesForget }
    ensures replace { PushesReplace }
{}

/// An MFT entry of a switch has the bit of a port if and only if a receiver of that multicast LID is reached by that port.
pub fn masks_are_read()
    ensures { MasksAreRead }
{}

/// The MLID range of a partition is that of the receivers of its own multicast LIDs. So if masks are those of some
/// receivers, and receivers change for one partition alone, a push of that MLID range makes the whole table that of the new
/// ones: the fabric is the one to which all masks of the new ones were pushed.
pub fn mlid_ranges_are_of_the_whole()
    ensures own { MlidRangesAreTheirOwn }
    ensures whole { MlidRangesMakeTheWhole }
    ensures all { MlidRangesMakeAll }
{}

/// A port is counted as one that does not enforce partitions only if both enforcement bits were set and it reports both as 0. All
/// else but PortState it reports as it was set.
pub fn only_such_ports_count()
    ensures { OnlySuchPortsCount taken_of }
{}
