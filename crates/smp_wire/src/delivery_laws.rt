//! The laws of ways and deliveries. Each function's contract is its law; it does nothing.

ghost use Rattle.smp_wire.specs.DeliveryExamples.{receives, two_switches};
ghost use Rattle.smp_wire.specs.Forwards.{ForwardsByLid};
ghost use Rattle.smp_wire.specs.Groups.{ForwardsByMlid};
ghost use Rattle.smp_wire.specs.DeliveryLaws.{DeliveriesAreOneList, UnicastGoesOneWay, UnicastReachesOnePort};
ghost use Rattle.smp_wire.specs.DeliveryLaws.{OtherLidsReachNobody, PacketsGoByLid, PacketsGoByMlid};
ghost use Rattle.smp_wire.specs.DeliveryWrongRules.{BitsTowardsNobodyAreIdle};

/// A unicast packet goes on from a port to one port at most, and so reaches at most one port of a channel adapter.
pub fn unicast_goes_one_way()
    ensures way { UnicastGoesOneWay }
    ensures port { UnicastReachesOnePort }
{}

/// Whatever tables hold, who gets a packet is one list: so what `AreDeliveries` asks for leaves one answer.
pub fn deliveries_are_one_list()
    ensures { DeliveriesAreOneList }
{}

/// If the tables of a fabric forward by LID (`ForwardsByLid`), a packet that a port stamps for a LID is delivered
/// at the port of a channel adapter that has this LID, if that accepts the packet's key, and nowhere else: so to
/// nobody, if the LID is a switch's or nobody's, or over the LIDs that tables count.
pub fn packets_go_by_lid()
    ensures assigned { PacketsGoByLid }
    ensures others { OtherLidsReachNobody }
{}

/// If the masks of a fabric forward by multicast LID (`ForwardsByMlid`), a packet that a port stamps for such a LID is
/// delivered at each other port of a channel adapter that receives what is sent there, if that accepts the packet's key,
/// and nowhere else: so never at the port that sent it.
pub fn packets_go_by_mlid()
    ensures { PacketsGoByMlid }
{}

/// The two-switch fabric of our examples forwards by LID: so this is not said of nothing.
pub fn the_two_switch_fabric_forwards_by_lid()
    ensures { ForwardsByLid two_switches }
{}

/// It forwards by multicast LID too, to a group of three ports, of which one is on the second switch.
pub fn the_two_switch_fabric_forwards_by_mlid()
    ensures { ForwardsByMlid two_switches receives }
{}

/// A switch that sends what is for a group to a switch beyond which nobody receives has an idle bit (`HasNoIdleBits`), though
/// packets reach the same ports.
pub fn bits_towards_nobody_are_idle()
    ensures { BitsTowardsNobodyAreIdle }
{}
