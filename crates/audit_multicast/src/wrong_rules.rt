//! Wrong rules for what is reported of multicast, and the law that each breaks, so that a reader sees that the laws say something.
//! Each function does nothing: its contract says that with this rule the law is false.

ghost use Rattle.audit_multicast.specs.WrongRules.{OtherMftsHaveALine, PortsOfMasksHaveALine};
ghost use Rattle.audit_multicast.specs.WrongRules.{CutsAreFollowed, CutsDecide, EachMemberSends, MembersAreInMasks};
ghost use Rattle.audit_multicast.specs.WrongRules.{CopiesAreFollowed, MulticastIsAReason, PacketsDoNotGoBack, PacketsEnterAtEndPorts, TwoPortsLoop};

/// If a packet may go back by the port by which it came in, a cable between two switches is reported as a loop, and is none.
pub fn packets_do_not_go_back()
    ensures { PacketsDoNotGoBack }
{}

/// If a loop has three ports or more, one over two cables between two switches is missed.
pub fn two_ports_loop()
    ensures { TwoPortsLoop }
{}

/// If packets enter at each switch, a copy is reported of a packet that no end port sends.
pub fn packets_enter_at_end_ports()
    ensures { PacketsEnterAtEndPorts }
{}

/// If copies are followed for one hop, one that comes by another switch is missed.
pub fn copies_are_followed()
    ensures { CopiesAreFollowed }
{}

/// If each end port counts as a member, a cut is reported of one to which no mask leads.
pub fn members_are_in_masks()
    ensures { MembersAreInMasks }
{}

/// If packets come no further than to the next switch, a cut is reported of members that receive what the other sends.
pub fn cuts_are_followed()
    ensures { CutsAreFollowed }
{}

/// If it is enough that all receive what the first member sends, the cut of another sender is missed.
pub fn each_member_sends()
    ensures { EachMemberSends }
{}

/// If only loops and copies are asked for, a group that is cut is safe.
pub fn cuts_decide()
    ensures { CutsDecide }
{}

/// If the reasons are those of the routes alone, a loop of multicast has none.
pub fn multicast_is_a_reason()
    ensures { MulticastIsAReason }
{}

/// If what is found of MLIDs is printed alone, the MFT of a switch that the fabric lacks has no line.
pub fn other_mfts_have_a_line()
    ensures { OtherMftsHaveALine }
{}

/// If what the files lack is printed alone, a port of a mask that has no cable has no line.
pub fn ports_of_masks_have_a_line()
    ensures { PortsOfMasksHaveALine }
{}
