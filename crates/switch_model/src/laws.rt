//! The laws of switches. Each function's contract is its law; it does nothing.

ghost use Rattle.std.specs.Prelude.{◌≡◌};
ghost use Rattle.switch_model.specs.declared.multicast_table.TheConstants.{POSITIONS};
ghost use Rattle.switch_model.specs.Laws.{FatesReportWaysOut, GoodSwitchesGiveAttributes, LinksKeepGood, LinksShow, MulticastGoesByMasks, NewSwitchesAreGood, PortsHaveTheirLinks, SmpsAreReadAlike, SmpsChangeWhatTheyName, SmpsKeepGood, SmpsSettle, UnicastGoesByEntries, UnseenComesBack};

/// An SMP changes at most what it names, and each port is Down afterwards if and only if it was Down. Like
/// the laws below it does nothing: its contract is the law.
pub fn smps_change_what_they_name()
    ensures { SmpsChangeWhatTheyName }
{}

/// A switch at power-up is good, and whatever SMP comes, a good switch stays good: it holds what
/// attributes can say, its tables keep their lengths, and its ports take back what they have.
pub fn switches_stay_good()
    ensures new { NewSwitchesAreGood }
    ensures kept { SmpsKeepGood }
{}

/// A port shows the link that it has from then on, and a good switch stays good, whatever cables go and come.
pub fn links_show()
    ensures shown { LinksShow }
    ensures kept { LinksKeepGood }
{}

/// What a good switch gives fills an attribute.
pub fn good_switches_give_attributes()
    ensures { GoodSwitchesGiveAttributes }
{}

/// What asks no agent, a Get, and what is refused change nothing; what a Set is answered with is what
/// a Get right after it, by the same port, is answered with.
pub fn smps_settle()
    ensures { SmpsSettle }
{}

/// Each port of a new switch has what its link gives it.
pub fn ports_have_their_links()
    ensures { PortsHaveTheirLinks }
{}

/// Of an SMP nothing counts but what it asks: its class, versions, method, attribute, modifier and data.
pub fn smps_are_read_alike()
    ensures { SmpsAreReadAlike }
{}

/// What an agent does not see of an SMP, as the path, comes back in its reply.
pub fn unseen_comes_back()
    ensures { UnseenComesBack }
{}

/// A unicast packet leaves by the entry of its LID, and nothing else counts but LinearFDBTop and the enforcement
/// of the two ports.
pub fn unicast_goes_by_entries()
    ensures { UnicastGoesByEntries }
{}

/// A packet to a multicast LID leaves by each port whose bit the masks of that LID have, except the port where it came in, and
/// nothing else counts but the enforcement of the two ports.
pub fn multicast_goes_by_masks()
    ensures { MulticastGoesByMasks }
{}

/// A unicast packet leaves by a port if and only if its fate says so, by that port.
pub fn fates_report_ways_out()
    ensures { FatesReportWaysOut }
{}

/// How many positions the MFT of a switch has, written out. The number is ours: three positions of 16 ports have
/// room for 36 ports and port 0.
pub fn the_numbers()
    ensures positions { POSITIONS ≡ 3 }
{}
