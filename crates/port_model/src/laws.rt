//! The laws of ports of channel adapters. Each function's contract is its law; it does nothing.

ghost use Rattle.port_model.specs.Laws.{GoodPortsGiveAttributes, NewPortsAreGood, PortsAnswerForThemselves, SmpsAreReadAlike, SmpsChangeWhatTheyName, SmpsKeepGood, SmpsSettle, UnseenComesBack};

/// An SMP changes at most what it names, and a port is Down afterwards if and only if it was Down. Like
/// the laws below it does nothing: its contract is the law.
pub fn smps_change_what_they_name()
    ensures { SmpsChangeWhatTheyName }
{}

/// A port at power-up is good, and whatever SMP comes, a good port stays good: it holds what attributes
/// can say, and takes back what it has.
pub fn ports_stay_good()
    ensures new { NewPortsAreGood }
    ensures kept { SmpsKeepGood }
{}

/// What a good port gives fills an attribute.
pub fn good_ports_give_attributes()
    ensures { GoodPortsGiveAttributes }
{}

/// What asks no agent, a Get, and what is refused change nothing; what a Set is answered with is what
/// a Get right after it is answered with.
pub fn smps_settle()
    ensures { SmpsSettle }
{}

/// Of an SMP nothing counts but what it asks: its class, versions, method, attribute, modifier and data.
pub fn smps_are_read_alike()
    ensures { SmpsAreReadAlike }
{}

/// What an agent does not see of an SMP, as the path, comes back in its reply.
pub fn unseen_comes_back()
    ensures { UnseenComesBack }
{}

/// A port answers for itself alone: PortInfo is its own, asked for as port 0 or by its number, and asked for by another number
/// it is neither given nor set.
pub fn ports_answer_for_themselves()
    ensures { PortsAnswerForThemselves }
{}
