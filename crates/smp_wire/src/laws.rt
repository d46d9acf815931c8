//! The laws of exchanges, whatever wire makes them. Each function's contract is its law; it does nothing.

ghost use Rattle.smp_wire.specs.Laws.{ExchangesChangeWhatTheyName, ExchangesKeepGood, ExchangesKeepJoined, ExchangesKeepLinks, ExchangesKeepShape, GetsReport};
ghost use Rattle.smp_wire.specs.Laws.{CabledPortsAreUp, PathsBegin, PathsGoOn, PortsAreGood, RepliesAnswer, SetsReport, WalksGoOn};

/// Whatever SMP is sent, a good fabric stays good; one in which a port is Down if and only if it has no
/// cable stays such a one; one whose switches are joined stays such a one; and its shape stays: which nodes
/// stand where, with which GUIDs, ports and cables, and so every walk.
pub fn exchanges_keep_the_fabric()
    ensures good { ExchangesKeepGood }
    ensures links { ExchangesKeepLinks }
    ensures joined { ExchangesKeepJoined }
    ensures shape { ExchangesKeepShape }
{}

/// Whatever SMP is sent, it changes at most one node of a good fabric, that at the end of its walk, and of
/// that at most what it names; and if no reply comes, or a refusal, or it sets nothing, all stays as it was.
pub fn exchanges_change_what_they_name()
    ensures { ExchangesChangeWhatTheyName }
{}

/// What comes back over a good fabric is the request with the method of a reply, its status, and the
/// attribute if it is given; its path, TransactionID and all else stay.
pub fn replies_answer()
    ensures { RepliesAnswer }
{}

/// What a port of a good fabric has can be said in PortInfo, and the port takes it back; if links show, a
/// port with a cable is Initialize, Armed or Active.
pub fn ports_are_good()
    ensures good { PortsAreGood }
    ensures up { CabledPortsAreUp }
{}

/// A Get along a path leaves a good fabric as it was. It reports the 64 bytes that the agent at the end of
/// the path gives, no reply if there is no walk or no agent, and a refusal if that refuses.
pub fn gets_report()
    ensures { GetsReport }
{}

/// A Set along a path changes a good fabric by what the agent at the end of the path takes, and by nothing
/// else. It reports what a Get reports then, which is never a refusal; if there is no walk, no agent or a
/// refusal, nothing changes.
pub fn sets_report()
    ensures { SetsReport }
{}

/// A walk along a path with one more port is the walk along the path and one hop more. A path that begins
/// with the subnet manager's own port goes over the cable of that port first, whatever other cables its
/// channel adapter has.
pub fn paths_go_on()
    ensures walks { WalksGoOn }
    ensures ends { PathsGoOn }
    ensures begins { PathsBegin }
{}
