//! Laws of all fabrics and masks. The functions do nothing; their clauses are the theorems.

ghost use Rattle.audit_multicast.specs.Laws.{AllReasonsAreNamed, CopiesComeTwice, CutMembersAreApart, MaskLoopsGoRound, MulticastIsPrinted, NoCopyIsMissed, NoCutIsMissed, NoMaskLoopIsMissed, SafeMulticastIsReported};

/// A loop that is printed is one: packets to the MLID leave by each of its ports and then by the next, and after the last one by
/// the first.
pub fn mask_loops_go_round()
    ensures { MaskLoopsGoRound }
{}

/// If none is printed there is none, however long.
pub fn no_mask_loop_is_missed()
    ensures { NoMaskLoopIsMissed }
{}

/// If a second copy is printed, a packet from an end port at the one switch comes to the other by two different paths.
pub fn copies_come_twice()
    ensures { CopiesComeTwice }
{}

/// If none is printed, a packet from an end port comes to no switch by two paths, however long.
pub fn no_copy_is_missed()
    ensures { NoCopyIsMissed }
{}

/// If a cut is printed, both are end ports to which masks lead, and what the one sends does not come to the other.
pub fn cut_members_are_apart()
    ensures { CutMembersAreApart }
{}

/// If none is printed, what each end port sends to which masks lead comes to each other one, however long the path.
pub fn no_cut_is_missed()
    ensures { NoCutIsMissed }
{}

/// The verdict is safe if and only if the routes are, each switch has an MFT and each MFT a switch, no packet to an MLID loops or comes to
/// a switch by two paths, and what each end port sends to which masks lead comes to each other one.
pub fn safe_multicast_is_reported()
    ensures { SafeMulticastIsReported }
{}

/// A verdict that is not safe names a reason, and it names each reason if and only if that holds.
pub fn all_reasons_are_named()
    ensures { AllReasonsAreNamed }
{}

/// The text has each of its lines: what the files lack, each port of a mask that has no cable or that the switch does not have, and
/// what is found of each MLID. It begins with what an audit without MFTs prints before its verdict.
pub fn multicast_is_printed()
    ensures { MulticastIsPrinted }
{}
