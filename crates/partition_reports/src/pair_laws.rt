//! What the pairs say. The functions do nothing: their contracts are the laws.

ghost use Rattle.partition_reports.specs.PairLaws.{PairsAreListed, TalkingIsMatching};

/// Ports of two memberships may talk exactly if they hold P_Keys of the partition that match.
pub fn talking_is_matching()
    ensures { TalkingIsMatching }
{}

/// Of each two ports, one behind the other, that may talk now and might not before the list has one pair, and no other.
pub fn pairs_are_listed()
    ensures { PairsAreListed }
{}
