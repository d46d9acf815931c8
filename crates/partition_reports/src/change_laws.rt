//! What changes say, over the definitions alone. The functions do nothing: their contracts are the laws.

ghost use Rattle.partition_reports.specs.ChangeLaws.{GroupsAreReported, LinesAreSigned, MembersAreReported, NearStaysWhereNoMemberIsReported, NearStaysWhereNoShareIsReported, NothingIsReportedOfTheSame, PartitionsAreReported, SameIsWhatIsCompared, SharesAreReported};

/// A partition with its number and name goes once if it was there before and is not after, and else not at all; it comes
/// the other way round.
pub fn partitions_are_reported()
    ensures { PartitionsAreReported }
{}

/// So does a group.
pub fn groups_are_reported()
    ensures { GroupsAreReported }
{}

/// So does the key of a port in one of the partitions, if the ports are the same before and after.
pub fn members_are_reported()
    ensures { MembersAreReported }
{}

/// So does a share of two ports under a base, if the ports are the same before and after.
pub fn shares_are_reported()
    ensures { SharesAreReported }
{}

/// The text of changes is empty if and only if both files say the same of each partition, group, member and share, and the
/// ports are the same before and after.
pub fn nothing_is_reported_of_the_same()
    ensures { NothingIsReportedOfTheSame }
{}

/// If no share is printed, each port has those near it that it had before, and no others.
pub fn near_stays_where_no_share_is_reported()
    ensures { NearStaysWhereNoShareIsReported }
{}

/// If no member is printed, each port has those near it that it had before, and no others, in a subnet of any size. Of each subnet the
/// ports have at most one key of each of its partitions, and no other, as in every one that is brought up.
pub fn near_stays_where_no_member_is_reported()
    ensures { NearStaysWhereNoMemberIsReported }
{}

/// Two partitions, groups, members or shares count as the same if and only if these are equal: number, base and name; base
/// and all of the group; the port's GUID and the key; both ports' GUIDs and the base.
pub fn same_is_what_is_compared()
    ensures { SameIsWhatIsCompared }
{}

/// The line of what comes begins with `+`, and the line of what goes with `-`.
pub fn lines_are_signed()
    ensures { LinesAreSigned }
{}
