//! Wrong rules for the status, the pairs, the lines and the last of them, each refused by a law. The functions do nothing: each
//! contract says that with this rule the law is false.

ghost use Rattle.audit_keys.specs.WrongRules.{BasesAreNotEnough, BasesDoNotRank, OthersCountToo, TrunksArePrinted, TrunksCount, MissingKeysCount, OneDirectionCounts, OwnTablesAreNotEnough, UnreadPortsDoNotPass, UnreadSwitchPortsDoNotPass};
ghost use Rattle.audit_keys.specs.WrongRules.{BothMayTalk, EmptyPlacesAreNoKeys, GapsDoNotEndTheTable, DifferencesArePrinted, LimitedMembersDoNotTalk, SwitchPortsCount, UnreadPortsArePrinted, UnreadTablesDoNotFollow};

/// Membership is ignored.
pub fn bases_are_not_enough()
    ensures { BasesAreNotEnough }
{}

/// Keys that are missing are ignored.
pub fn missing_keys_count()
    ensures { MissingKeysCount }
{}

/// A port that was not read passes.
pub fn unread_ports_do_not_pass()
    ensures { UnreadPortsDoNotPass }
{}

/// A switch port that was not read passes.
pub fn unread_switch_ports_do_not_pass()
    ensures { UnreadSwitchPortsDoNotPass }
{}

/// A switch port that drops packets in one direction alone is taken for one that drops none.
pub fn one_direction_counts()
    ensures { OneDirectionCounts }
{}

/// Switch ports are ignored.
pub fn own_tables_are_not_enough()
    ensures { OwnTablesAreNotEnough }
{}

/// Ports between switches are ignored.
pub fn trunks_count()
    ensures { TrunksCount }
{}

/// Two limited members may talk.
pub fn limited_members_do_not_talk()
    ensures { LimitedMembersDoNotTalk }
{}

/// Pairs that may talk by the tables and by the file are listed.
pub fn both_may_talk()
    ensures { BothMayTalk }
{}

/// The last line takes what was not read for what follows the file.
pub fn unread_tables_do_not_follow()
    ensures { UnreadTablesDoNotFollow }
{}

/// The last line leaves out switch ports that drop packets.
pub fn switch_ports_count()
    ensures { SwitchPortsCount }
{}

/// The first empty place ends a table.
pub fn gaps_do_not_end_the_table()
    ensures { GapsDoNotEndTheTable }
{}

/// Empty places are taken for keys.
pub fn empty_places_are_no_keys()
    ensures { EmptyPlacesAreNoKeys }
{}

/// Counts and the last line are printed alone.
pub fn differences_are_printed()
    ensures { DifferencesArePrinted }
{}

/// No line says that a port was not read.
pub fn unread_ports_are_printed()
    ensures { UnreadPortsArePrinted }
{}

/// What ports between switches lack is not printed.
pub fn trunks_are_printed()
    ensures { TrunksArePrinted }
{}

/// Partitions come by base, however many pairs may talk in them.
pub fn bases_do_not_rank()
    ensures { BasesDoNotRank }
{}

/// Of the partitions the one in which most pairs may talk comes alone.
pub fn others_count_too()
    ensures { OthersCountToo }
{}
