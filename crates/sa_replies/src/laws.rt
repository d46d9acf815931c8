//! The laws of answers, over the definitions alone. Each function does nothing: its contract is the law.

ghost use Rattle.sa_replies.specs.Changed.{OthersChangeNoReceivers, RefusedChangeNoReceivers};
ghost use Rattle.sa_replies.specs.Laws.{AnswersAreSeenAlike, AnswersKeepSound, FarRequestsAreNotSeen, RefusedChangeNothing, RequestersAreAnsweredAlike, RequestsLeaveTheRest, ServicesDeletedAreGone, ServicesSetAreThere};
ghost use Rattle.sa_replies.specs.Sources.{AnswersReportFromNear, AnswersNoteTheirData, JoinRepliesComeFromNear, NotesEncodeTables, NotesStandBeside, ServiceRepliesComeFromNear};
ghost use Rattle.sa_replies.specs.OneReply.{OthersAreIgnored, RequestsAreAnsweredOnce};
ghost use Rattle.sa_replies.specs.NamedNotes.{NotesNameSources};
ghost use Rattle.sa_replies.specs.Numbers.{NumbersAreAsAsked};
ghost use Rattle.sa_replies.specs.Taken.{TheGreatestIsTaken};
ghost use Rattle.sa_replies.specs.State.{AnswersKeepStates, StartsAreStates};
ghost use Rattle.sa_replies.specs.TransferMads.{TransfersGoByFiveFields};

/// Whatever comes to subnet administration, what it remembers stays sound.
pub fn answers_keep_sound()
    ensures { AnswersKeepSound }
{}

/// What is remembered before the first command is a state of the configuration.
pub fn starts_are_states()
    ensures { StartsAreStates }
{}

/// Whatever a port sends, what is remembered stays a state of the configuration: its partitions with sound groups, a
/// place for services for each port and base, and one for a table for each port, which can be sent if it is open.
pub fn answers_keep_states()
    ensures { AnswersKeepStates }
{}

/// Whatever bytes come, but a MAD of a transfer: if each MAD that is answered has a status other than 0, or none is
/// answered, all that is remembered is as it was.
pub fn refused_change_nothing()
    ensures { RefusedChangeNothing }
{}

/// In each state of a run each request is answered by one MAD: with the versions and the class that are ours, the method of
/// its response, the TransactionID, AttributeID, AttributeModifier and ComponentMask of the request, ClassSpecific and
/// SM_Key 0, and, if its status is not 0, AttributeOffset 0 and no data.
pub fn requests_are_answered_once()
    ensures { RequestsAreAnsweredOnce }
{}

/// A response, a MAD of another class and what is no MAD are not answered, and leave all as it was.
pub fn others_are_ignored()
    ensures { OthersAreIgnored }
{}

/// A Get leaves all that is remembered, a GetTable groups and services, a Set and a Delete transfers in progress, and a MAD of
/// a transfer groups and services.
pub fn requests_leave_the_rest()
    ensures { RequestsLeaveTheRest }
{}

/// A MAD of a transfer does nothing unless its RMPP version is 1, it is an ACK, a STOP or an ABORT, and all 64 bits of its
/// TransactionID are those of the transfer in progress to the port that sends it. Two that agree in version, type,
/// TransactionID, SegmentNumber and NewWindowLast do the same.
pub fn transfers_go_by_five_fields()
    ensures { TransfersGoByFiveFields }
{}

/// A new group has the greatest MTU, rate and PacketLifeTime that we have and that satisfy what is asked.
pub fn the_greatest_is_taken()
    ensures { TheGreatestIsTaken }
{}

/// Each number in the data of a service that is set is as it is asked, and 0 if it is not asked.
pub fn numbers_are_as_asked()
    ensures { NumbersAreAsAsked }
{}

/// Only a join or a leave changes who receives what is sent to the groups of a partition.
pub fn others_change_no_receivers()
    ensures { OthersChangeNoReceivers }
{}

/// One that is refused changes it nowhere.
pub fn refused_change_no_receivers()
    ensures { RefusedChangeNoReceivers }
{}

/// After a Set of a service that is not refused the service is there, once, if the port has one place in this
/// base; all other services and all groups are as before.
pub fn services_set_are_there()
    ensures { ServicesSetAreThere }
{}

/// After a Delete of a service that is not refused there is none of its ID; all other services and all groups are as
/// before.
pub fn services_deleted_are_gone()
    ensures { ServicesDeletedAreGone }
{}

/// Whatever a port sends to subnet administration, a port that is far from it sees the same after it as
/// before.
pub fn far_requests_are_not_seen()
    ensures { FarRequestsAreNotSeen }
{}

/// If a port sees the same in two states, what it sends is answered by the same MADs, and it sees the
/// same after: of services those that it may be shown, and so all those of the ports near it.
pub fn requesters_are_answered_alike()
    ensures { RequestersAreAnsweredAlike }
{}

/// Whatever a port sends, who sees the same in two states sees the same after: of services those that it may be shown,
/// and so all those of the ports near it.
pub fn answers_are_seen_alike()
    ensures { AnswersAreSeenAlike }
{}

/// What is noted beside an answer changes nothing of it.
pub fn notes_stand_beside()
    ensures { NotesStandBeside }
{}

/// If the records that are noted for each port encode the table that is open to it, so it is after whatever a port
/// sends.
pub fn notes_encode_tables()
    ensures { NotesEncodeTables }
{}

/// The bytes that are noted of a MAD which answers a port are its data, whose rest is 0, if the table that is open to
/// the port can be sent, and the length of the records that are noted for it then can be reported.
pub fn data_is_noted()
    ensures { AnswersNoteTheirData }
{}

/// The records that are noted of a table come from the sources that they themselves name, when it is opened, and fit their
/// fields if all that is visible to the port does; its segments have their parts of these, byte for byte with the
/// source; and so it is with the record that answers a Get. The reply to a join comes from who made the group, and the
/// replies to the Set of a service and to a Delete from the port that asks.
pub fn notes_name_sources()
    ensures { NotesNameSources }
{}

/// Each byte of a record by which a port is answered, whole or in a segment, comes from a port near it or from the
/// partition file; so do the records that are noted for its table.
pub fn answers_report_from_near()
    ensures { AnswersReportFromNear }
{}

/// After a join that is answered by a record its group is there, and the port takes part in it with each bit that it
/// asked for. The record is the port's record of that group, which comes from a port near the one that joins, or from
/// the partition file.
pub fn join_replies_come_from_near()
    ensures { JoinRepliesComeFromNear }
{}

/// The record by which the Set of a service is answered is that of a service of a port near the one that sets it.
pub fn service_replies_come_from_near()
    ensures { ServiceRepliesComeFromNear }
{}
