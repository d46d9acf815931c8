//! The laws of requests, over the definition of the whole answer. Each function does nothing: its contract is the law.

ghost use Rattle.sa_replies.specs.Entered.{JoinsLeaveTheRestAlone};
ghost use Rattle.sa_replies.specs.JoinStates.{JoinStatesAreBits};
ghost use Rattle.sa_replies.specs.Left.{LeavesLeaveTheRestAlone};
ghost use Rattle.sa_replies.specs.Named.{OnlyNamedFieldsCount};
ghost use Rattle.sa_replies.specs.Refused.{RequestsAreRefusedByReasons};

/// A join that is not refused adds the bits that it names to the requester's registration in the group of its MGID and
/// P_Key. Every other registration and group stays as it was. A group that was not there is made, with the least free MLID
/// of its partition, the requester as its maker and the parameters that the request asks for.
pub fn joins_leave_the_rest_alone()
    ensures { JoinsLeaveTheRestAlone }
{}

/// A leave that is not refused takes its bits from the requester's registrations that it names. Every other registration in
/// a group that stays is as it was, and so are that group's MLID, parameters and maker. A group stays if and only if the
/// partition file made it or a full member still anchors it.
pub fn leaves_leave_the_rest_alone()
    ensures { LeavesLeaveTheRestAlone }
{}

/// What the ComponentMask does not name is not looked at: two requests with the same headers, the same mask and the same
/// fields that it names are answered by the same MADs and leave the same. The reply to a Delete repeats its request's data, so
/// of it the status is compared.
pub fn only_named_fields_count()
    ensures { OnlyNamedFieldsCount }
{}

/// A request is answered by one MAD, with the status of the first of its reasons that holds, and with status 0 if and only if
/// none does. The reasons stand in order, for each method and attribute.
pub fn requests_are_refused_by_reasons()
    ensures { RequestsAreRefusedByReasons }
{}

/// Bits 0 to 2 of a JoinState are FullMember, NonMember and SendOnlyNonMember.
pub fn join_states_are_bits()
    ensures { JoinStatesAreBits }
{}
