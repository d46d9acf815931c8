//! A sight of states that shows too little, and rules that note too little of a run, so that a reader sees that the laws
//! say something. Each function does nothing: its contract is the law.

ghost use Rattle.sa_replies.specs.RunWrongRules.{AnswersAreNoted, NoBytesAreLess, NodesAreNoFiles, SendsAreNoted, TablesAreInCommon, WhatIsShownIsLess};
ghost use Rattle.sa_replies.specs.RunWrongRules.{MakersAreInCommon, MgidsAreInCommon, MlidsAreInCommon, ParametersAreInCommon, RegistrationsAreInCommon};

/// If a port is said to see those services alone that it is shown, it sees the same of two states that have not the
/// same services of the ports near it.
pub fn what_is_shown_is_less()
    ensures { WhatIsShownIsLess }
{}

/// If no bytes are noted of the MADs that answer, what is noted is not the data of a table.
pub fn no_bytes_are_less()
    ensures { NoBytesAreLess }
{}

/// If nothing is noted of any event, a MAD that answers passes for a packet between two ports.
pub fn answers_are_noted()
    ensures { AnswersAreNoted }
{}

/// If nothing is noted of a `send` to subnet administration, its answer passes for a packet between two ports.
pub fn sends_are_noted()
    ensures { SendsAreNoted }
{}

/// If nodes are noted as the partition file's, the notes do not name the ports that the records name.
pub fn nodes_are_no_files()
    ensures { NodesAreNoFiles }
{}

/// If the MLID of a group is not seen, a port sees the same of two states whose groups have different ones.
pub fn mlids_are_in_common()
    ensures { MlidsAreInCommon }
{}

/// If it is not seen who made a group, a port sees the same of two states in which different ports did.
pub fn makers_are_in_common()
    ensures { MakersAreInCommon }
{}

/// If the registrations in a group are not seen, a port sees the same of two states in one of which it is registered.
pub fn registrations_are_in_common()
    ensures { RegistrationsAreInCommon }
{}

/// If the MGID of a group is not seen, a port sees the same of two states whose groups have different ones.
pub fn mgids_are_in_common()
    ensures { MgidsAreInCommon }
{}

/// If the parameters of a group are not seen, a port sees the same of two states whose groups have different ones.
pub fn parameters_are_in_common()
    ensures { ParametersAreInCommon }
{}

/// If the table that is open to a port is not seen, it sees the same of two states in one of which none is.
pub fn tables_are_in_common()
    ensures { TablesAreInCommon }
{}
