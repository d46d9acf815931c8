//! Wrong rules for answers, and the law that each breaks, so that a reader sees that the laws say something. Each
//! function does nothing: its contract is the law.

ghost use Rattle.sa_replies.specs.WrongRules.{AllNodesReport, AskersAreNotedAlone, DeletesAreNotOfFile, JoinsAreOfTheMaker, KeysAreNotSentBack, LostPlacesAreMissed, NothingNotedIsLess, OneTableReports, OthersAreAnswered, RefusalsKeepNoData, SetsAreNotOfFile, TheFileIsNoSource, TwiceIsNotOnce};
ghost use Rattle.sa_replies.specs.WrongTransfers.{ActiveRequestsAreIgnored, EndsNameTheirTransfer, HighBitsAreLookedAt, MethodsAreNotLookedAt};

/// With one transfer in progress for all ports, a port learns that a port far from it asked for a table.
pub fn one_table_reports()
    ensures { OneTableReports }
{}

/// With a table of all nodes for whoever asks for one, a port is shown nodes that are far from it.
pub fn all_nodes_report()
    ensures { AllNodesReport }
{}

/// If nothing is noted, the bytes that are noted are not those of the data that a port is sent.
pub fn nothing_noted_is_less()
    ensures { NothingNotedIsLess }
{}

/// If all bytes are noted as those of the partition file, a table does not name the ports that its nodes come from.
pub fn the_file_is_no_source()
    ensures { TheFileIsNoSource }
{}

/// A rule that notes for every port what is noted for the one that asks is refused: what is noted for the others stays.
pub fn askers_are_noted_alone()
    ensures { AskersAreNotedAlone }
{}

/// If the reply to a Set is noted as the partition file's, a service that is set does not come from its port.
pub fn sets_are_not_of_file()
    ensures { SetsAreNotOfFile }
{}

/// If the reply to a Delete is noted as the partition file's, it does not come from the port that asks.
pub fn deletes_are_not_of_file()
    ensures { DeletesAreNotOfFile }
{}

/// If the reply to a Set is noted as that of the port that asks, a group that it joins does not come from who made it.
pub fn joins_are_of_the_maker()
    ensures { JoinsAreOfTheMaker }
{}

/// An answer after which no port has a place for a table leaves no state of the configuration.
pub fn lost_places_are_missed()
    ensures { LostPlacesAreMissed }
{}

/// Two MADs to each request are not one.
pub fn twice_is_not_once()
    ensures { TwiceIsNotOnce }
{}

/// A refusal that keeps the data of the request is no answer to it.
pub fn refusals_keep_no_data()
    ensures { RefusalsKeepNoData }
{}

/// An answer with the SM_Key of the request is none to it.
pub fn keys_are_not_sent_back()
    ensures { KeysAreNotSentBack }
{}

/// An answer to what asks for nothing is refused.
pub fn others_are_answered()
    ensures { OthersAreAnswered }
{}

/// An ACK of another transaction that agrees in the low 32 bits alone is refused.
pub fn high_bits_are_looked_at()
    ensures { HighBitsAreLookedAt }
{}

/// A STOP of another transaction that ends the transfer is refused.
pub fn ends_name_their_transfer()
    ensures { EndsNameTheirTransfer }
{}

/// An answer to a GetTable with the flag Active is refused.
pub fn active_requests_are_ignored()
    ensures { ActiveRequestsAreIgnored }
{}

/// A STOP that counts under the method GetTable alone is refused.
pub fn methods_are_not_looked_at()
    ensures { MethodsAreNotLookedAt }
{}
