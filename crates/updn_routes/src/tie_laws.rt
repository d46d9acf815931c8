//! What rules of ties do. Each function's contract is its law; it does nothing.

ghost use Rattle.updn_routes.specs.NumberLaws.{AdaptersAreNumbered, WrongNumbersAreRefused};
ghost use Rattle.updn_routes.specs.TieLaws.{BalancedTies, TheFirstTieIsTheLeast, WrongRulesAreRefused};

/// The balanced rule names one of the ties; it takes each of them; and of adapters' ports in a row no tie gets more than one, and one
/// for each round of all ties that the others begin. The next switch begins at the next tie, and at the next rank ports go on by one
/// more tie for each round.
pub fn balanced_ties_are_shared()
    ensures { BalancedTies }
{}

/// By the rule of the least port no port that begins as short a path is less.
pub fn the_first_tie_is_the_least()
    ensures { TheFirstTieIsTheLeast }
{}

/// A rule that takes one tie alone, never takes the last, takes another only for each next row of ports, looks at no place, looks at
/// no rank, or may name none, is not so.
pub fn wrong_rules_of_ties_are_refused()
    ensures { WrongRulesAreRefused }
{}

/// Of n adapters' ports each has a number below n, and another than each other; those of one switch stand in a row; and which LID a
/// port has does not count. So of the ports of one switch no tie gets more than [`balanced_ties_are_shared`] says.
pub fn adapters_ports_are_numbered()
    ensures { AdaptersAreNumbered }
{}

/// One number for all, the order of LIDs, and numbers that count switches' own LIDs too are not so.
pub fn wrong_numbers_are_refused()
    ensures { WrongNumbersAreRefused }
{}
