//! Wrong rules for what a run and `shares` print, and that the headline over texts refuses each. Each function does nothing: its
//! contract is the law.

ghost use Rattle.headline_laws.specs.TextWrongRules.{AsksOfFarPortsAreNotHeard, CutsAreNotHeard, MendsAreNotHeard, NearPortsAreNotLeftOut, SendsOfFarPortsAreNotHeard};

/// If a port hears what a far port sends, its lines depend on it.
pub fn sends_of_far_ports_are_not_heard()
    ensures { SendsOfFarPortsAreNotHeard }
{}

/// If a port hears that a far port asks, its lines depend on it.
pub fn asks_of_far_ports_are_not_heard()
    ensures { AsksOfFarPortsAreNotHeard }
{}

/// If `shares` leaves out a port that is near, a line is taken out that matters.
pub fn near_ports_are_not_left_out()
    ensures { NearPortsAreNotLeftOut }
{}

/// If a port hears of a link that goes down, its lines depend on a `cut`.
pub fn cuts_are_not_heard()
    ensures { CutsAreNotHeard }
{}

/// If a port hears of a link that comes up, its lines depend on a `mend`.
pub fn mends_are_not_heard()
    ensures { MendsAreNotHeard }
{}
