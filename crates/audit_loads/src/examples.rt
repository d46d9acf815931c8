//! What is printed, and who sends, computed. Each function does nothing: its contract is the examples.

ghost use Rattle.audit_loads.specs.Examples.{FractionsAreRoundedDown, PortsSendToOthers, TextsAreSo};

/// The loads of two switches, if all packets arrive, and if some are lost.
pub fn texts_are_so()
    ensures { TextsAreSo }
{}

/// Means and ratios that are no whole hundredths.
pub fn fractions_are_rounded_down()
    ensures { FractionsAreRoundedDown }
{}

/// Ports of one host, of an aggregation node, and such as are listed twice.
pub fn ports_send_to_others()
    ensures { PortsSendToOthers }
{}
