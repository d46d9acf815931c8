//! Wrong rules for what is printed of all, and the law that each breaks, so that a reader sees that the laws say something. Each
//! function does nothing: its contract says that with this rule the law is false.

ghost use Rattle.joint_laws.specs.LineWrongRules.{AllPortsAreListed, KeysOfAllPortsCount, LostEntriesArePrinted, ManyPortsHaveSums, NoCableIsLeftOut, NodesAreDrawnToo};
ghost use Rattle.joint_laws.specs.LineWrongRules.{RefusalsArePrinted, TablesOfAllSwitchesCount, WhatGoesIsPrintedToo};

/// If partitions alone were listed, an end port that is in none would have no line.
pub fn all_ports_are_listed()
    ensures { AllPortsAreListed }
{}

/// If nothing were printed of many ports, a partition would have no line.
pub fn many_ports_have_sums()
    ensures { ManyPortsHaveSums }
{}

/// If what comes alone were printed, a partition that goes would have no line.
pub fn what_goes_is_printed_too()
    ensures { WhatGoesIsPrintedToo }
{}

/// If what is printed of cables were right, and some cables were left out, one could have no line.
pub fn no_cable_is_left_out()
    ensures { NoCableIsLeftOut }
{}

/// If entries that lead nowhere without the cable were left out, the first LID that is lost would have no line.
pub fn lost_entries_are_printed()
    ensures { LostEntriesArePrinted }
{}

/// If the tables of the first port alone were printed, a switch behind a CA port would have no row.
pub fn tables_of_all_switches_count()
    ensures { TablesOfAllSwitchesCount }
{}

/// If the keys of the first port alone were printed, the second would have no line.
pub fn keys_of_all_ports_count()
    ensures { KeysOfAllPortsCount }
{}

/// If nothing were printed of a packet that is not sent, no one would see why.
pub fn refusals_are_printed()
    ensures { RefusalsArePrinted }
{}

/// If cables alone were drawn, a switch would not be in the picture.
pub fn nodes_are_drawn_too()
    ensures { NodesAreDrawnToo }
{}
