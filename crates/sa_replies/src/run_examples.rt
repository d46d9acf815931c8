//! What ports of one small subnet receive. Each function does nothing: its contract is the example.

ghost use Rattle.sa_replies.specs.RunExampleLaws.{WhatAskingBrings, WhatRecordsComeFrom, WhoHearsAGroup};

/// A table comes in all its segments within one command, and a port without a key of the default partition is refused.
pub fn what_asking_brings()
    ensures { WhatAskingBrings }
{}

/// A packet to a group is received by those that joined it, as long as something keeps it.
pub fn who_hears_a_group()
    ensures { WhoHearsAGroup }
{}

/// A node and a service come from their port, and a group from who made it; a record that is cut in two has bytes in both
/// segments.
pub fn what_records_come_from()
    ensures { WhatRecordsComeFrom }
{}
