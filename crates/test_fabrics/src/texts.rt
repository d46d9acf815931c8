//! The two-switch fabric of our examples, and a partition file for it.

/// Switches A and B, joined by a cable at port 3 of both; h0 and h1 on A, h2 and h3 on B, the subnet manager
/// on h0; and h4, which has no cable.
pub const TWO_SWITCHES: &str = "\
switch A 0x10 4
switch B 0x20 4
adapter h0 0x100 1
adapter h1 0x110 1
adapter h2 0x120 1
adapter h3 0x130 1
adapter h4 0x140 1
cable A/1 h0/1
cable A/2 h1/1
cable A/3 B/3
cable B/1 h2/1
cable B/2 h3/1
sm h0/1
";

/// Of partition 1, h1 is a full member and h2 and h3 are limited ones. Of the default partition the SM port
/// is a full member, the others are limited ones.
pub const ONE_PARTITION_FILE: &str = "P1=0x0001: 0x111=full, 0x121, 0x131;\n";
