//! A script for the two-switch fabric, and its report.

/// To another CA, to the sender itself, to a switch, to no port and to a multicast LID.
pub const SENDS: &str = "send h1/1 5 0xffff 7 2:beef
send h1/1 4 0xffff 7 2:beef
send h1/1 2 0xffff 7 2:beef
send h1/1 7 0xffff 7 2:beef
send h1/1 0xc000 0xffff 7 2:beef
";

pub const REPORT: &str = "h2/1 recv 0x0004 0x0005 0xffff 0x000007 2:beef
h1/1 recv 0x0004 0x0004 0xffff 0x000007 2:beef
";

/// An error after the first of these lines.
pub const FAULTY: &str = "send h1/1 5 0xffff 7 2:beef
frob h1/1
send h1/1 4 0xffff 7 2:beef
";

/// The report of the lines before it.
pub const FIRST: &str = "h2/1 recv 0x0004 0x0005 0xffff 0x000007 2:beef\n";
