//! Errors in SMPs and replies that are read.

pub const MF1: &str = "\
MF1: the line is not an SMP

A line of SMPS is empty, a comment, or `256:HEX` alone: the 256 bytes of an SMP, two hexadecimal
digits for each. HEX may leave out zero bytes at the end, so `256:01810101` is a Get of nothing. The
SMPs on the lines before are answered.
";

pub const MF2: &str = "\
MF2: the line is not a reply to an SMP

A line of REPLIES is empty, a comment, `none`, or `256:HEX` alone: the 256 bytes of the reply, two
hexadecimal digits for each. HEX may leave out zero bytes at the end. The SMPs before are sent, and
no more.
";
