//! What is so of all transfers. The functions do nothing; their clauses are the theorems.

ghost use Rattle.rmpp_core.specs.Laws.{LastAcksComplete, SegmentsAreReceived, SegmentsAreTheBytes, SegmentsGoOutInOrder, SegmentsHaveTheirNumbers, WhatIsReceivedIsATable};

/// The segments of a table, put together, are its bytes, and each but the last is full.
pub fn segments_are_the_bytes()
    ensures { SegmentsAreTheBytes }
{}

/// Whatever ACKs come, what a sender sends is the first segments of its table, in their order and each once.
pub fn segments_go_out_in_order()
    ensures { SegmentsGoOutInOrder }
{}

/// A receiver that is given all segments of a sender in their order has the sender's bytes.
pub fn segments_are_received()
    ensures { SegmentsAreReceived }
{}

/// What a receiver has is a table: the data of segments that came in their turn, of lengths that agree.
pub fn what_is_received_is_a_table()
    ensures { WhatIsReceivedIsATable }
{}

/// A segment has RMPP version 1, is DATA, and has its number, all written out.
pub fn segments_have_their_numbers()
    ensures { SegmentsHaveTheirNumbers }
{}

/// A transfer is complete if and only if the segment was acknowledged that has the last of its bytes.
pub fn last_acks_complete()
    ensures { LastAcksComplete }
{}
