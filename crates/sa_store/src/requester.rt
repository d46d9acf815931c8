//! Which port sends a request.

/// A port that sends requests: its GUID, and its place among the ports of the store that found it.
#[derive(Clone, Copy, Debug)]
pub struct Requester {
    /// The GUID.
    pub guid: u64,
    /// The place, which is the LID less 1.
    pub place: usize,
}
