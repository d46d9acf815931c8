//! What comes of a query.

use mad_layout::{MadStatus, SA_DATA_BYTES};

/// What a query brings that is not refused.
#[derive(Drop)]
pub(crate) enum Success {
    /// One reply with this data.
    Reply([u8; SA_DATA_BYTES]),
    /// A table of records, each in so many units of 8 bytes.
    Table { spacing: u16, bytes: Vec<u8> },
}

/// A success, or the status by which a query is refused.
pub(crate) type Outcome = Result<Success, MadStatus>;
