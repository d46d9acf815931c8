//! What comes of a command before subnet administration answers.

use crate::event::Event;
use fabric_wire::Delivery;

/// What comes of a command.
#[derive(Debug, Drop)]
pub enum Sent {
    /// These events, and nothing more.
    Events(Vec<Event>),
    /// A request to subnet administration, wherever the fabric delivers it.
    Request(Vec<Delivery>),
}
