//! The lines of a script: what each has a port do, or what happens by it to a cable; or why it is at fault.
//!
//! [`command_of`] gives the command of a line, as `specs/Script.antt` says: a packet that a port is to send
//! (`specs/Send.antt`), a MAD by which it asks subnet administration (`specs/Ask.antt`), or a cable between two switches
//! that is cut or mended (`specs/SwitchCable.antt`). Which end port a word names is asked by [`named_port`],
//! [`adapter_place`] and [`named_adapter_port`], too (`specs/NamedPort.antt`), and which cable two words name by [`named_cable`].
#![tactic(auto)]

mod ask;
mod asking;
mod encoded_bytes;
mod laws;
mod naming;
mod script;
mod script_cause;
mod send;
mod sender;
mod switch_cable;

pub use crate::encoded_bytes::mad_in;
pub use crate::laws::commands_name_what_is_there;
pub use crate::naming::{adapter_place, named_adapter_port, named_port};
pub use crate::script::command_of;
pub use crate::script_cause::ScriptCause;
pub use crate::switch_cable::named_cable;
