//! SMPs as lines: each answered by a fabric, `fabric smp`, or each sent to one, `fabric manage`.
//!
//! [`answer_smps`] reads lines `256:HEX`, gives each SMP to a fabric at its SM port, and writes the reply as such a line, or
//! `none` (`specs/SmpLines.antt`). Directed-route SMPs alone are answered (IBA volume 1, 14.2.1.2).
//! [`LineWire`] is a wire whose SMPs go out as lines, and whose replies come in as lines (`specs/LineWire.antt`).
#![tactic(auto)]

mod answering;
mod line_wire;
mod place;
mod stop;

pub use crate::answering::answer_smps;
pub use crate::line_wire::LineWire;
pub use crate::place::place_text;
pub use crate::stop::SmpStop;
