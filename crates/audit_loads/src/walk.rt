//! A walk along the entries, which adds to the sum of each port by which packets leave.

ghost use Rattle.std.specs.Prelude.{ℕ, ◌≡◌, ◌<◌, ◌*◌, length, false, OnOk};
ghost use Rattle.audit_loads.specs.Walk.{is_stamped, on_way, AreBelow, GrowBy};

use crate::marks::stamp_at;
use crate::sums::add_at;
use audit_net::{Entry, Net, Turn};
use std::alloc::AllocError;

/// As many pairs whose packets go from one switch to one LID.
#[derive(Clone, Copy)]
pub(crate) struct Flow {
    pub(crate) lid: u16,
    pub(crate) place: usize,
    pub(crate) count: usize,
}

/// Adds a flow to the sum of each port by which its packets leave a switch, once for each port.
pub(crate) fn add_way(
    net: &Net<'_>,
    sums: &mut [usize],
    marks: &mut [usize],
    stamp: usize,
    flow: Flow,
) -> Result<(), AllocError>
    requires stamp { 0 < stamp }
    requires fresh { (place : ℕ) → is_stamped marks.old stamp place ≡ false }
    requires long { length sums.old ≡ length marks.old * 256 }
    ensures long { length marks.new ≡ length marks.old }
    ensures below { AreBelow stamp marks.old → AreBelow stamp marks.new }
    ensures sums { OnOk result (GrowBy (on_way net.now flow.lid flow.place flow.count) sums.old sums.new) }
{
    let mut at = flow.place;
    for _ in 0..net.switches().len() {
        if !stamp_at(marks, at, stamp) {
            return Ok(());
        }
        let Entry::Out(number) = net.entry(flow.lid, at) else {
            return Ok(());
        };
        add_at(sums, at, number, flow.count)?;
        let Turn::Goes(next) = net.turn_out(at, number) else {
            return Ok(());
        };
        at = next;
    }
    Ok(())
}
