//! SwitchInfo: how far linear forwarding tables reach.

ghost use Rattle.std.specs.Prelude.{ℕ, ◌≡◌, ◌≤◌, ◌<◌, ◌+◌, ◌%◌, ◌^◌, length, OnOk};
ghost use Rattle.std.specs.Option.{ForSome};
ghost use Rattle.attr_tables.specs.SwitchInfo.{switch_info};
ghost use Rattle.attr_tables.specs.declared.switch_info.SwitchInfo.{SwitchInfo};
ghost use Rattle.mad_layout.specs.Layout.{Holds, put_all};
ghost use Rattle.smp_wire.specs.Good.{IsGood};
ghost use Rattle.sweep.specs.OfFabric.{IsGraphOf};
ghost use Rattle.table_push.specs.Nodes.{on_switch, with_switches};
ghost use Rattle.table_push.specs.Ports.{set_top, with_top};
ghost use Rattle.table_push.specs.Pushes.{LeadsToSwitch, Leaves};

use crate::fault::{PushFault, fault_of};
use crate::setting::set;
use attr_tables::{SmpAttribute, SwitchInfo};
use smp_wire::{Session, SmpWire};
use updn_routes::Routes;

/// Sets LinearFDBTop of each switch to the greatest LID: LIDs count from 1, and there are as many as end ports.
pub(crate) fn set_tops<W: SmpWire>(
    session: &mut Session<'_, W>,
    routes: &Routes,
) -> Result<(), PushFault>
    ensures left { ForSome (W.fabric session.old.wire.now) (λ fabric. IsGraphOf routes.now.graph fabric → IsGood fabric
        → Leaves result (W.fabric session.new.wire.now) fabric (with_switches (λ guid. set_top (length routes.now.lids)) fabric)) }
    ensures same_wire { session.new.wire.ghost_name ≡ session.old.wire.ghost_name }
{
    routes.known_of_graph();
    let graph = routes.graph();
    graph.known_graph();
    let switches = graph.switches();
    let greatest = (switches.len() + graph.ports().len()) as u16;
    for place in 0..switches.len() {
        let path = switches[place].path.as_slice();
        match set_top(session, path, greatest) {
            Ok(()) => {}
            Err(fault) => return Err(fault),
        }
    }
    Ok(())
}

/// Sets LinearFDBTop of the switch at the end of a path.
fn set_top<W: SmpWire>(session: &mut Session<'_, W>, path: &[u8], lid: u16) -> Result<(), PushFault>
    requires path { length path.now ≤ 63 }
    requires lid { lid < 512 }
    ensures left { ForSome (W.fabric session.old.wire.now) (λ fabric. (guid : ℕ) → IsGood fabric → LeadsToSwitch fabric path.now guid
        → Leaves result (W.fabric session.new.wire.now) fabric (with_switches (on_switch guid (set_top lid)) fabric)) }
    ensures same_wire { session.new.wire.ghost_name ≡ session.old.wire.ghost_name }
    ensures counted { OnOk result (session.new.transaction_id ≡ ((session.old.transaction_id + 1) % 2 ^ 64 + 1) % 2 ^ 64) }
{
    let bytes = match session.get(SmpAttribute::SwitchInfo, 0, path) {
        Ok(bytes) => bytes,
        Err(fault) => return Err(fault_of(fault)),
    };
    let wanted = with_top(&bytes, lid);
    set(session, SmpAttribute::SwitchInfo, 0, path, &wanted)
}

/// SwitchInfo with that LinearFDBTop; what stands outside our fields stays too.
fn with_top(bytes: &[u8; 64], lid: u16) -> [u8; 64]
    ensures { (info : SwitchInfo) → Holds bytes.now (switch_info info) → result ≡ put_all bytes.now (switch_info (with_top lid info)) }
{
    let info = SwitchInfo {
        linear_fdb_top: lid,
        ..SwitchInfo::read(bytes)
    };
    let mut wanted = *bytes;
    info.put_over(&mut wanted);
    wanted
}
