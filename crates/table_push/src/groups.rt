//! The port masks of one multicast group at all switches.

ghost use Rattle.std.specs.Prelude.{◌≡◌, ◌<◌, IfSome};
ghost use Rattle.table_push.specs.MaskSteps.{ArePortMasks, adapter_home};
ghost use Rattle.table_push.specs.TreeSteps.{IsTree};

use crate::attachments::adapter_home;
use crate::masks::port_bit;
use crate::trees::{Tree, masks_of};
use fabric_parts::{PortRef, SWITCHES};
use updn_routes::Routes;

/// The port masks of a multicast group to which these LIDs belong: for each switch, by its place in the graph, a bit for each port
/// by which it sends what is for the group. These are the ports that lead, along the spanning tree, to the group's members.
pub fn port_masks(routes: &Routes, tree: &Tree, lids: &[u16]) -> [u64; SWITCHES]
    requires { IsTree routes.now tree.now 64 }
    ensures { ArePortMasks routes.now lids.now result }
{
    routes.known_of_graph();
    routes.between().known_routes();
    let mut ports = [0; SWITCHES];
    let mut switches = 0;
    for index in 0..lids.len() {
        match member_home(routes, lids[index]) {
            Some(home) => {
                ports[home.node] |= port_bit(Some(home.port));
                switches |= 1 << home.node;
            }
            None => {}
        }
    }
    masks_of(tree, &ports, switches)
}

/// The port of a switch to which an adapter's port with that LID is attached.
#[tactic(auto, using(crate::proofs::AttachmentBitLemmas::adapter_low))]
fn member_home(routes: &Routes, lid: u16) -> Option<PortRef>
    ensures home { result ≡ adapter_home routes.now.between.homes lid }
    ensures low { IfSome result (λ home. home.node < 64) }
{
    routes.between().known_routes();
    adapter_home(routes, lid)
}
