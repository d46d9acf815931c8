//! The answer to an SMP, on its way back to the subnet manager.

ghost use Rattle.std.specs.Prelude.{◌≡◌, ◌≤◌};
ghost use Rattle.smp_route.specs.HopFields.{pointer, count};
ghost use Rattle.smp_route.specs.Hops.{may_return, passes_back, returning, sent_back};

use crate::fields::{MAX_HOPS, count_of, pointer_of, return_port_of, set_pointer};
use crate::hop::Hop;
use fabric_parts::NodeType;
use mad_layout::Mad;

/// Takes a returning SMP that came to a node of this type by `in_port`, 0 for the node's own agent, and
/// answers where it goes. The hop pointer moves one back, and nothing else changes. A discarded SMP stays
/// as it came.
///
/// Source: IBA volume 1, chapter 14.
pub fn back(node_type: NodeType, in_port: u8, smp: &mut Mad) -> Hop
    ensures hop { result ≡ (returning node_type in_port smp.old).hop }
    ensures smp { smp.new ≡ (returning node_type in_port smp.old).smp }
{
    if count_of(smp) <= MAX_HOPS && may_return(node_type, in_port, smp) {
        return sent_back(smp);
    }
    Hop::Discard
}

/// Whether the pointer stands where it has to, and the node hands the SMP on.
fn may_return(node_type: NodeType, in_port: u8, smp: &Mad) -> bool
    requires { count smp.now ≤ 63 }
    ensures { result ≡ may_return node_type in_port smp.now }
{
    let pointer = pointer_of(smp);
    let count = count_of(smp);
    if in_port == 0 {
        return pointer == count + 1;
    }
    1 <= pointer && pointer <= count && passes_back(node_type, pointer)
}

/// Whether a node of this type hands on what has that pointer.
fn passes_back(node_type: NodeType, pointer: u8) -> bool
    ensures { result ≡ passes_back node_type pointer }
{
    match node_type {
        NodeType::ChannelAdapter => pointer == 1,
        NodeType::Switch => true,
    }
}

/// One hop nearer to the subnet manager.
fn sent_back(smp: &mut Mad) -> Hop
    requires one { 1 ≤ pointer smp.old }
    requires within { pointer smp.old ≤ 64 }
    ensures hop { result ≡ (sent_back smp.old).hop }
    ensures smp { smp.new ≡ (sent_back smp.old).smp }
{
    let left = pointer_of(smp) - 1;
    if left == 0 {
        set_pointer(smp, 0);
        return Hop::ToManager;
    }
    let port = return_port_of(smp, left);
    if port == 0 {
        return Hop::Discard;
    }
    set_pointer(smp, left);
    Hop::Forward(port)
}
