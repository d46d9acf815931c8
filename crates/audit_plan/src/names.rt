//! How many nodes of a discovery have each name.

ghost use Rattle.std.specs.Prelude.{◌≡◌, ◌++◌, [], ◌∷◌, List, IfOk, OnOk};
ghost use Rattle.netdiscover_file.specs.declared.node.Node.{Node as FoundNode};
ghost use Rattle.audit_plan.specs.Names.{KnowsNames};
ghost use Rattle.audit_plan.specs.Plan.{is_own};

use indexmap::IndexMap;
use netdiscover_file::Node;
use std::alloc::{AllocError, Global};

/// The names of nodes, and whether one node alone has each.
pub(crate) type Names = IndexMap<Vec<u8>, bool>;

/// Notes the name of one node more.
fn note(alloc: Global, names: &mut Names, node: &Node) -> Result<(), AllocError>
    ensures { OnOk result ((before : List FoundNode) → KnowsNames names.old before → KnowsNames names.new (before ++ node.now ∷ [])) }
{
    let name = Vec::from_slice(alloc, node.name.as_bytes())?;
    let alone = !names.contains_key(&name);
    names.insert(name, alone)?;
    Ok(())
}

/// The names of these nodes. It can only run out of memory.
pub(crate) fn names_of(alloc: Global, nodes: &[Node]) -> Result<Names, AllocError>
    ensures { IfOk result (λ names. KnowsNames names nodes.now) }
{
    let mut names = IndexMap::new(alloc);
    for node in nodes {
        note(alloc, &mut names, node)?;
    }
    Ok(names)
}

/// Whether one node alone has this name, and it is not empty.
pub(crate) fn is_own(names: &Names, name: &Vec<u8>) -> bool
    ensures { (nodes : List FoundNode) → KnowsNames names.now nodes → result ≡ is_own nodes name.now.items }
{
    let empty = name.as_slice().is_empty();
    match names.get(name) {
        Some(alone) => *alone && !empty,
        None => false,
    }
}
