//! How cables are drawn, by their places, and the greatest load that is shown.

ghost use Rattle.std.specs.Prelude.{◌≡◌, IfOk, map};
ghost use Rattle.cable_looks.specs.Looks.{busier, greater, load_shown, look_at, most_of, needed_look};

use std::alloc::{AllocError, Global};

/// How many pairs go over a cable between two switches.
#[derive(Clone, Copy, Debug, PartialEq, Eq)]
pub struct CableLoad {
    /// From the end that the cable names first.
    pub forth: usize,
    /// From the other end.
    pub back: usize,
}

/// How a cable is drawn.
#[derive(Clone, Copy, Debug, PartialEq, Eq)]
pub enum Look {
    /// By a thin black line.
    Plain,
    /// In red, as one that the fabric cannot do without.
    Needed,
    /// In the width and colour of its load.
    Loaded(CableLoad),
}

fn needed_look(needed: bool) -> Look
    ensures { result ≡ needed_look needed }
{
    if needed { Look::Needed } else { Look::Plain }
}

/// How cables are drawn of which these are needed. It can only run out of memory.
pub fn needed_looks(alloc: Global, needed: &[bool]) -> Result<Vec<Look>, AllocError>
    ensures { IfOk result (λ looks. looks.items ≡ map needed_look needed.now) }
{
    needed
        .iter()
        .map(|needed| needed_look(*needed))
        .collect(alloc)
}

/// The greater number of pairs of the two directions.
pub(crate) fn busier(load: CableLoad) -> usize
    ensures { result ≡ busier load }
{
    if load.forth < load.back {
        load.back
    } else {
        load.forth
    }
}

fn load_shown(look: Look) -> usize
    ensures { result ≡ load_shown look }
{
    match look {
        Look::Loaded(load) => busier(load),
        _ => 0,
    }
}

fn greater(most: usize, look: Look) -> usize
    ensures { result ≡ greater most look }
{
    let load = load_shown(look);
    if most < load { load } else { most }
}

/// How the cable at that place is drawn.
pub fn look_at(looks: &[Look], place: usize) -> Look
    ensures { result ≡ look_at looks.now place }
{
    match looks.get(place) {
        Some(look) => *look,
        None => Look::Plain,
    }
}

/// The greatest load that is shown.
pub fn most_of(looks: &[Look]) -> usize
    ensures { result ≡ most_of looks.now }
{
    looks.iter().fold(0, |most, look| greater(most, *look))
}
