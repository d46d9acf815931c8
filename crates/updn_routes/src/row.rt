//! The links of a switch.

ghost use Rattle.std.specs.Prelude.{◌≡◌, [], ◌∷◌, ◌++◌, get_or, OnOk};
ghost use Rattle.updn_routes.specs.Cabling.{links_of};

use crate::link::Link;
use std::alloc::{AllocError, Global};
use std::marker::Model;

/// The links of a switch to other switches, in the order of its ports.
#[derive(Debug, Drop)]
pub struct Row {
    links: Vec<Link>,
}

impl Model for Row {
    ghost use Rattle.std.specs.Prelude.{List};
    ghost use Rattle.updn_routes.specs.declared.link.Link.{Link};

    ghost Value = { List Link };

    ghost view = { λ row. row.links.items };
}

impl Row {
    /// No link.
    pub fn new(alloc: Global) -> Row
        ensures { result ≡ [] }
    {
        Row {
            links: Vec::new(alloc),
        }
    }

    /// These links.
    pub(crate) fn of(links: Vec<Link>) -> Row
        ensures { result ≡ links.items }
    {
        Row { links }
    }

    /// The links.
    pub fn as_slice(&self) -> &[Link]
        ensures { result.now ≡ self.now }
    {
        &self.links
    }

    /// Adds a link. It can only run out of memory.
    pub fn push(&mut self, link: Link) -> Result<(), AllocError>
        ensures { OnOk result (self.new ≡ self.old ++ link ∷ []) }
    {
        self.links.push(link)?;
        Ok(())
    }
}

/// The links of the switch with that number; none, if there is no such switch.
pub(crate) fn links_of(rows: &[Row], switch: usize) -> &[Link]
    ensures { result.now ≡ links_of rows.now switch }
{
    match rows.get(switch) {
        Some(row) => row.as_slice(),
        None => &[],
    }
}
