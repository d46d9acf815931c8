//! The P_Key tables of ports: each different one is kept once.

ghost use Rattle.std.specs.Prelude.{ℕ, List, ◌≡◌, ◌<◌, ◌*◌, false, length, drop, map, slice_get, slice_set, Some, None, IfOk, IfSome, OnOk};
ghost use Rattle.std.specs.Str.{bytes_eq};
ghost use Rattle.fabric_parts.specs.Cable.{is_same_port};
ghost use Rattle.fabric_parts.specs.declared.cable.PortRef.{PortRef};
ghost use Rattle.pkey_rules.specs.KeyTable.{shares};
ghost use Rattle.audit_loads.specs.KeyClasses.{class_at, row_of, rows_of, shared_at, KnowsClasses};
ghost use Rattle.audit_loads.specs.Talk.{keys_at};

use crate::sums::slot;
use crate::talk::{PortKeys, keys_of};
use fabric_parts::PortRef;
use pkey_rules::{KeyTable, PARTITIONS};
use std::alloc::{AllocError, Global};
use std::marker::Model;

/// With which P_Key tables one of them shares a partition.
#[derive(Drop)]
struct SharedRow {
    shared: Vec<bool>,
}

impl Model for SharedRow {
    ghost use Rattle.std.specs.Prelude.{List, Bool};

    ghost Value = { List Bool };

    ghost view = { λ row. row.shared.items };
}

impl SharedRow {
    fn of(shared: Vec<bool>) -> SharedRow
        ensures { result ≡ shared.items }
    {
        SharedRow { shared }
    }

    fn get(&self, place: usize) -> Option<bool>
        ensures { result ≡ slice_get self.now place }
    {
        self.shared.get(place).copied()
    }
}

/// Ports and their P_Keys. Two ports are compared by the classes of their P_Key tables, which were compared before.
#[derive(Drop)]
pub(crate) struct Keyed {
    ports: Vec<PortKeys>,
    tables: Vec<KeyTable<PARTITIONS>>,
    classes: Vec<Option<usize>>,
    rows: Vec<SharedRow>,
}

impl Model for Keyed {
    ghost use Rattle.std.specs.Prelude.{List, ◌≡◌};
    ghost use Rattle.audit_loads.specs.declared.talk.PortKeys.{PortKeys};
    ghost use Rattle.audit_loads.specs.KeyClasses.{rows_of, KnowsClasses};

    ghost Value = { List PortKeys };

    ghost view = { λ keyed. keyed.ports.items };

    ghost invariant = { λ keyed. KnowsClasses keyed.tables.items keyed.classes.items keyed.ports.items
        × (keyed.rows.items ≡ rows_of keyed.tables.items) };
}

impl Keyed {
    /// The ports are those of so many nodes. It can only run out of memory.
    pub(crate) fn of(alloc: Global, ports: Vec<PortKeys>, nodes: usize) -> Result<Keyed, AllocError>
        ensures { IfOk result (λ keyed. keyed ≡ ports.items) }
    {
        let mut tables = Vec::new(alloc);
        let mut classes = no_classes(alloc, nodes)?;
        add_classes(&mut tables, &mut classes, &ports)?;
        let rows = rows_of(alloc, &tables)?;
        Ok(Keyed {
            ports,
            tables,
            classes,
            rows,
        })
    }

    /// Whether two ports share a partition, if both have a class.
    fn known(&self, source: PortRef, end: PortRef) -> Option<bool>
        ensures { IfSome result (λ shared. shared ≡ shares (keys_at self.now source) (keys_at self.now end)) }
    {
        let one = class_at(&self.classes, source)?;
        let other = class_at(&self.classes, end)?;
        shared_at(&self.rows, one, other)
    }

    /// Whether two ports share a partition.
    pub(crate) fn share(&self, source: PortRef, end: PortRef) -> bool
        ensures { result ≡ shares (keys_at self.now source) (keys_at self.now end) }
    {
        match self.known(source, end) {
            Some(shared) => shared,
            None => share_keys(&self.ports, source, end),
        }
    }
}

/// Whether two ports share a partition, by their keys.
#[tactic(auto, using(crate::proofs::KeyLemmas::nothing_shared))]
fn share_keys(ports: &[PortKeys], source: PortRef, end: PortRef) -> bool
    ensures { result ≡ shares (keys_at ports.now source) (keys_at ports.now end) }
{
    let Some(one) = keys_of(ports, source) else {
        return false;
    };
    let Some(other) = keys_of(ports, end) else {
        return false;
    };
    one.keys.shares(&other.keys)
}

/// The class of a port, if it has one.
fn class_at(classes: &[Option<usize>], at: PortRef) -> Option<usize>
    ensures { result ≡ class_at classes.now at }
{
    *classes.get(slot(at.node, at.port)?)?
}

/// Places for the classes of the ports of so many nodes.
fn no_classes(alloc: Global, nodes: usize) -> Result<Vec<Option<usize>>, AllocError>
    ensures { IfOk result (λ classes. (at : PortRef) → class_at classes.items at ≡ None) }
{
    match nodes.checked_mul(256) {
        Some(count) => vec![in alloc; None; count],
        None => Err(AllocError),
    }
}

/// Notes the class of a port, if there is a place for it.
fn set_class(classes: &mut [Option<usize>], at: PortRef, class: usize)
    ensures here { IfSome (class_at classes.new at) (λ found. found ≡ class) }
    ensures others { (other : PortRef) → other.port < 256 → is_same_port at other ≡ false → class_at classes.new other ≡ class_at classes.old other }
{
    let Some(index) = slot(at.node, at.port) else {
        return;
    };
    if index < classes.len() {
        put_class(classes, index, class);
    }
}

fn put_class(classes: &mut [Option<usize>], index: usize, class: usize)
    requires { index < length classes.old }
    ensures { classes.new ≡ slice_set classes.old index (Some class) }
{
    classes[index] = Some(class);
}

fn are_same(table: &KeyTable<PARTITIONS>, other: &KeyTable<PARTITIONS>) -> bool
    ensures { result ≡ bytes_eq table.now other.now }
{
    table.as_slice() == other.as_slice()
}

/// The place of this P_Key table among these.
fn place_of(tables: &[KeyTable<PARTITIONS>], keys: &KeyTable<PARTITIONS>) -> Option<usize>
    ensures { IfSome result (λ place. slice_get tables.now place ≡ Some keys.now) }
{
    for place in 0..tables.len() {
        if are_same(&tables[place], keys) {
            return Some(place);
        }
    }
    None
}

/// The place of this P_Key table, which is added if it is not there.
fn class_of(
    tables: &mut Vec<KeyTable<PARTITIONS>>,
    keys: &KeyTable<PARTITIONS>,
) -> Result<usize, AllocError>
    ensures class { IfOk result (λ class. slice_get tables.new.items class ≡ Some keys.now) }
    ensures kept { (class : ℕ) (table : List ℕ) → slice_get tables.old.items class ≡ Some table → slice_get tables.new.items class ≡ Some table }
{
    if let Some(class) = place_of(tables, keys) {
        return Ok(class);
    }
    let class = tables.len();
    tables.push(keys.clone()?)?;
    Ok(class)
}

/// Notes the classes of these ports; of two that are one port that of the first.
fn add_classes(
    tables: &mut Vec<KeyTable<PARTITIONS>>,
    classes: &mut [Option<usize>],
    ports: &[PortKeys],
) -> Result<(), AllocError>
    requires { (at : PortRef) → class_at classes.old at ≡ None }
    ensures { OnOk result (KnowsClasses tables.new.items classes.new ports.now) }
{
    for index in (0..ports.len()).rev() {
        let one = &ports[index];
        let class = class_of(tables, &one.keys)?;
        set_class(classes, one.at, class);
    }
    Ok(())
}

fn row_of(
    alloc: Global,
    tables: &[KeyTable<PARTITIONS>],
    keys: &KeyTable<PARTITIONS>,
) -> Result<Vec<bool>, AllocError>
    ensures { IfOk result (λ row. row.items ≡ row_of tables.now keys.now) }
{
    let mut row = Vec::new(alloc);
    for table in tables {
        row.push(keys.shares(table))?;
    }
    Ok(row)
}

fn rows_of(alloc: Global, tables: &[KeyTable<PARTITIONS>]) -> Result<Vec<SharedRow>, AllocError>
    ensures { IfOk result (λ rows. rows.items ≡ rows_of tables.now) }
{
    let mut rows = Vec::new(alloc);
    for keys in tables {
        let row = row_of(alloc, tables, keys)?;
        rows.push(SharedRow::of(row))?;
    }
    Ok(rows)
}

fn shared_at(rows: &[SharedRow], one: usize, other: usize) -> Option<bool>
    ensures { result ≡ shared_at rows.now one other }
{
    rows.get(one)?.get(other)
}
