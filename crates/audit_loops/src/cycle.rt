//! Cycles among things that are numbered and depend on one another.

ghost use Rattle.std.specs.Prelude.{◌≡◌, true, false, ◌==◌, ◌||◌, ◌&&◌, ◌<◌, length, find, map, Some, None, ℕ, IfOk, IfSome, option_map, ◌∷◌};
ghost use Rattle.std.specs.List.{list_any, range_with_len};
ghost use Rattle.topo_file.specs.Rounds.{is_marked};
ghost use Rattle.audit_loops.specs.Cycle.{after, cycle, cycle_through, leads, next_home, shortest, way};
ghost use Rattle.audit_loops.specs.Marks.{IsHitBelow, KeepsCycles, both_marked, peeled, round, rounds, some_leads, some_marked};

use audit_net::blank;
use std::alloc::{AllocError, Global};
use std::marker::Model;
use topo_file::is_marked;

/// What one thing depends on, by numbers.
#[derive(Drop)]
pub struct NextList {
    numbers: Vec<usize>,
}

impl Model for NextList {
    ghost use Rattle.std.specs.Prelude.{ℕ, List};

    ghost Value = { List ℕ };

    ghost view = { λ list. list.numbers.items };
}

impl NextList {
    /// These numbers.
    pub fn of(numbers: Vec<usize>) -> NextList
        ensures { result ≡ numbers.items }
    {
        NextList { numbers }
    }

    /// The numbers.
    pub fn as_slice(&self) -> &[usize]
        ensures { result.now ≡ self.now }
    {
        self.numbers.as_slice()
    }
}

/// A mark, or none, for each thing.
#[derive(Drop)]
struct Marks {
    marks: Vec<bool>,
}

impl Model for Marks {
    ghost use Rattle.std.specs.Prelude.{List, Bool};

    ghost Value = { List Bool };

    ghost view = { λ list. list.marks.items };
}

impl Marks {
    fn of(marks: Vec<bool>) -> Marks
        ensures { result ≡ marks.items }
    {
        Marks { marks }
    }

    fn as_slice(&self) -> &[bool]
        ensures { result.now ≡ self.now }
    {
        self.marks.as_slice()
    }
}

fn after(graph: &[NextList], place: usize) -> &[usize]
    ensures { result.now ≡ after graph.now place }
{
    match graph.get(place) {
        Some(nexts) => nexts.as_slice(),
        None => &[],
    }
}

fn some_leads(home: usize, marks: &[bool], nexts: &[usize]) -> bool
    ensures { result ≡ some_leads home marks.now nexts.now }
{
    nexts
        .iter()
        .any(|next| *next == home || is_marked(marks, *next))
}

/// One more round from `home` against the dependencies.
fn round(
    alloc: Global,
    graph: &[NextList],
    home: usize,
    marks: &[bool],
) -> Result<Vec<bool>, AllocError>
    ensures { IfOk result (λ next. next.items ≡ round graph.now home marks.now) }
{
    graph
        .iter()
        .map(|nexts| some_leads(home, marks, nexts.as_slice()))
        .collect(alloc)
}

fn unmarked(alloc: Global, graph: &[NextList]) -> Result<Vec<bool>, AllocError>
    ensures { IfOk result (λ marks. marks.items ≡ map (λ nexts. false) graph.now) }
{
    graph.iter().map(|_| false).collect(alloc)
}

fn all_marked(alloc: Global, graph: &[NextList]) -> Result<Vec<bool>, AllocError>
    ensures { IfOk result (λ marks. marks.items ≡ map (λ nexts. true) graph.now) }
{
    graph.iter().map(|_| true).collect(alloc)
}

/// Whether one of these is marked.
pub fn some_marked(marks: &[bool], nexts: &[usize]) -> bool
    ensures { result ≡ some_marked marks.now nexts.now }
{
    nexts.iter().any(|next| is_marked(marks, *next))
}

fn peeled(alloc: Global, graph: &[NextList], marks: &[bool]) -> Result<Vec<bool>, AllocError>
    ensures { IfOk result (λ next. next.items ≡ peeled graph.now marks.now) }
{
    graph
        .iter()
        .enumerate()
        .map(|(place, nexts)| is_marked(marks, place) && some_marked(marks, nexts.as_slice()))
        .collect(alloc)
}

/// Whether both have the same marks.
pub fn are_same(a: &[bool], b: &[bool]) -> bool
    ensures { result ≡ true → a.now ≡ b.now }
{
    a == b
}

/// What is left once all is taken off, round by round, that depends on nothing that is left: all that is on a
/// cycle, and what leads to one.
fn in_place(alloc: Global, graph: &[NextList]) -> Result<Vec<bool>, AllocError>
    ensures { IfOk result (λ marks. KeepsCycles graph.now marks.items) }
{
    let mut marks = all_marked(alloc, graph)?;
    for _ in 0..graph.len() {
        let next = peeled(alloc, graph, &marks)?;
        if are_same(&next, &marks) {
            return Ok(marks);
        }
        marks = next;
    }
    Ok(marks)
}

fn hit(hits: &mut [bool], place: usize)
    ensures long { length hits.new ≡ length hits.old }
    ensures kept { (other : ℕ) → is_marked hits.old other ≡ true → is_marked hits.new other ≡ true }
    ensures here { place < length hits.old → is_marked hits.new place ≡ true }
{
    if place < hits.len() {
        hits[place] = true;
    }
}

fn hit_all(hits: &mut [bool], nexts: &[usize])
    ensures long { length hits.new ≡ length hits.old }
    ensures kept { (other : ℕ) → is_marked hits.old other ≡ true → is_marked hits.new other ≡ true }
    ensures all { (d : ℕ) → d < length hits.old → list_any (λ next. next == d) nexts.now ≡ true → is_marked hits.new d ≡ true }
{
    for next in nexts {
        hit(hits, *next);
    }
}

/// A mark for all that something marked depends on.
fn hits_of(alloc: Global, graph: &[NextList], marks: &[bool]) -> Result<Vec<bool>, AllocError>
    ensures long { IfOk result (λ hits. length hits.items ≡ length graph.now) }
    ensures hit { IfOk result (λ hits. IsHitBelow graph.now marks.now (length graph.now) hits.items) }
{
    let mut hits = blank(alloc, graph.len())?;
    for place in 0..graph.len() {
        if is_marked(marks, place) {
            hit_all(&mut hits, after(graph, place));
        }
    }
    Ok(hits)
}

fn both_marked(alloc: Global, marks: &[bool], hits: &[bool]) -> Result<Vec<bool>, AllocError>
    ensures { IfOk result (λ both. both.items ≡ both_marked marks.now hits.now) }
{
    marks
        .iter()
        .enumerate()
        .map(|(place, mark)| *mark && is_marked(hits, place))
        .collect(alloc)
}

/// What is left of these once all is taken off, round by round, on which nothing depends that is left.
fn between(alloc: Global, graph: &[NextList], first: Vec<bool>) -> Result<Vec<bool>, AllocError>
    requires { KeepsCycles graph.now first.items }
    ensures { IfOk result (λ marks. KeepsCycles graph.now marks.items) }
{
    let mut marks = first;
    for _ in 0..graph.len() {
        let hits = hits_of(alloc, graph, &marks)?;
        let next = both_marked(alloc, &marks, &hits)?;
        if are_same(&next, &marks) {
            return Ok(marks);
        }
        marks = next;
    }
    Ok(marks)
}

/// The marks before each round from `home` up to the one that comes back to it; none if none does.
fn rounds_home(
    alloc: Global,
    graph: &[NextList],
    home: usize,
) -> Result<Option<Vec<Marks>>, AllocError>
    ensures shortest { IfOk result (λ found. option_map (λ rounds. length rounds.items) found ≡ shortest graph.now home) }
    ensures marks { IfOk result (λ found. IfSome found (λ before. before.items ≡ map (rounds graph.now home) (range_with_len 0 (length before.items)))) }
{
    let mut before = Vec::new(alloc);
    let mut marks = unmarked(alloc, graph)?;
    for _ in 0..graph.len() + 1 {
        if is_marked(&marks, home) {
            return Ok(Some(before));
        }
        let next = round(alloc, graph, home, &marks)?;
        if are_same(&next, &marks) {
            return Ok(None);
        }
        before.push(Marks::of(marks))?;
        marks = next;
    }
    Ok(None)
}

fn first_home(home: usize, marks: &[bool], nexts: &[usize]) -> Option<usize>
    ensures { result ≡ find (λ next. (next == home) || is_marked marks.now next) nexts.now }
{
    nexts
        .iter()
        .copied()
        .find(|next| *next == home || is_marked(marks, *next))
}

/// The least that comes next on a way home within so many dependencies.
fn next_home(
    graph: &[NextList],
    home: usize,
    before: &[Marks],
    count: usize,
    place: usize,
) -> Option<usize>
    requires rounds { before.now ≡ map (rounds graph.now home) (range_with_len 0 (length before.now)) }
    requires within { count < length before.now }
    ensures { result ≡ next_home graph.now count place home }
{
    let marks = before[count].as_slice();
    first_home(home, marks, after(graph, place))
}

/// The cycle from `home` back, by the least at each step.
fn ring(
    alloc: Global,
    graph: &[NextList],
    home: usize,
    before: &[Marks],
) -> Result<Vec<usize>, AllocError>
    requires { before.now ≡ map (rounds graph.now home) (range_with_len 0 (length before.now)) }
    ensures { IfOk result (λ ring. ring.items ≡ home ∷ way graph.now (length before.now) home home) }
{
    let mut ring = Vec::new(alloc);
    ring.push(home)?;
    let mut place = home;
    for count in (0..before.len()).rev() {
        let Some(next) = next_home(graph, home, before, count, place) else {
            return Ok(ring);
        };
        if next == home {
            return Ok(ring);
        }
        ring.push(next)?;
        place = next;
    }
    Ok(ring)
}

/// The shortest cycle through this one, if it is on one.
fn cycle_through(
    alloc: Global,
    graph: &[NextList],
    home: usize,
) -> Result<Option<Vec<usize>>, AllocError>
    ensures { IfOk result (λ found. option_map (λ ring. ring.items) found ≡ cycle_through graph.now home) }
{
    match rounds_home(alloc, graph, home)? {
        Some(before) => {
            let ring = ring(alloc, graph, home, &before)?;
            Ok(Some(ring))
        }
        None => Ok(None),
    }
}

/// A shortest cycle through the least thing that is on one, if there is a cycle.
pub fn cycle(alloc: Global, graph: &[NextList]) -> Result<Option<Vec<usize>>, AllocError>
    ensures { IfOk result (λ found. option_map (λ ring. ring.items) found ≡ cycle graph.now) }
{
    let left = in_place(alloc, graph)?;
    let marks = between(alloc, graph, left)?;
    for place in 0..graph.len() {
        if !is_marked(&marks, place) {
            continue;
        }
        if let Some(ring) = cycle_through(alloc, graph, place)? {
            return Ok(Some(ring));
        }
    }
    Ok(None)
}
