//! Sums for all ports of all nodes.

ghost use Rattle.std.specs.Prelude.{ℕ, ◌≡◌, ◌≤◌, ◌<◌, ◌+◌, ◌*◌, ◌^◌, ◌==◌, length, get_or, slice_set, if◌then◌else◌, IfNone, IfOk, IfSome, OnOk};
ghost use Rattle.audit_loads.specs.Walk.{at_port, sum_at, GrowBy};

use std::alloc::{AllocError, Global};

/// The place of a port among those of all nodes: each node has 256. None if the number is too great for any list.
pub(crate) fn slot(place: usize, number: u8) -> Option<usize>
    ensures some { IfSome result (λ index. index ≡ place * 256 + number) }
    ensures none { IfNone result (2 ^ 64 ≤ place * 256 + number) }
{
    place.checked_mul(256)?.checked_add(usize::from(number))
}

/// Sets the number there.
pub(crate) fn set_at(numbers: &mut [usize], place: usize, number: usize)
    requires { place < length numbers.old }
    ensures { numbers.new ≡ slice_set numbers.old place number }
{
    numbers[place] = number;
}

/// Adds to the sum there, if there is one. A sum that is too great is refused as if memory ran out.
fn add(sums: &mut [usize], index: usize, weight: usize) -> Result<(), AllocError>
    ensures long { length sums.new ≡ length sums.old }
    ensures each { OnOk result ((other : ℕ) → other < length sums.old
        → get_or sums.new other 0 ≡ get_or sums.old other 0 + (if index == other then weight else 0)) }
{
    if index >= sums.len() {
        return Ok(());
    }
    match sums[index].checked_add(weight) {
        Some(sum) => {
            set_at(sums, index, sum);
            Ok(())
        }
        None => Err(AllocError),
    }
}

/// Adds to the sum of a port.
pub(crate) fn add_at(
    sums: &mut [usize],
    place: usize,
    number: u8,
    weight: usize,
) -> Result<(), AllocError>
    ensures { OnOk result (GrowBy (at_port place number weight) sums.old sums.new) }
{
    match slot(place, number) {
        Some(index) => add(sums, index, weight),
        None => Ok(()),
    }
}

/// The sum of a port.
pub(crate) fn sum_at(sums: &[usize], place: usize, number: u8) -> usize
    ensures { result ≡ sum_at sums.now place number }
{
    match slot(place, number) {
        Some(index) => sum_of(sums, index),
        None => 0,
    }
}

fn sum_of(sums: &[usize], index: usize) -> usize
    ensures { result ≡ get_or sums.now index 0 }
{
    match sums.get(index) {
        Some(sum) => *sum,
        None => 0,
    }
}

/// As many zeros.
pub(crate) fn zeros(alloc: Global, count: usize) -> Result<Vec<usize>, AllocError>
    ensures long { IfOk result (λ all. length all.items ≡ count) }
    ensures zero { IfOk result (λ all. (index : ℕ) → get_or all.items index 0 ≡ 0) }
{
    vec![in alloc; 0; count]
}

/// Zeros for the ports of as many nodes.
pub(crate) fn blank_sums(alloc: Global, nodes: usize) -> Result<Vec<usize>, AllocError>
    ensures long { IfOk result (λ all. length all.items ≡ nodes * 256) }
    ensures zero { IfOk result (λ all. (place number : ℕ) → sum_at all.items place number ≡ 0) }
{
    match nodes.checked_mul(256) {
        Some(count) => zeros(alloc, count),
        None => Err(AllocError),
    }
}
