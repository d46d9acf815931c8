//! The five steps of loads, and their colours.

ghost use Rattle.std.specs.Prelude.{◌≡◌, ◌≤◌, cond, IfOk};
ghost use Rattle.cable_looks.specs.Steps.{exceeds, least_of, step_colour, step_of, top_of};

use std::alloc::AllocError;

/// The greatest load of a step. A number that is too great is refused as if memory ran out.
pub(crate) fn top_of(most: usize, step: usize) -> Result<usize, AllocError>
    ensures { IfOk result (λ top. top ≡ top_of most step) }
{
    match most.checked_mul(step) {
        Some(fifths) => Ok(fifths / 5),
        None => Err(AllocError),
    }
}

pub(crate) fn least_of(most: usize, step: usize) -> Result<usize, AllocError>
    requires { 1 ≤ step }
    ensures { IfOk result (λ least. least ≡ least_of most step) }
{
    if step == 1 {
        return Ok(0);
    }
    match top_of(most, step - 1)?.checked_add(1) {
        Some(least) => Ok(least),
        None => Err(AllocError),
    }
}

fn exceeds(most: usize, load: usize, step: usize) -> Result<bool, AllocError>
    ensures { IfOk result (λ is. is ≡ exceeds most load step) }
{
    Ok(top_of(most, step)? < load)
}

fn one_if(test: bool) -> usize
    ensures value { result ≡ cond test 1 0 }
    ensures small { result ≤ 1 }
{
    if test { 1 } else { 0 }
}

/// The step of a load, 1 to 5.
pub(crate) fn step_of(most: usize, load: usize) -> Result<usize, AllocError>
    ensures { IfOk result (λ step. step ≡ step_of most load) }
{
    let mut count = 0;
    for step in 1..5 {
        count += one_if(exceeds(most, load, step)?);
    }
    Ok(count + 1)
}

/// The colour of a step, by its name in DOT.
#[tactic(auto, unfolding(crate::specs::Steps::step_colour))]
pub(crate) fn step_colour(step: usize) -> &'static [u8]
    ensures { result.now ≡ step_colour step }
{
    match step {
        1 => b"gray70",
        2 => b"steelblue",
        3 => b"orange",
        4 => b"orangered",
        _ => b"red4",
    }
}
