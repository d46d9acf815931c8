//! The legend: which loads each width and colour is for.

ghost use Rattle.std.specs.Prelude.{◌≡◌, ◌≤◌, ◌++◌, OnOk, flat_map};
ghost use Rattle.std.specs.List.{list_any, range_with_len};
ghost use Rattle.cable_looks.specs.Legend.{colour_cell, is_loaded, legend, legend_foot, legend_head, legend_of, legend_row, legend_row_if, legend_rows};
ghost use Rattle.cable_looks.specs.Legend.{range_cell, range_words, step_cell};
ghost use Rattle.cable_looks.specs.Looks.{most_of};

use crate::looks::Look;
use crate::steps::{least_of, step_colour, top_of};
use std::alloc::AllocError;
use text_words::push_decimal;

fn is_loaded(look: Look) -> bool
    ensures { result ≡ is_loaded look }
{
    matches!(look, Look::Loaded(_))
}

fn push_range(text: &mut Vec<u8>, least: usize, top: usize) -> Result<(), AllocError>
    ensures { OnOk result (text.new.items ≡ text.old.items ++ range_words least top) }
{
    if least != top {
        push_decimal(text, least)?;
        text.extend_from_slice(b" to ")?;
    }
    push_decimal(text, top)
}

#[tactic(auto, unfolding(crate::specs::Legend::colour_cell))]
fn colour_cell() -> &'static [u8]
    ensures { result.now ≡ colour_cell }
{
    b"<tr><td width=\"40\" bgcolor=\""
}

#[tactic(auto, unfolding(crate::specs::Legend::range_cell))]
fn range_cell() -> &'static [u8]
    ensures { result.now ≡ range_cell }
{
    b"\"></td><td align=\"left\">"
}

fn push_step_cell(text: &mut Vec<u8>, step: usize) -> Result<(), AllocError>
    ensures { OnOk result (text.new.items ≡ text.old.items ++ step_cell step) }
{
    text.extend_from_slice(colour_cell())?;
    text.extend_from_slice(step_colour(step))?;
    text.extend_from_slice(range_cell())
}

/// Adds the row of a step of the legend, if a load can be of it.
fn push_legend_row(text: &mut Vec<u8>, most: usize, step: usize) -> Result<(), AllocError>
    requires { 1 ≤ step }
    ensures { OnOk result (text.new.items ≡ text.old.items ++ legend_row_if most step) }
{
    let least = least_of(most, step)?;
    let top = top_of(most, step)?;
    if top < least {
        return Ok(());
    }
    push_step_cell(text, step)?;
    push_range(text, least, top)?;
    text.extend_from_slice(b"</td></tr>")
}

#[tactic(auto, unfolding(crate::specs::Legend::legend_rows))]
fn push_legend_rows(text: &mut Vec<u8>, most: usize) -> Result<(), AllocError>
    ensures { OnOk result (text.new.items ≡ text.old.items ++ legend_rows most) }
{
    for step in 1..6 {
        push_legend_row(text, most, step)?;
    }
    Ok(())
}

/// How the legend stands in the picture, and its heading.
#[tactic(auto, unfolding(crate::specs::Legend::legend_head))]
fn legend_head() -> &'static [u8]
    ensures { result.now ≡ legend_head }
{
    b"  fontname=\"sans-serif\";\n  labelloc=t;\n  labeljust=l;\n  label=<<table border=\"0\"><tr><td colspan=\"2\" align=\"left\">pairs that go over a cable, in its busier direction</td></tr>"
}

#[tactic(auto, unfolding(crate::specs::Legend::legend_foot))]
fn legend_foot() -> &'static [u8]
    ensures { result.now ≡ legend_foot }
{
    b"</table>>;\n"
}

#[tactic(auto, unfolding(crate::specs::Legend::legend))]
fn push_legend(text: &mut Vec<u8>, most: usize) -> Result<(), AllocError>
    ensures { OnOk result (text.new.items ≡ text.old.items ++ legend most) }
{
    text.extend_from_slice(legend_head())?;
    push_legend_rows(text, most)?;
    text.extend_from_slice(legend_foot())
}

fn any_loaded(looks: &[Look]) -> bool
    ensures { result ≡ list_any is_loaded looks.now }
{
    looks.iter().any(|look| is_loaded(*look))
}

/// Adds the legend, if a cable shows its load.
pub fn push_legend_of(text: &mut Vec<u8>, looks: &[Look], most: usize) -> Result<(), AllocError>
    requires { most ≡ most_of looks.now }
    ensures { OnOk result (text.new.items ≡ text.old.items ++ legend_of looks.now) }
{
    if any_loaded(looks) {
        push_legend(text, most)
    } else {
        Ok(())
    }
}
