//! Texts that are read line by line, each line after those before it.

ghost use Rattle.std.specs.Prelude.{◌≡◌};
ghost use Rattle.step_results.specs.AtLine.{after_lines};
ghost use Rattle.step_results.specs.Gives.{LineGives};
ghost use Rattle.step_results.specs.TextGives.{TextGives};
ghost use Rattle.text_words.specs.Lines.{lines};

use crate::line::Lines;
use std::alloc::Global;
use step_results::{LineError, TextFault};

/// What is made of a text, line by line.
///
/// Its ghost member `after_line` is the definition of one line: what the lines so far make becomes what they make with the
/// line of this number, or the line is refused.
pub trait LineReader {
    /// Why a line is refused.
    type Cause;

    ghost use Rattle.std.specs.Prelude.{ℕ, List, Result};

    ghost after_line: { ℕ → Self → List ℕ → Result Self Self.Cause };

    /// Takes the line of this number.
    fn take_line(
        &mut self,
        alloc: Global,
        number: usize,
        line: &[u8],
    ) -> Result<(), LineError<Self::Cause>>
        ensures { LineGives (λ _. self.new) result (after_line number self.old line.now) };
}

/// What the lines of a text make, one after the other and counted from 1, or the first that is refused, with its number.
pub fn read_lines<R: LineReader + Drop>(
    alloc: Global,
    text: &[u8],
    nothing: R,
) -> Result<R, TextFault<R::Cause>>
    ensures { TextGives (λ all. all) result (after_lines R.after_line 1 nothing (lines text.now)) }
{
    let mut so_far = nothing;
    let mut number = 0;
    for line in Lines::new(text) {
        number += 1;
        if let Err(error) = so_far.take_line(alloc, number, line) {
            return Err(error.on_line(number));
        }
    }
    Ok(so_far)
}
