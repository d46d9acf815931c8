//! A mark, or none, for each of what is numbered.

ghost use Rattle.std.specs.Prelude.{◌≡◌, ◌==◌, ◌||◌, ◌<◌, false, length, IfOk, ℕ};
ghost use Rattle.topo_file.specs.Rounds.{is_marked};

use std::alloc::{AllocError, Global};

/// No mark for any of so many.
pub fn blank(alloc: Global, count: usize) -> Result<Vec<bool>, AllocError>
    ensures long { IfOk result (λ marks. length marks.items ≡ count) }
    ensures none { IfOk result (λ marks. (place : ℕ) → is_marked marks.items place ≡ false) }
{
    vec![in alloc; false; count]
}

/// Marks what has this number.
pub fn mark(marks: &mut [bool], place: usize)
    requires { place < length marks.old }
    ensures long { length marks.new ≡ length marks.old }
    ensures marked { (other : ℕ) → is_marked marks.new other ≡ (is_marked marks.old other || (place == other)) }
{
    marks[place] = true;
}
