//! The line that a program prints in place of its answer.

ghost use Rattle.std.specs.Prelude.{◌≡◌};
ghost use Rattle.text_words.specs.Failure.{is_failure};

use crate::cut::cut_at;

/// Whether a program of infiniband-diags failed and says so on this line: `smpquery: iberror: failed: ..`.
pub fn is_failure(line: &[u8]) -> bool
    ensures { result ≡ is_failure line.now }
{
    match cut_at(b' ', line) {
        Some((name, words)) => name.ends_with(b":") && words.starts_with(b"iberror: "),
        None => false,
    }
}
