//! Laws of codes.

ghost use Rattle.std.specs.Prelude.{◌≡◌, Some};
ghost use Rattle.code_texts.specs.Codes.{code_of, codes_in_order, codes_listed, spelling};
ghost use Rattle.code_texts.specs.declared.code.Code.{Code as AnyCode};

/// Each code, as it is printed, is read as itself, so each of them is listed. Like every law the function does nothing:
/// its contract is the law.
pub fn every_code_is_read()
    ensures { (code : AnyCode) → code_of (spelling code) ≡ Some code }
{}

/// The list of codes, written out: each of them once, by kind of input.
pub fn codes_are_listed_in_order()
    ensures { codes_listed ≡ codes_in_order }
{}
