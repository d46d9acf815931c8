//! What requests ask by: how `selected_by` and `ask_by` read the table of a record's components.
//!
//! A row is the field's word in scripts, its bits in the ComponentMask, the field with its type and how many bits it
//! has, and how it constrains which records are selected: `equal`, by its `base`, by a `(code ..)` or a `(rate ..)`
//! under the selector that is named beside it with the bits of both, or `alone` not at all.

ghost use Rattle.std.specs.Prelude.{◌≡◌, ◌<◌, true};
ghost use Rattle.std.specs.Str.{bytes_eq};
ghost use Rattle.mad_layout.specs.Bits.{bit_of};

/// Whether a record agrees with what is asked: `TABLE!(selected!(shown asked mask))`. A row that is `alone` is passed
/// over, so the last one is none.
macro_rules! selected {
    ($shown:ident $asked:ident $mask:ident; $word:literal, $bits:expr, $field:ident: $kind:ident, $len:tt, alone; $($rest:tt)+) => {
        selected!($shown $asked $mask; $($rest)+)
    };
    ($shown:ident $asked:ident $mask:ident; $word:literal, $bits:expr, $field:ident: $kind:ident, $len:tt, $how:tt;) => {
        component_agrees!($shown $asked $mask $field $how $bits)
    };
    ($shown:ident $asked:ident $mask:ident; $word:literal, $bits:expr, $field:ident: $kind:ident, $len:tt, $how:tt; $($rest:tt)+) => {
        component_agrees!($shown $asked $mask $field $how $bits) && selected!($shown $asked $mask; $($rest)+)
    };
}

pub(crate) use selected;

/// Whether it agrees on one component, by the row of its table.
macro_rules! component_agrees {
    ($shown:ident $asked:ident $mask:ident $field:ident equal $bits:expr) => {
        agrees($mask, $bits, $shown.$field == $asked.$field)
    };
    ($shown:ident $asked:ident $mask:ident $field:ident base $bits:expr) => {
        agrees($mask, $bits, same_base($shown.$field, $asked.$field))
    };
    ($shown:ident $asked:ident $mask:ident $field:ident (code $selector:ident $both:expr) $bits:expr) => {
        agrees($mask, $both, code_satisfies($asked.$selector, $shown.$field, $asked.$field))
    };
    ($shown:ident $asked:ident $mask:ident $field:ident (rate $selector:ident $both:expr) $bits:expr) => {
        agrees($mask, $both, rate_satisfies($asked.$selector, $shown.$field, $asked.$field))
    };
}

pub(crate) use component_agrees;

/// Sets the field of a word, and gives its bits: `TABLE!(set_asked!(record word value))`.
macro_rules! set_asked {
    ($record:ident $name:ident $value:ident;
        $($word:literal, $bits:expr, $field:ident: $kind:ident, $len:tt, $how:tt;)+) => {
        {
            $(if is_word($name, $word.as_slice()) {
                return set_field!($record $value $field $kind $len $bits);
            })+
            None
        }
    };
}

pub(crate) use set_asked;

/// Sets one field, if the value is narrow enough for it, by the row of its table.
macro_rules! set_field {
    ($record:ident $value:ident $field:ident u128 128 $bits:expr) => {
        {
            $record.$field = $value;
            Some($bits)
        }
    };
    ($record:ident $value:ident $field:ident bool 1 $bits:expr) => {
        if $value < 2 {
            $record.$field = flag($value);
            Some($bits)
        } else {
            None
        }
    };
    ($record:ident $value:ident $field:ident $kind:ident $len:tt $bits:expr) => {
        if $value < 1 << $len {
            $record.$field = $value as $kind;
            Some($bits)
        } else {
            None
        }
    };
}

pub(crate) use set_field;

/// Sets the number of a word among those that some bytes hold, and gives its bits: `TABLE!(set_number!(bytes word
/// value))`.
macro_rules! set_number {
    ($bytes:ident $name:ident $value:ident; $($word:literal, $bits:expr, $off:literal, $len:literal;)+) => {
        {
            $(if is_word($name, $word.as_slice()) {
                return if $value < 1 << $len {
                    put_bits::<$off, $len>($bytes, $value as u64);
                    Some($bits)
                } else {
                    None
                };
            })+
            None
        }
    };
}

pub(crate) use set_number;

/// Whether a name is that word.
pub(crate) fn is_word(name: &[u8], word: &[u8]) -> bool
    ensures is { result ≡ bytes_eq name.now word.now }
    ensures same { result ≡ true → name.now ≡ word.now }
{
    name == word
}

/// The flag of one bit.
pub(crate) fn flag(value: u128) -> bool
    requires { value < 2 }
    ensures { bit_of result ≡ value }
{
    value == 1
}
