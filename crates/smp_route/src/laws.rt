//! The numbers and fields of directed routes, written out.

ghost use Rattle.std.specs.Prelude.{◌≡◌};
ghost use Rattle.smp_route.specs.declared.fields.TheConstants.{MAX_HOPS};
ghost use Rattle.smp_route.specs.Laws.{PlacesAreFields};

use mad_layout::{bytes_are_fields, bytes_are_set};

/// The bytes that hops read and write are the fields of a directed-route SMP. Its contract is that law;
/// it does nothing.
pub fn fields_are_the_standards()
    ensures { PlacesAreFields }
{
    bytes_are_fields();
    bytes_are_set();
}

/// How many hops a path has at most, written out: an SMP has 64 entries for them, and entry 0 is no hop's (IBA
/// volume 1, 14.2.1.2).
pub fn the_numbers()
    ensures max_hops { MAX_HOPS ≡ 63 }
{}
