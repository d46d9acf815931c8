//! Why SMPs are answered no more.

ghost use Rattle.std.specs.Prelude.{◌≡◌};
ghost use Rattle.smp_lines.specs.Stop.{stop_of};
ghost use Rattle.smp_lines.specs.declared.stop.SmpStop.TheVariants.{NoMemory as IsNoMemory};

use std::alloc::AllocError;
use text_streams::LineStop;

/// Why SMPs are answered no more before the end of their lines.
#[derive(Clone, Copy, Debug, PartialEq, Eq)]
pub enum SmpStop {
    /// Out of memory.
    NoMemory,
    /// The line of this number is no SMP.
    Line(u64),
    /// A read failed, or there is no end.
    Read,
    /// A write failed.
    Write,
}

impl From<AllocError> for SmpStop {
    ghost from_gives = { λ _ stop. stop ≡ IsNoMemory };

    fn from(_error: AllocError) -> SmpStop {
        SmpStop::NoMemory
    }
}

impl From<LineStop> for SmpStop {
    ghost from_gives = { λ stop given. given ≡ stop_of stop };

    fn from(stop: LineStop) -> SmpStop {
        match stop {
            LineStop::NoMemory => SmpStop::NoMemory,
            LineStop::Read => SmpStop::Read,
        }
    }
}
