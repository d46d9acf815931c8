//! Paths of directed routes.

ghost use Rattle.std.specs.Prelude.{◌≡◌, ◌≤◌, ◌<◌, length, [], ◌∷◌, ◌++◌};
ghost use Rattle.sweep.specs.declared.path.TheConstants.{PATH_HOPS};

use arrayvec::ArrayVec;
use smp_route::MAX_HOPS;
use std::alloc::AllocError;
use std::marker::Model;

/// How many hops a directed route has at most.
///
/// Source: IBA volume 1, 14.2.1.2.
pub const PATH_HOPS: usize = MAX_HOPS as usize;

/// A path from the SM port: the ports by which its hops leave.
#[derive(Debug, Drop)]
pub struct Path {
    ports: ArrayVec<u8, PATH_HOPS>,
}

impl Model for Path {
    ghost use Rattle.std.specs.Prelude.{ℕ, List};

    ghost Value = { List ℕ };

    ghost view = { λ path. path.ports.items };
}

impl Path {
    /// The path of no hop.
    pub(crate) fn new() -> Path
        ensures { result ≡ [] }
    {
        Path {
            ports: ArrayVec::new(),
        }
    }

    /// Its ports.
    pub fn as_slice(&self) -> &[u8]
        ensures value { result.now ≡ self.now }
        ensures fits { length result.now ≤ PATH_HOPS }
    {
        self.ports.as_slice()
    }

    /// How many hops it has.
    pub fn len(&self) -> usize
        ensures value { result ≡ length self.now }
        ensures fits { result ≤ PATH_HOPS }
    {
        self.as_slice().len()
    }

    /// The path that goes on by that port.
    pub fn then(&self, number: u8) -> Path
        requires { length self.now < PATH_HOPS }
        ensures { result ≡ self.now ++ number ∷ [] }
    {
        let mut ports = ArrayVec::new();
        let _ = ports.try_extend_from_slice(self.as_slice());
        ports.push(number);
        Path { ports }
    }

    /// The same path again.
    pub(crate) fn copied(&self) -> Path
        ensures { result ≡ self.now }
    {
        let mut ports = ArrayVec::new();
        let _ = ports.try_extend_from_slice(self.as_slice());
        Path { ports }
    }
}
