//! What a packet carries.

ghost use Rattle.std.specs.Prelude.{◌≡◌, ◌≤◌, length};
ghost use Rattle.data_packet.specs.declared.payload.TheConstants.{PAYLOAD_BYTES};

use arrayvec::ArrayVec;
use std::alloc::AllocError;
use std::marker::Model;

/// How many bytes a packet carries at most.
pub const PAYLOAD_BYTES: usize = 256;

/// What a packet carries: at most 256 bytes.
#[derive(Debug, Drop, PartialEq, Eq)]
pub struct Payload {
    bytes: ArrayVec<u8, PAYLOAD_BYTES>,
}

impl Model for Payload {
    ghost use Rattle.std.specs.Prelude.{ℕ, List};

    ghost Value = { List ℕ };

    ghost view = { λ payload. payload.bytes.items };

    ghost inverse = { λ bytes. record { bytes = record { items = bytes } } };
}

impl Payload {
    /// A payload of these bytes.
    pub fn new(bytes: &[u8]) -> Payload
        requires { length bytes.now ≤ PAYLOAD_BYTES }
        ensures { result ≡ bytes.now }
    {
        let mut payload = ArrayVec::new();
        let _ = payload.try_extend_from_slice(bytes);
        Payload { bytes: payload }
    }

    /// Its bytes.
    pub fn as_slice(&self) -> &[u8]
        ensures value { result.now ≡ self.now }
        ensures fits { length result.now ≤ PAYLOAD_BYTES }
    {
        self.bytes.as_slice()
    }
}

impl Clone for Payload {
    ghost use Rattle.std.specs.Prelude.{◌≡◌};

    ghost is_clone = { λ payload copy. copy ≡ payload };

    ghost is_infallible = { λ _. Unit {0} };

    fn clone(&self) -> Result<Self, AllocError> {
        Ok(Payload::new(self.as_slice()))
    }
}
