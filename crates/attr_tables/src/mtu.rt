//! The codes of MTUs.

ghost use Rattle.std.specs.Prelude.{◌≡◌, Some, IfSome};
ghost use Rattle.attr_tables.specs.Mtu.{mtu_code, mtu_bytes};

/// How long a packet may be (MTU).
///
/// Source: IBA volume 1, 14.2.5.6 (PortInfo).
#[derive(Clone, Copy, Debug, PartialEq, Eq)]
pub enum Mtu {
    /// 256 bytes.
    Bytes256 = 1,
    /// 512 bytes.
    Bytes512 = 2,
    /// 1024 bytes.
    Bytes1024 = 3,
    /// 2048 bytes.
    Bytes2048 = 4,
    /// 4096 bytes.
    Bytes4096 = 5,
}

impl Mtu {
    /// The one of that code, if there is one.
    pub fn from_code(code: u8) -> Option<Mtu>
        ensures known { IfSome result (λ one. mtu_code one ≡ code) }
        ensures every { (one : Mtu) → mtu_code one ≡ code → result ≡ Some one }
    {
        match code {
            1 => Some(Mtu::Bytes256),
            2 => Some(Mtu::Bytes512),
            3 => Some(Mtu::Bytes1024),
            4 => Some(Mtu::Bytes2048),
            5 => Some(Mtu::Bytes4096),
            _ => None,
        }
    }

    /// Its code.
    pub fn code(self) -> u8
        ensures { result ≡ mtu_code self }
    {
        self as u8
    }

    /// How many bytes that is.
    pub fn bytes(self) -> u16
        ensures { result ≡ mtu_bytes self }
    {
        match self {
            Mtu::Bytes256 => 256,
            Mtu::Bytes512 => 512,
            Mtu::Bytes1024 => 1024,
            Mtu::Bytes2048 => 2048,
            Mtu::Bytes4096 => 4096,
        }
    }
}
