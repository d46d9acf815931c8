//! The codes of rates.

ghost use Rattle.std.specs.Prelude.{◌≡◌, Some, IfSome};
ghost use Rattle.attr_tables.specs.Rate.{rate_code};

/// How fast a path is.
///
/// Source: IBA volume 1, 15.2.5 (PathRecord).
#[derive(Clone, Copy, Debug, PartialEq, Eq)]
pub enum Rate {
    /// 2.5 Gb/s.
    Gbps2_5 = 2,
    /// 10 Gb/s.
    Gbps10 = 3,
    /// 30 Gb/s.
    Gbps30 = 4,
    /// 5 Gb/s.
    Gbps5 = 5,
    /// 20 Gb/s.
    Gbps20 = 6,
    /// 40 Gb/s.
    Gbps40 = 7,
    /// 60 Gb/s.
    Gbps60 = 8,
    /// 80 Gb/s.
    Gbps80 = 9,
    /// 120 Gb/s.
    Gbps120 = 10,
}

impl Rate {
    /// The one of that code, if there is one.
    pub fn from_code(code: u8) -> Option<Rate>
        ensures known { IfSome result (λ one. rate_code one ≡ code) }
        ensures every { (one : Rate) → rate_code one ≡ code → result ≡ Some one }
    {
        match code {
            2 => Some(Rate::Gbps2_5),
            3 => Some(Rate::Gbps10),
            4 => Some(Rate::Gbps30),
            5 => Some(Rate::Gbps5),
            6 => Some(Rate::Gbps20),
            7 => Some(Rate::Gbps40),
            8 => Some(Rate::Gbps60),
            9 => Some(Rate::Gbps80),
            10 => Some(Rate::Gbps120),
            _ => None,
        }
    }

    /// Its code.
    pub fn code(self) -> u8
        ensures { result ≡ rate_code self }
    {
        self as u8
    }
}
