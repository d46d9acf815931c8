//! The flags of a definition.

ghost use Rattle.std.specs.Prelude.{◌≡◌};
ghost use Rattle.partition_file.specs.Flags.{flag_of, is_full_by_default, is_given, no_flags, setting_of, takes_value, with_flag, with_setting};

/// A flag of a definition.
#[derive(Clone, Copy, PartialEq, Eq)]
pub(crate) enum Flag {
    Ipoib,
    Indx0,
    Rate,
    Mtu,
    ServiceLevel,
    Scope,
    QKey,
    DefaultMembership,
}

impl Flag {
    pub(crate) fn takes_value(self) -> bool
        ensures { result ≡ takes_value self }
    {
        match self {
            Flag::Ipoib | Flag::Indx0 => false,
            Flag::Rate
            | Flag::Mtu
            | Flag::ServiceLevel
            | Flag::Scope
            | Flag::QKey
            | Flag::DefaultMembership => true,
        }
    }

    /// This flag with the number as its value, if it takes that.
    pub(crate) fn setting(self, number: u128) -> Option<Setting>
        ensures { result ≡ setting_of self number }
    {
        match self {
            Flag::Rate if number == 2 || number == 3 || number == 5 => {
                Some(Setting::Rate(number as u8))
            }
            Flag::Mtu if number >= 1 && number <= 4 => Some(Setting::Mtu(number as u8)),
            Flag::ServiceLevel if number <= 15 => Some(Setting::ServiceLevel(number as u8)),
            Flag::Scope if number <= 15 => Some(Setting::Scope(number as u8)),
            Flag::QKey if number <= 0xffff_ffff => Some(Setting::QKey(number as u32)),
            _ => None,
        }
    }
}

/// A flag with its value.
#[derive(Clone, Copy, PartialEq, Eq)]
pub(crate) enum Setting {
    Rate(u8),
    Mtu(u8),
    ServiceLevel(u8),
    Scope(u8),
    QKey(u32),
    FullByDefault(bool),
}

/// The flag of this word.
pub(crate) fn flag_of(word: &[u8]) -> Option<Flag>
    ensures { result ≡ flag_of word.now }
{
    if word == b"ipoib".as_slice() {
        Some(Flag::Ipoib)
    } else if word == b"indx0".as_slice() {
        Some(Flag::Indx0)
    } else if word == b"rate".as_slice() {
        Some(Flag::Rate)
    } else if word == b"mtu".as_slice() {
        Some(Flag::Mtu)
    } else if word == b"sl".as_slice() {
        Some(Flag::ServiceLevel)
    } else if word == b"scope".as_slice() {
        Some(Flag::Scope)
    } else if word == b"Q_Key".as_slice() {
        Some(Flag::QKey)
    } else if word == b"defmember".as_slice() {
        Some(Flag::DefaultMembership)
    } else {
        None
    }
}

/// The flags that a definition has given so far.
#[derive(Clone, Copy)]
pub(crate) struct Flags {
    pub(crate) ipoib: bool,
    pub(crate) indx0: bool,
    pub(crate) rate: Option<u8>,
    pub(crate) mtu: Option<u8>,
    pub(crate) service_level: Option<u8>,
    pub(crate) scope: Option<u8>,
    pub(crate) q_key: Option<u32>,
    pub(crate) full_by_default: Option<bool>,
}

impl Flags {
    pub(crate) fn new() -> Flags
        ensures { result ≡ no_flags }
    {
        Flags {
            ipoib: false,
            indx0: false,
            rate: None,
            mtu: None,
            service_level: None,
            scope: None,
            q_key: None,
            full_by_default: None,
        }
    }

    pub(crate) fn is_given(self, flag: Flag) -> bool
        ensures { result ≡ is_given flag self }
    {
        match flag {
            Flag::Ipoib => self.ipoib,
            Flag::Indx0 => self.indx0,
            Flag::Rate => self.rate.is_some(),
            Flag::Mtu => self.mtu.is_some(),
            Flag::ServiceLevel => self.service_level.is_some(),
            Flag::Scope => self.scope.is_some(),
            Flag::QKey => self.q_key.is_some(),
            Flag::DefaultMembership => self.full_by_default.is_some(),
        }
    }

    /// The flags with one more that stands alone.
    pub(crate) fn with_flag(self, flag: Option<Flag>) -> Flags
        ensures { result ≡ with_flag flag self }
    {
        match flag {
            Some(Flag::Ipoib) => Flags {
                ipoib: true,
                ..self
            },
            Some(Flag::Indx0) => Flags {
                indx0: true,
                ..self
            },
            _ => self,
        }
    }

    /// The flags with one more that has a value.
    pub(crate) fn with_setting(self, setting: Setting) -> Flags
        ensures { result ≡ with_setting setting self }
    {
        match setting {
            Setting::Rate(rate) => Flags {
                rate: Some(rate),
                ..self
            },
            Setting::Mtu(mtu) => Flags {
                mtu: Some(mtu),
                ..self
            },
            Setting::ServiceLevel(level) => Flags {
                service_level: Some(level),
                ..self
            },
            Setting::Scope(scope) => Flags {
                scope: Some(scope),
                ..self
            },
            Setting::QKey(q_key) => Flags {
                q_key: Some(q_key),
                ..self
            },
            Setting::FullByDefault(full) => Flags {
                full_by_default: Some(full),
                ..self
            },
        }
    }

    /// Whether an item that says nothing of its membership is a full member.
    pub(crate) fn is_full_by_default(self) -> bool
        ensures { result ≡ is_full_by_default self }
    {
        self.full_by_default.unwrap_or(false)
    }
}
