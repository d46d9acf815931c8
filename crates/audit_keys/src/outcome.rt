//! What an audit found.

ghost use Rattle.std.specs.Prelude.{◌≡◌};

use std::marker::Model;

/// What an audit found.
#[derive(Debug, Drop)]
pub struct KeysAudit {
    pub(crate) text: Vec<u8>,
    pub(crate) is_clean: bool,
}

impl Model for KeysAudit {
    ghost use Rattle.audit_keys.specs.Text.{KeysAuditState};

    ghost Value = { KeysAuditState };

    ghost view = { λ audit. record { text = audit.text.items; is_clean = audit.is_clean } };
}

impl KeysAudit {
    /// Its lines.
    pub fn text(&self) -> &[u8]
        ensures { result.now ≡ self.now.text }
    {
        self.text.as_slice()
    }

    /// Whether each end port was read and holds exactly the keys of the file, and each switch port that faces an adapter port was
    /// read and, if it enforces, has exactly the bases of that port; and each port between switches that was read and enforces has every
    /// base that the file gives an end port.
    pub fn is_clean(&self) -> bool
        ensures { result ≡ self.now.is_clean }
    {
        self.is_clean
    }
}
