//! What an audit found.

ghost use Rattle.std.specs.Prelude.{◌≡◌};

use crate::verdict::Verdict;
use std::marker::Model;

/// What an audit found.
#[derive(Debug, Drop)]
pub struct Audit {
    pub(crate) text: Vec<u8>,
    pub(crate) is_safe: bool,
}

impl Model for Audit {
    ghost use Rattle.audit_routes.specs.Audit.{AuditState};

    ghost Value = { AuditState };

    ghost view = { λ audit. record { text = audit.text.items; is_safe = audit.is_safe } };
}

impl Audit {
    /// An audit with these lines.
    pub fn of(text: Vec<u8>, is_safe: bool) -> Audit
        ensures { result ≡ record { text = text.items; is_safe = is_safe } }
    {
        Audit { text, is_safe }
    }

    /// Its lines.
    pub fn text(&self) -> &[u8]
        ensures { result.now ≡ self.now.text }
    {
        self.text.as_slice()
    }

    /// Whether the routes are safe: each port of an adapter that has a cable has a LID, all these are reached from each
    /// switch to which an adapter is attached, there is no credit loop along LIDs other than the switches' own, and the dump
    /// and the fabric name the same switches and ports of adapters.
    pub fn is_safe(&self) -> bool
        ensures { result ≡ self.now.is_safe }
    {
        self.is_safe
    }
}

/// What an audit finds before its verdict.
#[derive(Drop)]
pub struct Findings {
    /// The lines before that of the verdict.
    pub text: Vec<u8>,
    /// What the verdict rests on.
    pub verdict: Verdict,
}

impl Model for Findings {
    ghost use Rattle.audit_routes.specs.Audit.{FindingsState};

    ghost Value = { FindingsState };

    ghost view = { λ found. record { text = found.text.items; verdict = found.verdict } };
}
