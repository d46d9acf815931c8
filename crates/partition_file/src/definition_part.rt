//! The parts of a definition, and which follows which.

ghost use Rattle.std.specs.Prelude.{◌≡◌};
ghost use Rattle.partition_file.specs.Definitions.{after_equals, is_inside, is_name, part_after};
ghost use Rattle.partition_file.specs.ScanState.{is_in_list};

use crate::flag::Flag;
use crate::item::Ports;
use crate::piece::Delimiter;
use crate::token::Token;

/// What the next delimiter ends.
#[derive(Clone, Copy)]
pub(crate) enum Part {
    Name,
    Base,
    /// A flag, or the word before its value.
    FlagWord,
    FlagValue(Flag),
    /// A word for ports, or their GUID.
    ListWord,
    /// The membership of these ports.
    Membership(Ports),
}

impl Part {
    pub(crate) fn is_in_list(self) -> bool
        ensures { result ≡ is_in_list self }
    {
        match self {
            Part::ListWord | Part::Membership(_) => true,
            Part::Name | Part::Base | Part::FlagWord | Part::FlagValue(_) => false,
        }
    }

    /// Whether a text that ends here, after this piece, ends inside a definition.
    pub(crate) fn is_inside(self, piece: &[u8]) -> bool
        ensures { result ≡ is_inside self piece.now }
    {
        !self.is_name() || !piece.is_empty()
    }

    fn is_name(self) -> bool
        ensures { result ≡ is_name self }
    {
        matches!(self, Part::Name)
    }

    /// The part that follows.
    pub(crate) fn after(self, delimiter: Delimiter, token: Token) -> Part
        ensures { result ≡ part_after self delimiter token }
    {
        match delimiter {
            Delimiter::Equals => after_equals(token),
            Delimiter::Comma if self.is_in_list() => Part::ListWord,
            Delimiter::Comma => Part::FlagWord,
            Delimiter::Colon => Part::ListWord,
            Delimiter::Semicolon => Part::Name,
        }
    }
}

fn after_equals(token: Token) -> Part
    ensures { result ≡ after_equals token }
{
    match token {
        Token::FlagWord(Some(flag)) => Part::FlagValue(flag),
        Token::ListWord(Some(ports)) => Part::Membership(ports),
        _ => Part::Base,
    }
}
