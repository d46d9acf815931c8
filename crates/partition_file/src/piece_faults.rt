//! The faults of a piece, one by one, asked of what it says.

ghost use Rattle.std.specs.Prelude.{◌≡◌};
ghost use Rattle.partition_file.specs.Cases.{is_bad_character, is_bad_flag_value, is_bad_number, is_both_membership, is_mgid_item, is_misused, is_reserved_key, is_unfinished, is_unknown_flag, is_zero, base_here};

use crate::definition_part::Part;
use crate::flag::{Flag, Flags};
use crate::piece::Delimiter;
use crate::token::{MembershipWord, NameWord, Token, Value};

impl Token {
    pub(crate) fn is_bad_character(self, delimiter: Delimiter) -> bool
        ensures { result ≡ is_bad_character self delimiter }
    {
        match self {
            Token::Name(word) => word == NameWord::DigitFirst,
            Token::Base(_) | Token::FlagValue(_) => delimiter.is_equals(),
            Token::NoFlag | Token::FlagWord(_) => false,
            Token::NoPorts | Token::Mgid | Token::ListWord(_) => delimiter.is_colon(),
            Token::Membership(_, _) => delimiter.is_equals() || delimiter.is_colon(),
        }
    }

    pub(crate) fn is_bad_number(self, delimiter: Delimiter) -> bool
        ensures { result ≡ is_bad_number self delimiter }
    {
        match self {
            Token::Base(base) => base.is_none(),
            Token::FlagValue(value) => value == Value::Misspelt,
            Token::NoPorts => delimiter.is_equals(),
            Token::Mgid => true,
            Token::ListWord(ports) => ports.is_none(),
            Token::Name(_) | Token::NoFlag | Token::FlagWord(_) | Token::Membership(_, _) => false,
        }
    }

    pub(crate) fn is_reserved_key(self, delimiter: Delimiter) -> bool
        ensures { result ≡ is_reserved_key self delimiter }
    {
        match self {
            Token::Name(NameWord::Default) => !delimiter.is_equals(),
            Token::Base(base) => is_zero(base),
            _ => false,
        }
    }

    pub(crate) fn is_unknown_flag(self, delimiter: Delimiter) -> bool
        ensures { result ≡ is_unknown_flag self delimiter }
    {
        match self {
            Token::NoFlag => delimiter.is_equals(),
            Token::FlagWord(flag) => flag.is_none(),
            _ => false,
        }
    }

    pub(crate) fn is_both_membership(self) -> bool
        ensures { result ≡ is_both_membership self }
    {
        matches!(
            self,
            Token::FlagValue(Value::Both) | Token::Membership(_, MembershipWord::Both)
        )
    }

    pub(crate) fn is_mgid_item(self) -> bool
        ensures { result ≡ is_mgid_item self }
    {
        matches!(self, Token::Mgid)
    }

    pub(crate) fn is_bad_flag_value(self, delimiter: Delimiter, flags: Flags) -> bool
        ensures { result ≡ is_bad_flag_value self delimiter flags }
    {
        match self {
            Token::FlagWord(flag) => is_misused(flag, delimiter, flags),
            Token::FlagValue(Value::Empty | Value::Both | Value::Refused) => true,
            _ => false,
        }
    }

    /// The base that the definition names, if its list begins at the end of this piece.
    pub(crate) fn base_here(self, before: Option<u16>) -> Option<u16>
        ensures { result ≡ base_here self before }
    {
        match self {
            Token::Base(base) => base,
            _ => before,
        }
    }
}

impl Part {
    pub(crate) fn is_unfinished(self, delimiter: Delimiter) -> bool
        ensures { result ≡ is_unfinished self delimiter }
    {
        delimiter.is_semicolon() && !self.is_in_list()
    }
}

fn is_zero(base: Option<u16>) -> bool
    ensures { result ≡ is_zero base }
{
    match base {
        Some(base) => base == 0,
        None => false,
    }
}

fn is_misused(flag: Option<Flag>, delimiter: Delimiter, flags: Flags) -> bool
    ensures { result ≡ is_misused flag delimiter flags }
{
    match flag {
        Some(flag) if flag.takes_value() => flags.is_given(flag) || !delimiter.is_equals(),
        Some(flag) => flags.is_given(flag) || delimiter.is_equals(),
        None => false,
    }
}
