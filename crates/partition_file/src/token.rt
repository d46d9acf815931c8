//! What a piece says, read once, by the part of a definition that it is.

ghost use Rattle.std.specs.Prelude.{◌≡◌, ◌<◌, IfSome};
ghost use Rattle.partition_file.specs.Tokens.{base_in, begins_with_digit, flag_token, is_full, list_token, membership_in, membership_value, name_in, number_value, token_of, value_of};

use crate::definition_part::Part;
use crate::flag::{Flag, Setting, flag_of};
use crate::item::{Ports, ports_named};
use crate::number::{is_number, number_up_to};
use pkey_rules::base_of;
use text_words::number_in;

/// What stands where a name may stand.
#[derive(Clone, Copy, PartialEq, Eq)]
pub(crate) enum NameWord {
    /// `Default`.
    Default,
    /// What begins with a digit, and so is no name.
    DigitFirst,
    /// Any other name, or none.
    Other,
}

/// How ports are listed.
#[derive(Clone, Copy, PartialEq, Eq)]
pub(crate) enum MembershipWord {
    Full,
    Limited,
    Both,
    /// Any other word.
    Other,
}

impl MembershipWord {
    pub(crate) fn is_full(self) -> bool
        ensures { result ≡ is_full self }
    {
        matches!(self, MembershipWord::Full)
    }
}

/// The value of a flag.
#[derive(Clone, Copy, PartialEq, Eq)]
pub(crate) enum Value {
    /// One that the flag takes.
    Taken(Setting),
    /// None, if a number is wanted.
    Empty,
    /// No number, if one is wanted.
    Misspelt,
    /// The membership `both`.
    Both,
    /// Any other that the flag does not take.
    Refused,
}

/// What a piece says.
#[derive(Clone, Copy)]
pub(crate) enum Token {
    Name(NameWord),
    /// The base that a PKey names; none if the piece is no PKey.
    Base(Option<u16>),
    /// Nothing, where a flag may stand.
    NoFlag,
    /// A flag; none if there is no such flag.
    FlagWord(Option<Flag>),
    FlagValue(Value),
    /// Nothing, where a word of a list may stand.
    NoPorts,
    /// The list word `mgid`.
    Mgid,
    /// The ports that a word of a list names; none if it names none.
    ListWord(Option<Ports>),
    /// The membership of these ports.
    Membership(Ports, MembershipWord),
}

impl Part {
    /// What a piece says that is this part.
    pub(crate) fn token_of(self, piece: &[u8]) -> Token
        ensures { result ≡ token_of self piece.now }
    {
        match self {
            Part::Name => Token::Name(name_in(piece)),
            Part::Base => Token::Base(base_in(piece)),
            Part::FlagWord => flag_token(piece),
            Part::FlagValue(flag) => Token::FlagValue(value_of(flag, piece)),
            Part::ListWord => list_token(piece),
            Part::Membership(ports) => Token::Membership(ports, membership_in(piece)),
        }
    }
}

fn name_in(piece: &[u8]) -> NameWord
    ensures { result ≡ name_in piece.now }
{
    if begins_with_digit(piece) {
        NameWord::DigitFirst
    } else if piece == b"Default".as_slice() {
        NameWord::Default
    } else {
        NameWord::Other
    }
}

fn begins_with_digit(piece: &[u8]) -> bool
    ensures { result ≡ begins_with_digit piece.now }
{
    match piece {
        [first, ..] => first.is_ascii_digit(),
        [] => false,
    }
}

/// The base that a PKey names.
fn base_in(piece: &[u8]) -> Option<u16>
    ensures value { result ≡ base_in piece.now }
    ensures within { IfSome result (λ base. base < 32768) }
{
    match number_up_to(0xffff, piece) {
        Some(number) => Some(base_of(number as u16)),
        None => None,
    }
}

fn flag_token(piece: &[u8]) -> Token
    ensures { result ≡ flag_token piece.now }
{
    if piece.is_empty() {
        return Token::NoFlag;
    }
    Token::FlagWord(flag_of(piece))
}

fn list_token(piece: &[u8]) -> Token
    ensures { result ≡ list_token piece.now }
{
    if piece.is_empty() {
        return Token::NoPorts;
    }
    if piece == b"mgid".as_slice() {
        return Token::Mgid;
    }
    Token::ListWord(ports_named(piece))
}

fn value_of(flag: Flag, piece: &[u8]) -> Value
    ensures { result ≡ value_of flag piece.now }
{
    match flag {
        Flag::DefaultMembership => membership_value(membership_in(piece)),
        _ => number_value(flag, piece),
    }
}

fn number_value(flag: Flag, piece: &[u8]) -> Value
    ensures { result ≡ number_value flag piece.now }
{
    if piece.is_empty() {
        return Value::Empty;
    }
    if !is_number(piece) {
        return Value::Misspelt;
    }
    match number_in(piece).and_then(|number| flag.setting(number)) {
        Some(setting) => Value::Taken(setting),
        None => Value::Refused,
    }
}

fn membership_in(piece: &[u8]) -> MembershipWord
    ensures { result ≡ membership_in piece.now }
{
    if piece == b"full".as_slice() {
        MembershipWord::Full
    } else if piece == b"limited".as_slice() {
        MembershipWord::Limited
    } else if piece == b"both".as_slice() {
        MembershipWord::Both
    } else {
        MembershipWord::Other
    }
}

/// The value of `defmember`.
fn membership_value(word: MembershipWord) -> Value
    ensures { result ≡ membership_value word }
{
    match word {
        MembershipWord::Full => Value::Taken(Setting::FullByDefault(true)),
        MembershipWord::Limited => Value::Taken(Setting::FullByDefault(false)),
        MembershipWord::Both => Value::Both,
        MembershipWord::Other => Value::Refused,
    }
}
