//! Why a request is refused: questions that are asked of it in turn.

ghost use Rattle.std.specs.Prelude.{◌≡◌, ◌==◌};
ghost use Rattle.sa_model.specs.Refusals.{asks_unknown_mtu, asks_unknown_rate, first_refusal, is_mtu_code, is_rate_code, refused_if};
ghost use Rattle.sa_model.specs.Selected.{asks};

use attr_tables::{Mtu, Rate};
use mad_layout::MadStatus;
use std::marker::Model;

/// A question, and the status by which a request is refused if so it is.
#[derive(Clone, Copy)]
pub(crate) struct Question {
    is_so: bool,
    status: MadStatus,
}

impl Model for Question {
    ghost use Rattle.sa_model.specs.Refusals.{Question};

    ghost Value = { Question };

    ghost view = { λ question. record { is_so = question.is_so; status = question.status } };

    ghost inverse = { λ question. record { is_so = question.is_so; status = question.status } };
}

/// The request is refused with this status if so it is.
pub(crate) fn refused_if(is_so: bool, status: MadStatus) -> Question
    ensures { result ≡ refused_if is_so status }
{
    Question { is_so, status }
}

/// The first of the questions that refuses, if one does.
pub(crate) fn first_refusal(questions: &[Question]) -> Option<MadStatus>
    ensures { result ≡ first_refusal questions.now }
{
    for question in questions {
        if question.is_so {
            return Some(question.status);
        }
    }
    None
}

/// Whether the mask asks for a component, with all of its bits.
pub(crate) fn asks(mask: u64, bits: u64) -> bool
    ensures { result ≡ asks mask bits }
{
    mask & bits == bits
}

/// Whether the mask asks for an MTU whose code stands for none.
pub(crate) fn asks_unknown_mtu(mask: u64, bits: u64, code: u8) -> bool
    ensures { result ≡ asks_unknown_mtu mask bits code }
{
    asks(mask, bits) && !is_mtu_code(code)
}

/// Whether the mask asks for a rate whose code stands for none.
pub(crate) fn asks_unknown_rate(mask: u64, bits: u64, code: u8) -> bool
    ensures { result ≡ asks_unknown_rate mask bits code }
{
    asks(mask, bits) && !is_rate_code(code)
}

fn is_mtu_code(code: u8) -> bool
    ensures { result ≡ is_mtu_code code }
{
    Mtu::Bytes256.code() <= code && code <= Mtu::Bytes4096.code()
}

fn is_rate_code(code: u8) -> bool
    ensures { result ≡ is_rate_code code }
{
    Rate::Gbps2_5.code() <= code && code <= Rate::Gbps120.code()
}
