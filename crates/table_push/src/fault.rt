//! Why a push stops.

ghost use Rattle.std.specs.Prelude.{◌≡◌};
ghost use Rattle.table_push.specs.Fault.{all_taken, as_set, code_of, compared, count_of, fault_of, meaning, taken_after_refusal, taken_of, without_enforcement};

use attr_tables::SmpAttribute;
use mad_layout::{get_bits, put_bits};
use smp_wire::ReplyFault;
use thiserror::Error;

/// Why a push stopped: at the first exchange that is at fault.
#[derive(Clone, Copy, Debug, PartialEq, Eq, Error)]
pub enum PushFault {
    /// Nothing came back along a path.
    #[error("no reply came back")]
    NoReply,
    /// A reply has a status other than 0: the agent refuses.
    #[error("an agent refuses")]
    Refused,
    /// A reply is not what was set, or of another request.
    #[error("a reply is not what was set, or of another request")]
    NotAsSet,
}

impl PushFault {
    /// The code that is printed for the fault.
    pub fn code(self) -> &'static str
        ensures { result.now ≡ code_of self }
    {
        match self {
            PushFault::NoReply => "TP1",
            PushFault::Refused => "TP2",
            PushFault::NotAsSet => "TP3",
        }
    }
}

/// What a push stops with if a request reported nothing.
pub(crate) fn fault_of(fault: ReplyFault) -> PushFault
    ensures { result ≡ fault_of fault }
{
    match fault {
        ReplyFault::NoReply => PushFault::NoReply,
        ReplyFault::Refused => PushFault::Refused,
        ReplyFault::WrongReply => PushFault::NotAsSet,
    }
}

/// What the reply to a Set of an attribute to these bytes means.
pub(crate) fn meaning(
    attribute: SmpAttribute,
    wanted: &[u8; 64],
    reported: Result<[u8; 64], ReplyFault>,
) -> Result<(), PushFault>
    ensures { result ≡ meaning attribute wanted.now reported }
{
    match reported {
        Ok(reported) => as_set(attribute, wanted, &reported),
        Err(fault) => Err(fault_of(fault)),
    }
}

/// Whether these bytes are what was set.
fn as_set(attribute: SmpAttribute, wanted: &[u8; 64], reported: &[u8; 64]) -> Result<(), PushFault>
    ensures { result ≡ as_set attribute wanted.now reported.now }
{
    if compared(attribute, wanted, reported) == *wanted {
        Ok(())
    } else {
        Err(PushFault::NotAsSet)
    }
}

/// What of the bytes that a reply carries is compared: a PortState that was not asked for is ignored, and
/// PortStateChange never counts, since a switch clears it if 1 is written.
#[tactic(auto, unfolding(crate::specs::Fault::compared))]
fn compared(attribute: SmpAttribute, wanted: &[u8; 64], reported: &[u8; 64]) -> [u8; 64]
    ensures { result ≡ compared attribute wanted.now reported.now }
{
    let mut bytes = *reported;
    if attribute == SmpAttribute::PortInfo && get_bits::<260, 4>(wanted) == 0 {
        put_bits::<260, 4>(&mut bytes, 0);
    } else if attribute == SmpAttribute::SwitchInfo {
        put_bits::<93, 1>(&mut bytes, get_bits::<93, 1>(wanted));
    }
    bytes
}

/// What a port takes of a Set of PortInfo.
#[derive(Clone, Copy)]
pub(crate) enum Taken {
    /// All.
    AsSet,
    /// All but that it enforces partitions: both bits of that were set, and it reports both as 0.
    NotEnforcing,
}

impl Taken {
    /// How many ports that do not enforce partitions that makes.
    pub(crate) fn count(self) -> usize
        ensures { result ≡ count_of self }
    {
        match self {
            Taken::AsSet => 0,
            Taken::NotEnforcing => 1,
        }
    }
}

/// What a port takes of a Set of PortInfo to these bytes, by what it reports then. One that takes one of the two enforcement
/// bits alone is at fault, since partitions would be kept apart one way only.
pub(crate) fn taken_of(wanted: &[u8; 64], reported: &[u8; 64]) -> Result<Taken, PushFault>
    ensures { result ≡ taken_of wanted.now reported.now }
{
    let compared = compared(SmpAttribute::PortInfo, wanted, reported);
    if compared == *wanted {
        Ok(Taken::AsSet)
    } else if get_bits::<348, 2>(wanted) == 3 && compared == without_enforcement(wanted) {
        Ok(Taken::NotEnforcing)
    } else {
        Err(PushFault::NotAsSet)
    }
}

/// PortInfo of a port that does not enforce partitions: these bytes with both enforcement bits 0.
fn without_enforcement(bytes: &[u8; 64]) -> [u8; 64]
    ensures { result ≡ without_enforcement bytes.now }
{
    let mut bytes = *bytes;
    put_bits::<348, 2>(&mut bytes, 0);
    bytes
}

/// What a port takes of a Set that its agent refuses, by what the agent reports to a Get. It may have carried out the Set
/// before, and the reply was lost: then it may refuse the same Set, since an Armed port cannot become Armed.
pub(crate) fn taken_after_refusal(
    wanted: &[u8; 64],
    reported: Result<[u8; 64], ReplyFault>,
) -> Result<Taken, PushFault>
    ensures { result ≡ taken_after_refusal wanted.now reported }
{
    match reported {
        Ok(held) => match taken_of(wanted, &held) {
            Ok(taken) => Ok(taken),
            Err(_) => Err(PushFault::Refused),
        },
        Err(_) => Err(PushFault::Refused),
    }
}

/// The same, if the port has to take all.
pub(crate) fn all_taken(taken: Result<Taken, PushFault>) -> Result<(), PushFault>
    ensures { result ≡ all_taken taken }
{
    match taken {
        Ok(Taken::AsSet) => Ok(()),
        Ok(Taken::NotEnforcing) => Err(PushFault::NotAsSet),
        Err(fault) => Err(fault),
    }
}
