//! The codes that the program prints.

ghost use Rattle.std.specs.Prelude.{◌≡◌, ◌++◌, codes, true};
ghost use Rattle.code_texts.specs.Codes.{code_of, spelling};
ghost use Rattle.code_texts.specs.Texts.{begins_with, text_of};

use crate::discovery_texts::{ND1, ND2, ND3, ND4, ND5, ND6, ND7};
use crate::dump_texts::{FT1, FT2, FT3, FT4, FT5, FT6, FT7};
use crate::fabric_texts::{SW1, SW2, SW3, SW4, TP1, TP2, TP3, UR1};
use crate::keys_texts::{KT1, KT2, KT3, KT4, KT5};
use crate::lanes_texts::{FV1, FV2, FV3, FV4, FV5, FV6};
use crate::machine_texts::{MEMORY, READ, WRITE};
use crate::mft_texts::{FM1, FM2, FM3, FM4, FM5};
use crate::partition_texts::{PF1, PF2, PF3, PF4, PF5, PF6, PF7, PF8, PF9};
use crate::script_texts::{AR1, AR2, AR3, AR4, SF1, SF2, SF3, SF4, SF5, SF6, SF7};
use crate::smp_texts::{MF1, MF2};
use crate::topology_texts::{TF1, TF2, TF3, TF4, TF5, TF6, TF7, TF8, TF9, TF10, TF11, TF12};

/// A code for the cause of an error, or of a refusal: two letters for the input that has the error and a number, or a
/// word. Each variant says what is wrong.
#[derive(Clone, Copy, Debug, PartialEq, Eq)]
pub enum Code {
    /// A malformed line.
    Tf1,
    /// A name that is used already.
    Tf2,
    /// A GUID that is used already.
    Tf3,
    /// A name that no line above declares.
    Tf4,
    /// A port that the node does not have.
    Tf5,
    /// A port with a cable.
    Tf6,
    /// A cable between the wrong ends.
    Tf7,
    /// An SM port that is missing, named twice, or on a switch.
    Tf8,
    /// Switches that are not connected.
    Tf9,
    /// A switch or a CA port too many.
    Tf10,
    /// An SM port without a cable.
    Tf11,
    /// A root that is not a switch.
    Tf12,
    /// A character that is not allowed there.
    Pf1,
    /// A P_Key, an item or a value that is not a number of its kind.
    Pf2,
    /// Base 0, or `Default` without a P_Key.
    Pf3,
    /// An unknown flag.
    Pf4,
    /// The membership `both`.
    Pf5,
    /// The item `mgid`.
    Pf6,
    /// A partition too many.
    Pf7,
    /// A definition that is incomplete.
    Pf8,
    /// A flag twice, or with a value that it does not take.
    Pf9,
    /// A malformed line.
    Sf1,
    /// An unknown port.
    Sf2,
    /// The SM port.
    Sf3,
    /// A port without a cable.
    Sf4,
    /// A payload over 256 bytes.
    Sf5,
    /// An argument that is malformed or out of range.
    Sf6,
    /// No such cable between two switches.
    Sf7,
    /// A P_Key that the port does not hold.
    Ar1,
    /// Queue pair 0.
    Ar2,
    /// A destination LID 0 or 0xffff.
    Ar3,
    /// A port that is not Active.
    Ar4,
    /// A line that ibnetdiscover does not print.
    Nd1,
    /// A port that the node does not have.
    Nd2,
    /// A GUID that is used already.
    Nd3,
    /// A cable whose two ends disagree.
    Nd4,
    /// A CA's GUID that is 0 or a switch's.
    Nd5,
    /// An SM port that is not named, or not in the fabric.
    Nd6,
    /// A topology that describes another fabric.
    Nd7,
    /// A line that dump_fts does not print, or not there.
    Ft1,
    /// A row that does not say whose its LID is.
    Ft2,
    /// A table of a switch that has one already.
    Ft3,
    /// A LID that does not rise.
    Ft4,
    /// A table with another number of rows.
    Ft5,
    /// A dump that ends within a table, or has none.
    Ft6,
    /// A LID that an earlier row has for another end port.
    Ft7,
    /// A line that dump_fts -M does not print, or not there.
    Fm1,
    /// An MFT of a switch that has one already.
    Fm2,
    /// An MLID that does not rise.
    Fm3,
    /// An MFT with another number of rows.
    Fm4,
    /// A file that ends within an MFT, or has none.
    Fm5,
    /// A line that smpquery sl2vl or saquery PR does not print, or not there.
    Fv1,
    /// A row of an SL-to-VL mapping table that stands twice.
    Fv2,
    /// An SL-to-VL mapping table that does not say the LID.
    Fv3,
    /// A field of a path record that stands twice.
    Fv4,
    /// A path record without its SLID, DLID or SL.
    Fv5,
    /// A file with neither a row nor a path record.
    Fv6,
    /// A line that smpquery does not print, or not there.
    Kt1,
    /// A query that stands twice.
    Kt2,
    /// An answer of another LID or port.
    Kt3,
    /// Rows of a table that do not fit.
    Kt4,
    /// A file without a query.
    Kt5,
    /// A line that is no SMP.
    Mf1,
    /// A line that is no reply.
    Mf2,
    /// A discovery request without a reply.
    Sw1,
    /// A wrong discovery reply.
    Sw2,
    /// A cable too many hops away.
    Sw3,
    /// A switch or a CA port too many in discovery.
    Sw4,
    /// A switch from which no up/down path leads to a CA port.
    Ur1,
    /// A Set without a reply.
    Tp1,
    /// A Set that is refused.
    Tp2,
    /// A reply to a Set with other data.
    Tp3,
    /// Out of memory.
    Memory,
    /// A file that cannot be read.
    Read,
    /// An output that cannot be written.
    Write,
}

/// All codes, in the order in which they are listed.
pub const ALL: [Code; 75] = [
    Code::Tf1,
    Code::Tf2,
    Code::Tf3,
    Code::Tf4,
    Code::Tf5,
    Code::Tf6,
    Code::Tf7,
    Code::Tf8,
    Code::Tf9,
    Code::Tf10,
    Code::Tf11,
    Code::Tf12,
    Code::Pf1,
    Code::Pf2,
    Code::Pf3,
    Code::Pf4,
    Code::Pf5,
    Code::Pf6,
    Code::Pf7,
    Code::Pf8,
    Code::Pf9,
    Code::Sf1,
    Code::Sf2,
    Code::Sf3,
    Code::Sf4,
    Code::Sf5,
    Code::Sf6,
    Code::Sf7,
    Code::Ar1,
    Code::Ar2,
    Code::Ar3,
    Code::Ar4,
    Code::Nd1,
    Code::Nd2,
    Code::Nd3,
    Code::Nd4,
    Code::Nd5,
    Code::Nd6,
    Code::Nd7,
    Code::Ft1,
    Code::Ft2,
    Code::Ft3,
    Code::Ft4,
    Code::Ft5,
    Code::Ft6,
    Code::Ft7,
    Code::Fm1,
    Code::Fm2,
    Code::Fm3,
    Code::Fm4,
    Code::Fm5,
    Code::Fv1,
    Code::Fv2,
    Code::Fv3,
    Code::Fv4,
    Code::Fv5,
    Code::Fv6,
    Code::Kt1,
    Code::Kt2,
    Code::Kt3,
    Code::Kt4,
    Code::Kt5,
    Code::Mf1,
    Code::Mf2,
    Code::Sw1,
    Code::Sw2,
    Code::Sw3,
    Code::Sw4,
    Code::Ur1,
    Code::Tp1,
    Code::Tp2,
    Code::Tp3,
    Code::Memory,
    Code::Read,
    Code::Write,
];

impl Code {
    /// The code as it is printed.
    pub fn spelling(self) -> &'static str
        ensures { result.now ≡ spelling self }
    {
        match self {
            Code::Tf1 => "TF1",
            Code::Tf2 => "TF2",
            Code::Tf3 => "TF3",
            Code::Tf4 => "TF4",
            Code::Tf5 => "TF5",
            Code::Tf6 => "TF6",
            Code::Tf7 => "TF7",
            Code::Tf8 => "TF8",
            Code::Tf9 => "TF9",
            Code::Tf10 => "TF10",
            Code::Tf11 => "TF11",
            Code::Tf12 => "TF12",
            Code::Pf1 => "PF1",
            Code::Pf2 => "PF2",
            Code::Pf3 => "PF3",
            Code::Pf4 => "PF4",
            Code::Pf5 => "PF5",
            Code::Pf6 => "PF6",
            Code::Pf7 => "PF7",
            Code::Pf8 => "PF8",
            Code::Pf9 => "PF9",
            Code::Sf1 => "SF1",
            Code::Sf2 => "SF2",
            Code::Sf3 => "SF3",
            Code::Sf4 => "SF4",
            Code::Sf5 => "SF5",
            Code::Sf6 => "SF6",
            Code::Sf7 => "SF7",
            Code::Ar1 => "AR1",
            Code::Ar2 => "AR2",
            Code::Ar3 => "AR3",
            Code::Ar4 => "AR4",
            Code::Nd1 => "ND1",
            Code::Nd2 => "ND2",
            Code::Nd3 => "ND3",
            Code::Nd4 => "ND4",
            Code::Nd5 => "ND5",
            Code::Nd6 => "ND6",
            Code::Nd7 => "ND7",
            Code::Ft1 => "FT1",
            Code::Ft2 => "FT2",
            Code::Ft3 => "FT3",
            Code::Ft4 => "FT4",
            Code::Ft5 => "FT5",
            Code::Ft6 => "FT6",
            Code::Ft7 => "FT7",
            Code::Fm1 => "FM1",
            Code::Fm2 => "FM2",
            Code::Fm3 => "FM3",
            Code::Fm4 => "FM4",
            Code::Fm5 => "FM5",
            Code::Fv1 => "FV1",
            Code::Fv2 => "FV2",
            Code::Fv3 => "FV3",
            Code::Fv4 => "FV4",
            Code::Fv5 => "FV5",
            Code::Fv6 => "FV6",
            Code::Kt1 => "KT1",
            Code::Kt2 => "KT2",
            Code::Kt3 => "KT3",
            Code::Kt4 => "KT4",
            Code::Kt5 => "KT5",
            Code::Mf1 => "MF1",
            Code::Mf2 => "MF2",
            Code::Sw1 => "SW1",
            Code::Sw2 => "SW2",
            Code::Sw3 => "SW3",
            Code::Sw4 => "SW4",
            Code::Ur1 => "UR1",
            Code::Tp1 => "TP1",
            Code::Tp2 => "TP2",
            Code::Tp3 => "TP3",
            Code::Memory => "memory",
            Code::Read => "read",
            Code::Write => "write",
        }
    }

    /// The code that is printed as this word.
    pub fn read(word: &str) -> Option<Code>
        ensures { result ≡ code_of word.now }
    {
        ALL.iter().copied().find(|code| code.spelling() == word)
    }

    /// The explanation of the code: a line with the code and its cause, the rule, and, if there is one, an input that
    /// has it and the same input corrected.
    #[tactic(auto, using(crate::proofs::TextLemmas::begins_with_code))]
    pub fn text(self) -> &'static str
        ensures is { result.now ≡ text_of self }
        ensures begins { begins_with (spelling self ++ codes ": ") result.now ≡ true }
    {
        match self {
            Code::Tf1 => TF1,
            Code::Tf2 => TF2,
            Code::Tf3 => TF3,
            Code::Tf4 => TF4,
            Code::Tf5 => TF5,
            Code::Tf6 => TF6,
            Code::Tf7 => TF7,
            Code::Tf8 => TF8,
            Code::Tf9 => TF9,
            Code::Tf10 => TF10,
            Code::Tf11 => TF11,
            Code::Tf12 => TF12,
            Code::Pf1 => PF1,
            Code::Pf2 => PF2,
            Code::Pf3 => PF3,
            Code::Pf4 => PF4,
            Code::Pf5 => PF5,
            Code::Pf6 => PF6,
            Code::Pf7 => PF7,
            Code::Pf8 => PF8,
            Code::Pf9 => PF9,
            Code::Sf1 => SF1,
            Code::Sf2 => SF2,
            Code::Sf3 => SF3,
            Code::Sf4 => SF4,
            Code::Sf5 => SF5,
            Code::Sf6 => SF6,
            Code::Sf7 => SF7,
            Code::Ar1 => AR1,
            Code::Ar2 => AR2,
            Code::Ar3 => AR3,
            Code::Ar4 => AR4,
            Code::Nd1 => ND1,
            Code::Nd2 => ND2,
            Code::Nd3 => ND3,
            Code::Nd4 => ND4,
            Code::Nd5 => ND5,
            Code::Nd6 => ND6,
            Code::Nd7 => ND7,
            Code::Ft1 => FT1,
            Code::Ft2 => FT2,
            Code::Ft3 => FT3,
            Code::Ft4 => FT4,
            Code::Ft5 => FT5,
            Code::Ft6 => FT6,
            Code::Ft7 => FT7,
            Code::Fm1 => FM1,
            Code::Fm2 => FM2,
            Code::Fm3 => FM3,
            Code::Fm4 => FM4,
            Code::Fm5 => FM5,
            Code::Fv1 => FV1,
            Code::Fv2 => FV2,
            Code::Fv3 => FV3,
            Code::Fv4 => FV4,
            Code::Fv5 => FV5,
            Code::Fv6 => FV6,
            Code::Kt1 => KT1,
            Code::Kt2 => KT2,
            Code::Kt3 => KT3,
            Code::Kt4 => KT4,
            Code::Kt5 => KT5,
            Code::Mf1 => MF1,
            Code::Mf2 => MF2,
            Code::Sw1 => SW1,
            Code::Sw2 => SW2,
            Code::Sw3 => SW3,
            Code::Sw4 => SW4,
            Code::Ur1 => UR1,
            Code::Tp1 => TP1,
            Code::Tp2 => TP2,
            Code::Tp3 => TP3,
            Code::Memory => MEMORY,
            Code::Read => READ,
            Code::Write => WRITE,
        }
    }
}
