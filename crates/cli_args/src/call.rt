//! What a command line asks for.

ghost use Rattle.std.specs.Prelude.{◌≡◌};
ghost use Rattle.cli_args.specs.declared.call.Refused.TheVariants.{NoMemory as IsNoMemory};

use code_texts::Code;
use std::alloc::{AllocError, AllocFailed};

/// A command of the program.
#[derive(Clone, Copy)]
pub enum Subcommand {
    /// `check`, which lists a subnet.
    Check,
    /// `shares`, which lists which ports may talk to each other in it.
    Shares,
    /// `diff`, which lists what another partition file changes.
    Diff,
    /// `tables`, which prints its LFTs and MFTs.
    Tables,
    /// `keys`, which prints its P_Key tables.
    Keys,
    /// `trace`, which prints the path of a packet.
    Trace,
    /// `graph`, which draws its fabric.
    Graph,
    /// `run`, which runs a script in it.
    Run,
    /// `smp`, which answers SMPs at its SM port.
    Smp,
    /// `manage`, which brings up a fabric by SMPs that it sends.
    Manage,
    /// `compare`, which compares two scripts for a port.
    Compare,
    /// `cuts`, which prints what the loss of cables would do.
    Cuts,
    /// `import`, which makes a topology from a real fabric.
    Import,
    /// `audit`, which judges the routes of a real fabric.
    Audit,
    /// `load`, which prints how many pairs go over each cable.
    Load,
    /// `audit-keys`, which compares the P_Key tables of a real fabric with a partition file.
    AuditKeys,
    /// `explain`, which explains codes.
    Explain,
}

/// What to do in a subnet: `W` is an argument, `S` a file that is read whole, and `R` one that is read while it is carried out.
#[derive(Drop)]
pub enum Work<W, S, R> {
    /// List its ports and the members of its partitions.
    Check {
        /// Whether routes are to be balanced.
        balanced: bool,
    },
    /// List which ports may talk to each other; of one port alone, if it is given.
    Shares(Option<W>),
    /// List what another partition file changes; none for `-`.
    Diff(Option<S>),
    /// Look at what its fabric holds.
    Inspect {
        /// What to look at.
        what: Inspection<W>,
        /// The script that runs before; without one, the state is that after bring-up.
        script: Option<S>,
        /// Whether routes are to be balanced.
        balanced: bool,
    },
    /// Print what the loss of cables between switches would do.
    Cuts {
        /// What to print about it.
        view: CutView<W>,
        /// Whether routes are to be balanced.
        balanced: bool,
    },
    /// Run a script.
    Run(R),
    /// Answer SMPs at the SM port.
    Smps {
        /// The script that runs before; without one, the state is that after bring-up.
        script: Option<S>,
        /// The SMPs.
        smps: R,
    },
    /// Bring up the fabric that answers the SMPs that are written.
    Manage {
        /// The replies to them.
        replies: R,
        /// Whether routes are to be balanced.
        balanced: bool,
    },
    /// Compare two scripts for a port.
    Compare {
        /// The first script.
        first: S,
        /// The second.
        second: S,
        /// The argument that names the port.
        port: W,
    },
}

/// What to do, with the names of its files.
pub type NamedWork<'a> = Work<&'a str, &'a str, &'a str>;

/// What to print about the loss of cables.
#[derive(Clone, Copy)]
pub enum CutView<W> {
    /// What the loss of each cable between switches would do.
    All,
    /// What the loss of the cable between two ports would do.
    One {
        /// The argument that names the one port.
        first: W,
        /// The argument that names the other.
        second: W,
    },
    /// A picture, in which the cables that the fabric cannot do without are red.
    Picture,
}

/// What to look at in the fabric of a subnet.
#[derive(Clone, Copy)]
pub enum Inspection<W> {
    /// The LFTs and MFTs of its switches.
    Tables,
    /// The P_Key tables of its ports.
    Keys,
    /// The path of a packet from a port to a LID, with a P_Key.
    Trace(W, u16, u16),
    /// A picture of its nodes and cables.
    Graph,
    /// How many pairs go over each cable.
    Load {
        /// Whether also pairs count that may not talk.
        all: bool,
    },
    /// A picture, in which the width and colour of a cable show how many pairs go over it.
    LoadGraph {
        /// Whether also pairs count that may not talk.
        all: bool,
    },
}

/// What to print of the LFTs of a real fabric.
#[derive(Clone, Copy)]
pub enum DumpView {
    /// Whether its routes are safe.
    Audit {
        /// Whether each line by switch and LID is to be printed.
        all: bool,
    },
    /// How many pairs go over each cable.
    Load,
}

/// What an audit takes beside the LFTs of a real fabric.
#[derive(Clone, Copy)]
pub enum ThirdFile {
    /// MFTs: multicast is judged too.
    Mfts {
        /// Whether each line by switch and LID is to be printed.
        all: bool,
    },
    /// SL-to-VL mapping tables and path records: routes are judged by virtual lanes.
    Lanes {
        /// Whether each line by switch and LID is to be printed.
        all: bool,
    },
}

/// What a command line asks for.
#[derive(Drop)]
pub enum Call<A, W> {
    /// Something in a subnet.
    Subnet(A),
    /// Make a topology from what `ibnetdiscover` printed of a real fabric.
    Import {
        /// The file that has it.
        netdiscover: W,
        /// The GUID of the SM port, if it is given.
        manager: Option<u64>,
        /// Whether the top switches become roots.
        roots: bool,
    },
    /// Look at the LFTs of a real fabric.
    Dumped {
        /// What to print of them.
        view: DumpView,
        /// What `ibnetdiscover` printed of it, or its topology.
        fabric: W,
        /// The file that has its LFTs.
        dump: W,
    },
    /// Judge the LFTs of a real fabric, and what a third file has.
    AuditThree {
        /// What that file has.
        third: ThirdFile,
        /// What `ibnetdiscover` printed of it, or its topology.
        fabric: W,
        /// The file that has its LFTs.
        dump: W,
        /// The third file.
        file: W,
    },
    /// Compare the P_Key tables of a real fabric with a partition file.
    AuditKeys {
        /// What `ibnetdiscover` printed of it.
        netdiscover: W,
        /// What `smpquery` printed of its ports.
        pkeys: W,
        /// The partition file, or none for `-`.
        partitions: Option<W>,
        /// The GUID of the SM port, if it is given.
        manager: Option<u64>,
        /// Whether each pair of end ports is to be listed.
        all: bool,
    },
    /// Explain a code, or list all codes.
    Explain(Option<Code>),
    /// Print the version.
    Version,
}

/// What is asked for in a subnet, with the names of the files.
#[derive(Drop)]
pub struct Asked<'a> {
    /// The topology.
    pub topology: &'a str,
    /// The partition file, or none for `-`.
    pub partitions: Option<&'a str>,
    /// What to do in the subnet of these.
    pub work: NamedWork<'a>,
}

/// Why arguments are refused.
#[derive(Drop)]
pub enum Refused<T> {
    /// Out of memory.
    NoMemory,
    /// The arguments are refused, or help is requested: the text of that.
    Words(T),
}

impl<T> From<AllocError> for Refused<T> {
    ghost from_gives = { λ _ refused. refused ≡ IsNoMemory };

    fn from(_error: AllocError) -> Refused<T> {
        Refused::NoMemory
    }
}

impl<T, V: Drop> From<AllocFailed<V>> for Refused<T> {
    ghost from_gives = { λ _ refused. refused ≡ IsNoMemory };

    fn from(_error: AllocFailed<V>) -> Refused<T> {
        Refused::NoMemory
    }
}
