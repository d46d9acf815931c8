//! What hops, and the two ends of a path, read and write of an SMP.

ghost use Rattle.std.specs.Prelude.{◌≡◌, ◌+◌, ◌<◌, ℕ, slice_set};
ghost use Rattle.smp_route.specs.HopFields.{pointer, count, initial_port, is_outgoing, return_port, turned_round, with_pointer, with_return_port};

use mad_layout::{Mad, get_bits, put_bits};

/// How many hops a path has at most.
pub const MAX_HOPS: u8 = 63;

const POINTER: usize = 6;

const COUNT: usize = 7;

const INITIAL_PATH: usize = 128;

const RETURN_PATH: usize = 192;

/// Whether the SMP is on its way from the subnet manager, as its direction bit says.
pub fn is_outgoing(smp: &Mad) -> bool
    ensures { result ≡ is_outgoing smp.now }
{
    get_bits::<32, 1>(smp) == 0
}

/// Sets the direction bit: the SMP is on its way back.
pub fn turn_round(smp: &mut Mad)
    ensures { smp.new ≡ turned_round smp.old }
{
    put_bits::<32, 1>(smp, 1);
}

/// How far along its path the SMP is.
pub fn pointer_of(smp: &Mad) -> u8
    ensures { result ≡ pointer smp.now }
{
    smp[POINTER]
}

/// How many hops its path has.
pub fn count_of(smp: &Mad) -> u8
    ensures { result ≡ count smp.now }
{
    smp[COUNT]
}

/// The port by which that hop leaves; hops count from 1.
pub fn initial_port_of(smp: &Mad, hop: u8) -> u8
    requires { hop < 64 }
    ensures { result ≡ initial_port smp.now hop }
{
    smp[INITIAL_PATH + hop as usize]
}

/// The port by which that hop came in.
pub fn return_port_of(smp: &Mad, hop: u8) -> u8
    requires { hop < 64 }
    ensures { result ≡ return_port smp.now hop }
{
    smp[RETURN_PATH + hop as usize]
}

/// Moves the SMP along its path.
pub fn set_pointer(smp: &mut Mad, pointer: u8)
    ensures { smp.new ≡ with_pointer pointer smp.old }
{
    smp[POINTER] = pointer;
}

/// Notes the port by which that hop came in.
pub fn set_return_port(smp: &mut Mad, hop: u8, port: u8)
    requires { hop < 64 }
    ensures { smp.new ≡ with_return_port hop port smp.old }
{
    smp[RETURN_PATH + hop as usize] = port;
}
