//! The program `fabric`: an InfiniBand subnet manager over a simulated fabric.
//!
//! [`fabric_cli::serve_given`] does all the work, for any arguments, any files and any two writers; `main` gives it those
//! of the process.
#![tactic(auto)]

use fabric_cli::{MachineFiles, serve_given};
use std::env;
use std::process::ExitCode;

fn main(rt: HostRuntime) -> ExitCode {
    serve_given(
        rt.alloc(),
        env::args(&rt),
        &mut MachineFiles::new(&rt),
        &mut rt.stdout(),
        &mut rt.stderr(),
    )
}
