//! Runs of the program with files and outputs in memory.

use crate::memory::{Manner, Refusal, Shelf, Sink, Source};
use fabric_cli::serve;
use std::alloc::{AllocError, Global};

/// The result of a run of the program.
#[derive(Drop)]
pub struct Answer {
    pub status: u8,
    pub out: Vec<u8>,
    pub err: Vec<u8>,
    pub opened: Option<Vec<String>>,
}

/// What the program returns and prints for these arguments and files.
pub fn reported<'a>(
    alloc: Global,
    words: &[&str],
    files: &'a [(&'a str, Source<'a>)],
    out: &mut Sink,
) -> Result<Answer, AllocError> {
    let mut given = Vec::new(alloc);
    for word in words {
        given.push(String::from_str(alloc, word)?)?;
    }
    let mut shelf = Shelf {
        alloc,
        files,
        names: Some(Vec::new(alloc)),
    };
    let mut err = Vec::new(alloc);
    let status = serve(alloc, given.as_slice(), &mut shelf, out, &mut err);
    let Shelf { names, .. } = shelf;
    Ok(Answer {
        status,
        out: out.bytes.clone()?,
        err,
        opened: names,
    })
}

pub fn read_so(manner: Manner, bytes: &[u8]) -> Source<'_> {
    Source { bytes, manner }
}

pub fn plain(bytes: &[u8]) -> Source<'_> {
    read_so(Manner::Plain, bytes)
}

pub fn sink(alloc: Global, writes: usize, refusal: Refusal, flushes: bool) -> Sink {
    Sink {
        bytes: Vec::new(alloc),
        writes,
        refusal,
        flushes,
    }
}

pub const RUN: [&str; 5] = ["fabric", "run", "net.topo", "-", "sends"];

/// What it returns and prints for a run of a topology and a script.
pub fn reported_of(alloc: Global, topology: &str, script: &str) -> Result<Answer, AllocError> {
    let files = [
        ("net.topo", plain(topology.as_bytes())),
        ("sends", plain(script.as_bytes())),
    ];
    let mut out = sink(alloc, 1000, Refusal::Broken, true);
    reported(alloc, &RUN, &files, &mut out)
}
