//! The program: the real files and the standard output, handed to the one call that does all.
//!
//! Built are `prom_front replay SCRIPT`, which runs the script's lines and prints the replies and then the journal, with the options
//! `--limit N`, `--window DURATION`, `--interval DURATION`, `--shards N`, `--extents N` and `--journal N`, and
//! `prom_front eval FILE QUERY START END STEP`, which prints the code and the body of a query over one file. Every query is evaluated,
//! or refused in its answer. `prom_front load SEED` runs a generated session and prints the sums of its answers. For other words it prints `refused: not built` and ends with status 9. `pf_top::run` says which status
//! comes when.
#![tactic(auto)]

ghost use Rattle.std.specs.Prelude.{◌≡◌, IfOk, vec_len};

use pf_base::Text;
use pf_io::{DiskFiles, MemDoors, OpenGate, StdSink, SteadyHop};
use std::alloc::{AllocError, Global};
use std::process::ExitCode;
use std::{env, io};

/// One hop for each actor: sixteen clients, and sixteen queriers or step workers.
const ACTORS: usize = 32;

/// The status of want of memory.
const OUT_OF_MEMORY: u8 = 6;

/// The bytes of a block that moves the thresholds of glibc's `malloc`.
const LARGE: usize = 16_777_216;

/// Takes a large block, into which nothing is written, and lets it go. From then on glibc's `malloc` takes smaller blocks from its heap,
/// and gives the heap's end back to the kernel only where twice as much is free. Else the kernel would clear the pages of each long
/// answer anew. Where such a block isn't there, all stays as it was.
fn raise_thresholds(alloc: Global) {
    drop(Vec::<u8>::with_capacity(alloc, LARGE));
}

/// The program's words, without its name. A word that is not UTF-8 makes the list empty, which is no form of words.
fn words(rt: HostRuntime) -> io::Result<Vec<Text>> {
    let mut words = Vec::new(rt.alloc());
    let args = match env::args(&rt) {
        Ok(args) => args,
        Err(error) if error.kind() == io::ErrorKind::InvalidData => return Ok(words),
        Err(error) => return Err(error),
    };
    for word in args.skip(1) {
        words.push(Text::take(word))?;
    }
    Ok(words)
}

fn hops(alloc: Global) -> Result<Vec<SteadyHop>, AllocError>
    ensures { IfOk result (λ v. vec_len v ≡ 32) }
{
    let mut hops = Vec::with_capacity(alloc, ACTORS)?;
    for _actor in 0..ACTORS {
        hops.push(SteadyHop)?;
    }
    Ok(hops)
}

fn main(rt: HostRuntime) -> ExitCode {
    let alloc = rt.alloc();
    raise_thresholds(alloc);
    let (Ok(words), Ok(hops)) = (words(rt), hops(alloc)) else {
        return ExitCode::from(OUT_OF_MEMORY);
    };
    let mut files = DiskFiles::new(rt);
    let mut out = StdSink::new(rt);
    let mut doors = MemDoors::new(Vec::<()>::new(alloc));
    let status = pf_top::run(
        &rt,
        alloc,
        words.as_slice(),
        &mut files,
        &mut out,
        hops,
        &OpenGate,
        &mut doors,
    );
    ExitCode::from(status)
}
