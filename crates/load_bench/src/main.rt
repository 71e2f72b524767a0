//! Times the loading of a generated log of 16 MB in pieces of 64 KB. The figures go to standard error.
//!
//! ```text
//! rt try        # one line: B bytes, N nodes, T ns
//! ```
//!
//! It isn't part of the database. It shows the result of `pair_loader` on a text with some repetition, in bytes, nodes
//! and nanoseconds. The text is made while it runs, from one seed, so each run loads the same bytes. It takes
//! memory for one piece and for the nodes.
//!
//! Proved: Only safety and termination.
#![tactic(auto)]

ghost use Rattle.std.specs.Prelude.{◌≡◌, ◌<◌};

use node_store::Store;
use pair_loader::Loader;
use span_types::Steps;
use std::alloc::{AllocError, Global};
use std::io;
use std::marker::Brand;
use std::sync::ledger::{Blank, Ledger};
use std::time::Instant;

const PIECES: usize = 256;

const PIECE: usize = 65_536;

// The next number of a generator whose upper bits are used.
fn next(seed: u64) -> u64 {
    seed.wrapping_mul(6_364_136_223_846_793_005)
        .wrapping_add(1_442_695_040_888_963_407)
}

// Appends a line of a web server's log to the text.
fn push_line(alloc: Global, text: &mut Vec<u8>, seed: u64) -> Result<(), AllocError> {
    let host = (seed >> 40) % 64;
    let second = (seed >> 34) % 60;
    let page = (seed >> 50) % 300;
    let size = (seed >> 20) % 5000;
    let line = format!(in alloc;
        "10.0.3.{host} - - [12/Mar/2024:10:00:{second} +0000] \"GET /item/{page} HTTP/1.1\" 200 {size}\n"
    )?;
    text.extend_from_slice(line.as_bytes())
}

// A log of one piece or a little more.
fn log(alloc: Global, seed: &mut u64) -> Result<Vec<u8>, AllocError> {
    let mut text = Vec::new(alloc);
    for _ in 0..800u32 {
        *seed = next(*seed);
        push_line(alloc, &mut text, *seed)?;
    }
    Ok(text)
}

fn measure<L: Ledger>(rt: &HostRuntime, blank: Blank) -> io::Result<()>
    requires name { blank.name ≡ L.name }
    requires parts { blank.parts ≡ L.parts }
    requires some { 0 < L.parts }
{
    let alloc = rt.alloc();
    let mut pairs = Steps::<L>::new(blank);
    let mut store = Store::new(alloc);
    let Ok(mut loader) = Loader::new(alloc) else {
        return Ok(());
    };
    let mut seed = 1;
    let mut count: usize = 0;
    let mut nanos: u128 = 0;
    for _ in 0..PIECES {
        let Ok(text) = log(alloc, &mut seed) else {
            return Ok(());
        };
        let piece = text.as_slice();
        if piece.len() > PIECE || count > 1 << 40 {
            return Ok(());
        }
        let start = Instant::now(rt)?;
        let Ok(()) = loader.feed(&mut store, piece, &mut pairs) else {
            return Ok(());
        };
        nanos = nanos.wrapping_add(start.elapsed(rt)?.as_nanos());
        count += piece.len();
    }
    if loader.finish(&mut store, &mut pairs).is_err() {
        return Ok(());
    }
    let nodes = store.count();
    eprintln!(rt; "{count} bytes, {nodes} nodes, {nanos} ns")
}

fn main(rt: HostRuntime) -> io::Result<()> {
    measure::<Brand>(&rt, Blank::new(1))
}
