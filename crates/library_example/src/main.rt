//! An example that uses the crates as a library: a listing without the script language, and a session with its own sink
//! and file store.
//!
//! ```text
//! rt try        # the listing, and what the session replied
//! ```
//!
//! It is not part of the database; docs/LIBRARY.md explains it. `listing` loads a text and lists the answers of a
//! formula. `outside` has a sink that counts the lines of the replies, and a file store whose files are constants of
//! the program. The example takes little time and memory.
//!
//! Proved: Only safety and termination.
//!
//! Tested: Its stored run.
#![tactic(auto)]

mod listing;
mod outside;

ghost use Rattle.std.specs.Prelude.{◌≡◌, ◌<◌, ◌≤◌, ◌^◌};

use list_all::OnePage;
use listing::{Trouble, first_answers};
use outside::{Replies, Shipped};
use span_run::Session;
use span_types::{Span, Steps};
use std::alloc::Global;
use std::io;
use std::io::Write;
use std::marker::Brand;
use std::sync::ledger::{Blank, Ledger};
use std::thread::Threads;
use work_gate::OpenGate;

/// The lines of the session. The file store has the file `motd` and doesn't accept any file, so the last line is
/// rejected.
const LINES: [&[u8]; 6] = [
    b"load d motd",
    b"query q (.*\\n)?$word{[A-Z][a-z]*}[^a-z].*",
    b"list q d limit 2",
    b"let e = delete(d,1,7)",
    b"show e 1 6",
    b"save copy",
];

/// Executes the lines in a new session until one is stopped, and returns the replies.
fn answered<R: Threads + Sync, P: Ledger, T: Ledger, L: Ledger>(
    rt: &R,
    alloc: Global,
    pairs: Blank,
    places: Blank,
    looks: Blank,
) -> Replies
    requires pairs { (pairs.name ≡ P.name) × (pairs.parts ≡ P.parts) × (0 < P.parts) }
    requires places { (places.name ≡ T.name) × (places.parts ≡ T.parts) × (0 < T.parts) }
    requires looks { (looks.name ≡ L.name) × (looks.parts ≡ L.parts) × (0 < L.parts) }
{
    let mut pairs = Steps::<P>::new(pairs);
    let mut places = Steps::<T>::new(places);
    let mut looks = Steps::<L>::new(looks);
    let mut session = Session::new(alloc);
    let mut replies = Replies::new(alloc);
    let mut shelf = Shipped::new();
    let mut number = 1u64;
    for line in LINES {
        let told = session.line(
            rt,
            number,
            line,
            1,
            &mut replies,
            &mut shelf,
            &OpenGate,
            &mut pairs,
            &mut places,
            &mut looks,
        );
        if told.is_err() {
            return replies;
        }
        number = number.saturating_add(1);
    }
    replies
}

/// Prints the span of each answer's only variable.
fn print_spans(rt: &HostRuntime, found: &Result<OnePage, Trouble>) -> io::Result<()> {
    match found {
        Ok(page) => {
            for tuple in page.tuples() {
                if tuple.count() > 0 {
                    if let Some(Span { start, end }) = tuple.span(0) {
                        println!(rt; "[{start},{end})")?;
                    }
                }
            }
            println!(rt; "more: {}", page.more())
        }
        Err(why) => println!(rt; "{why}"),
    }
}

fn main(rt: HostRuntime) -> io::Result<()> {
    let found = first_answers::<HostRuntime, Brand>(
        &rt,
        rt.alloc(),
        b"abracadabra",
        b".*$x{a.}.*",
        3,
        Blank::new(1),
    );
    print_spans(&rt, &found)?;
    let replies = answered::<HostRuntime, Brand, Brand, Brand>(
        &rt,
        rt.alloc(),
        Blank::new(1),
        Blank::new(1),
        Blank::new(1),
    );
    io::writer(&rt).write_all(replies.text())?;
    println!(rt; "{} lines", replies.lines())
}
