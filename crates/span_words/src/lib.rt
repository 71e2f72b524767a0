//! The arguments of the command line, read by `clap`.
//!
//! ```text
//! let options = read_words(alloc, &words)?;                // the arguments --workers 4
//! assert_eq!((options.workers, options.states, options.demo), (4, 128, None));
//! let text = usage_text(alloc, &words)?;                   // why the arguments are rejected, or empty
//! ```
//!
//! Arguments are accepted exactly if `clap` accepts them for the three options of the program, `--workers 1..64`, `--states
//! 128..1024` and `--demo 1..46`. A law says that accepted ones have one reading. Time and memory are linear in the
//! arguments.
//!
//! Proved: Command-line arguments: exactly what the command takes (`read_words`). The text for rejected arguments
//! begins with `spanbase: Usage` (`usage_text`).
//!
//! Tested: The rest of that text.
#![tactic(auto)]

mod command;
pub mod law;
mod usage;
mod words;

pub use usage::usage_text;
pub use words::{Options, WordsRefusal, read_words};
