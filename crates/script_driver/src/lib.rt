//! Executes the lines of a script that arrives in pieces of any size, each as soon as its newline has come.
//!
//! ```text
//! let mut progress = Progress::new(alloc, states);
//! progress.feed(lent, piece, &mut io, &mut meters)?;       // for each piece
//! let refused = progress.finish(lent, &mut io, &mut meters)?;
//! ```
//!
//! The lines are those of the whole script, however it is cut into pieces: a script in one piece and the lines of a
//! conversation are executed in the same way. A rejected line changes nothing, and the script goes on. A failure of the
//! sink or the file store, or an allocation failure, stops it: what was written is then a prefix of the whole output.
//!
//! A line takes the time that span_language allows for it, and cutting takes time linear in the number of bytes. At
//! most 65,537 bytes of a line are stored.
//!
//! Proved: The lines of a script, in any pieces, are executed in order, each when its newline has come
//! (`Progress::feed`, `Progress::finish`).
#![tactic(auto)]

mod lines;
mod progress;

pub use progress::Progress;
