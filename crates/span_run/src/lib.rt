//! Runs scripts of commands over named texts: from the bytes of a script to the bytes of its replies.
//!
//! ```text
//! let status = run(
//!     &rt, alloc, &words, &mut script, &mut out, &mut shelf, &gate, &mut pairs, &mut places, &mut looks,
//! );
//! let mut session = Session::new(alloc);                   // or a line at a time
//! let told = session.line(
//!     &rt, 1, b"text d abc", workers, &mut out, &mut shelf, &gate, &mut pairs, &mut places, &mut looks,
//! )?;
//! ```
//!
//! A script has at most 2^24 bytes, and is read completely before its first line is executed. A rejected line changes
//! nothing, and the run goes on. A failure of the source, the sink or the file store, or an allocation failure, ends
//! the run: what was written is then a prefix of the whole output.
//!
//! The maximum cost of a line is defined in `span_language`, in table lookups, node constructions and computed tables.
//! Memory is allocated for the script, the nodes, the names, the queries with their tables, and the working memory of
//! one line.
//!
//! Queries are evaluated as in M. L. Schmid and N. Schweikardt, *Spanner Evaluation over SLP-Compressed Documents*,
//! PODS 2021. Texts are edited as in their *Query Evaluation over SLP-Represented Document Databases with Complex
//! Document Editing*, PODS 2022.
//!
//! Proved: The main theorem (`run`).
#![tactic(auto)]

mod run_script;

pub use run_script::{Status, run};
pub use span_language::{Stop, Told};
pub use span_session::Session;
pub use span_words::usage_text;
