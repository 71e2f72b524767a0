//! Images: a binary format for documents and their shared nodes.
//!
//! ```text
//! let image = write(alloc, &docs, &store)?;                // image.bytes, of image.nodes nodes
//! let again = read(alloc, &image.bytes, &mut store, &mut pairs)?;       // the same documents
//! read(alloc, b"SLPI\x03", &mut store, &mut pairs);        // Err(ImageRefusal::Version)
//! ```
//!
//! The size of an image is that of the documents' grammar, not that of their texts. Each node below a root is stored
//! once: 2 bytes for a byte, and 17 bytes for a pair. `write` writes version 1, whose pairs are balanced. Version 2
//! also has runs, and its pairs need not be balanced, so it can hold any straight-line grammar. `read` accepts bytes
//! from any source: it reports the first error, and allocates for records only as they come, whatever their count says.
//!
//! Reading takes one node construction for a pair of version 1, at most 205 for a pair of version 2, and at most
//! 206·(d-1) for a run whose count has d binary digits. `write` takes time linear in the number of nodes in the store
//! and of documents. It allocates the image and 10 bytes for each node of the store.
//!
//! The grammars of version 2 are balanced while they are read, by concatenations of balanced trees (W. Rytter,
//! *Application of Lempel–Ziv factorization to the approximation of grammar-based compression*, Theoretical Computer
//! Science 302, 2003).
//!
//! Proved: An image's documents, or the first of twelve faults, and the cost (`read`). What is written is an image of
//! the documents, with each node reached and distinct (`write`).
//!
//! Tested: Error texts.
#![tactic(auto)]

mod bytes;
mod documents;
mod fields;
pub mod law;
mod reading;
mod records;
mod refusal;
mod writing;

pub use reading::{begins_image, read};
pub use refusal::ImageRefusal;
pub use writing::{Image, write};
