//! Demo scripts: small scripts whose documents are very long.
//!
//! ```text
//! let script = demo(alloc, 46)?;                           // the longest document has 2^48 - 1 bytes
//! ```
//!
//! A script of 9 + n lines doubles a text n times and then queries the result. It shows what a compressed text is for:
//! 55 lines make a document that no disk holds. The script is made in time and memory linear in its lines, which are
//! at most 55. That n doublings of a text are n rules is the first example of a straight-line
//! grammar (as in M. Lohrey, *Algorithmics on SLP-compressed strings: a survey*, 2012).
//!
//! Proved: The demo script (`demo`).
#![tactic(auto)]

ghost use Rattle.std.specs.Prelude.{◌≡◌, ◌^◌, ◌≤◌, IfOk, length};
ghost use Rattle.text_gen.specs.Demo.{demo_text};

use span_types::NoMemory;
use std::alloc::Global;

/// The lines after the doublings.
const LAST_LINES: &[u8] = b"let b = delete(a,2,3)\n\
    query q .*$x{aa}.*\n\
    list q b limit 3\n\
    let c = insert(b,a,2)\n\
    query r .*$x{b+}$y{a}.*\n\
    list r c limit 2\n\
    list r c after x=[5,6),y=[6,7) limit 1\n\
    names\n";

/// The script that doubles a document `n` times, from 1 to 46, edits it and lists tuples of the edited texts.
/// Its longest document has 2^(n+2) - 1 bytes. The script has 9 + `n` lines, and is made in time linear in them.
///
/// # Errors
///
/// `NoMemory` if allocation fails.
#[tactic(auto, using(crate::proofs::Script::none_yet, crate::proofs::Script::one_more))]
pub fn demo(alloc: Global, n: u8) -> Result<Vec<u8>, NoMemory>
    requires { (1 ≤ n) × (n ≤ 46) }
    ensures script { IfOk result (λ script. script.items ≡ demo_text n) }
    ensures short { IfOk result (λ script. length script.items ≤ 2 ^ 24) }
{
    let mut script = b"text a ab\n".to_vec(alloc)?;
    'doublings: for _ in 0..n {
        script.extend_from_slice(b"let a = concat(a,a)\n")?;
    }
    script.extend_from_slice(LAST_LINES)?;
    Ok(script)
}

#[cfg(test)]
mod tests;
