//! The answers of an automaton on a compressed text, in mark order, each found from the one before.
//!
//! `Answers::start(alloc, view, &dfa, root, &mut looks)?` is an iterator before the first answer, `seek` one after any
//! tuple, and each `next(&mut looks)` returns the next answer. It makes at most B(k, n) table lookups, and fewer for a
//! near answer. It allocates nothing: the memory for the marks of an answer and for the nodes ahead of them is
//! allocated at the start. `reseek` moves the iterator to after any tuple, with the memory that it has.
//!
//! An automaton has at most 1,024 states. A set of states has one, two or 16 words of 64 bits, the least of these widths
//! that has a bit for each state of the automaton. The width is chosen at the start.
//!
//! An answer is a text with marks at some letters. Of the last answer each mark is kept, with its letter, the state
//! before the letter, and the node that comes next: the first of the nodes ahead, which have all letters after this one
//! below them.
//!
//! ```text
//!          root              The path down to the mark m turns left twice, so r' and then r are ahead of m. Each node
//!         /    \             ahead names the one that comes next, and the nodes ahead of all marks are in one list: a
//!        o      r            later mark n, below r', has r ahead of it too, and adds to the list only what is beside
//!       / \                  its own path below r'.
//!      l   o                 `next` lowers the last mark that can be lowered, with what is kept alone, and removes those
//!         / \                after it and what they added. Then it continues after the mark: over each node ahead without
//!        m   r'              marks if the greatest marks of the rest allow it, and otherwise down to the first mark below.
//! ```
//!
//! A tuple that comes after an answer first differs from it at a position where the answer has a mark, so no other
//! letter is tried. A cursor's marks are kept in the same way, as far as a run of the automaton follows them.
//!
//! For readers of M. L. Schmid and N. Schweikardt, Spanner evaluation over SLP-compressed documents (PODS 2021) and
//! Query evaluation over SLP-represented document databases with complex document editing (PODS 2022). A node is a
//! nonterminal of the grammar, and a lookup returns its rule. Its table is their matrix over pairs of states, which
//! says whether the node's text leads from one state to the other not at all, without marks, or with some. They list
//! trees of rules and pairs of states whose leaves are the marked letters. Here the tree of one answer is kept, as the
//! paths down to its marks:
//!
//! ```text
//!          o            Over the pair o a run leads from the state p into the goals G: of the states that it may come to
//!        /   \          after o, those from which the rest is accepted. Between l and r it is in one of the set B:
//!   p   l  B  r   G     of the states after l, those from which r leads into G. If no run with marks over l leads into
//!                       B, l is passed, and the first mark is below r. Otherwise it is below l, and r is ahead of it: the
//!                       goals of l are B, and those of r are G.
//! ```
//!
//! So each step down stays on a tree with a mark, and none is made in vain, as in F. Florenzano, C. Riveros, M. Ugarte,
//! S. Vansummeren and D. Vrgoc, Constant delay algorithms for regular document spanners, PODS 2018. Some states are
//! known to be quiet: from them the rest is accepted without marks and only so. When the walk reaches one, the answer is
//! complete, and the nodes ahead aren't passed.
//!
//! Proved: The first answer after the cursor, or none; whether there is one; whether a tuple is one; the greatest end of the
//! answers with a start; the lookups of each (`Answers`, `nonempty`, `has`). Whether a tuple has a mark between two
//! positions (`is_marked_between`).
//!
//! Tested: That `next` allocates nothing.
#![tactic(auto)]

mod agreement;
mod ahead;
mod answers;
mod ends;
mod enumeration;
mod follow;
mod input;
mod onward;
mod sets;
mod states;
mod trail;
mod walk;

pub use answers::{Answers, has, nonempty};
pub use walk::is_marked_between;
