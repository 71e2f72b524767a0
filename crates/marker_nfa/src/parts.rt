//! The automaton of a formula from those of its parts (Glushkov 1961).

ghost use Rattle.formula_law.specs.Positions.{IsNull};
ghost use Rattle.marker_nfa.specs.Parts.{AddsFollow, AddsUnless, AreShortHops, CoversPart, IsHopIn, IsPart, IsSmall, MayFollow, MayName, letters_in};
ghost use Rattle.span_types.specs.FormulaTree.{FormulaTree, Set, Empty, Cat, Alt, Star, Opt, Capture, tree_of, sets, var_bound};
ghost use Rattle.std.specs.Bool.{OnTrue};
ghost use Rattle.std.specs.Prelude.{◌≡◌, ◌+◌, ◌*◌, ◌≤◌, ◌++◌, ◌<◌, ◌∷◌, [], ℕ, Bool, List, IfOk, length};

use crate::lists::{
    Hop, push_all_hops, push_all_raised, push_all_sums, push_ends, push_marks, push_new,
    push_raised, push_sums, put,
};
use crate::nfa::End;
use span_types::{ByteSet, Formula, NoMemory};
use std::alloc::Global;
use std::boxed::Box;
use std::mem::swap;

/// The marks and occurrences at the borders of a part of a formula.
#[derive(Drop)]
pub struct Part {
    /// The marks with which the part matches the empty word.
    pub nulls: Vec<u16>,

    /// The first occurrences, each with the mark before it.
    pub firsts: Vec<End>,

    /// The last occurrences, each with the mark after it.
    pub lasts: Vec<End>,
}

impl Part {
    /// A part that matches nothing.
    fn new(alloc: Global) -> Part
        ensures nulls { result.nulls.items ≡ [] }
        ensures firsts { result.firsts.items ≡ [] }
        ensures lasts { result.lasts.items ≡ [] }
    {
        Part {
            nulls: Vec::new(alloc),
            firsts: Vec::new(alloc),
            lasts: Vec::new(alloc),
        }
    }
}

/// The part of one byte set.
fn set_part(alloc: Global, number: u16) -> Result<Part, NoMemory>
    ensures { IfOk result (λ p. (b : List Bool) → IsPart (Set b) number p) }
{
    let only = End {
        state: number,
        mark: 0,
    };
    let nulls = Vec::new(alloc);
    let mut firsts = Vec::new(alloc);
    put(&mut firsts, only)?;
    let mut lasts = Vec::new(alloc);
    put(&mut lasts, only)?;
    Ok(Part {
        nulls,
        firsts,
        lasts,
    })
}

/// The part of the empty word.
fn empty_part(alloc: Global) -> Result<Part, NoMemory>
    ensures { IfOk result (λ p. (n : ℕ) → IsPart Empty n p) }
{
    let mut nulls = Vec::new(alloc);
    put(&mut nulls, 0)?;
    Ok(Part {
        nulls,
        firsts: Vec::new(alloc),
        lasts: Vec::new(alloc),
    })
}

// The functions from here to `put_part` aren't inlined, and write their parts to references, so that a level of the
// recursion takes little of the stack.

/// Memory for a part.
#[inline(never)]
fn room(alloc: Global) -> Result<Box<Part>, NoMemory> {
    Ok(Box::new(alloc, Part::new(alloc))?)
}

/// Writes the part of one byte set, which is appended to a list.
#[inline(never)]
fn put_set(
    alloc: Global,
    bytes: &ByteSet,
    letters: &mut Vec<ByteSet>,
    part: &mut Part,
) -> Result<(), NoMemory>
    requires { length letters.old.items < 512 }
    ensures part { IfOk result (λ _. (b : List Bool) → IsPart (Set b) (length letters.old.items + 1) part.new) }
    ensures letters { IfOk result (λ _. letters.new.items ≡ letters.old.items ++ (bytes.now ∷ [])) }
{
    letters.push(*bytes)?;
    *part = set_part(alloc, letters.len() as u16)?;
    Ok(())
}

/// Writes the part of the empty word.
#[inline(never)]
fn put_empty(alloc: Global, part: &mut Part) -> Result<(), NoMemory>
    ensures { IfOk result (λ _. (n : ℕ) → IsPart Empty n part.new) }
{
    *part = empty_part(alloc)?;
    Ok(())
}

/// Turns the left part into that of both, one after another. The steps between them are left out if an enclosing part
/// makes them too.
#[inline(never)]
fn cat_part(
    alloc: Global,
    left: &mut Part,
    right: &mut Part,
    left_out: bool,
    hops: &mut Vec<Hop>,
) -> Result<(), NoMemory>
    requires { MayFollow left.old right.old }
    ensures part { IfOk result (λ _. (a b : FormulaTree) (n : ℕ) → IsPart a n left.old → IsPart b (n + sets a) right.old → IsPart (Cat a b) n left.new) }
    ensures hops { IfOk result (λ _. AddsUnless left_out hops.old.items hops.new.items (IsHopIn left.old.lasts.items right.old.firsts.items)) }
{
    push_joins(hops, &left.lasts, &right.firsts, left_out)?;
    let mut nulls = Vec::new(alloc);
    push_all_sums(&mut nulls, &left.nulls, &right.nulls)?;
    push_all_raised(&mut left.firsts, &left.nulls, &right.firsts)?;
    push_all_raised(&mut right.lasts, &right.nulls, &left.lasts)?;
    left.nulls = nulls;
    swap(&mut left.lasts, &mut right.lasts);
    Ok(())
}

/// Turns the left part into that of an alternation.
#[inline(never)]
fn alt_part(left: &mut Part, right: &Part) -> Result<(), NoMemory>
    ensures { IfOk result (λ _. (a b : FormulaTree) (n : ℕ) → IsPart a n left.old → IsPart b (n + sets a) right.now → IsPart (Alt a b) n left.new) }
{
    push_marks(&mut left.nulls, &right.nulls)?;
    push_ends(&mut left.firsts, &right.firsts)?;
    push_ends(&mut left.lasts, &right.lasts)?;
    Ok(())
}

/// Turns the part into that of any number in a row.
#[inline(never)]
fn star_part(part: &mut Part, left_out: bool, hops: &mut Vec<Hop>) -> Result<(), NoMemory>
    requires { AreShortHops part.old.lasts.items part.old.firsts.items }
    ensures part { IfOk result (λ _. (a : FormulaTree) (n : ℕ) → IsPart a n part.old → IsPart (Star a) n part.new) }
    ensures hops { IfOk result (λ _. AddsUnless left_out hops.old.items hops.new.items (IsHopIn part.old.lasts.items part.old.firsts.items)) }
{
    push_joins(hops, &part.lasts, &part.firsts, left_out)?;
    push_new(&mut part.nulls, 0)?;
    Ok(())
}

/// Turns the part into that of one or none.
#[inline(never)]
fn opt_part(part: &mut Part) -> Result<(), NoMemory>
    ensures { IfOk result (λ _. (a : FormulaTree) (n : ℕ) → IsPart a n part.old → IsPart (Opt a) n part.new) }
{
    push_new(&mut part.nulls, 0)?;
    Ok(())
}

/// Turns the part into that of a variable's span.
#[inline(never)]
fn capture_part(alloc: Global, variable: u8, part: &mut Part) -> Result<(), NoMemory>
    requires { MayName variable part.old }
    ensures { IfOk result (λ _. (a : FormulaTree) (n : ℕ) → IsPart a n part.old → IsPart (Capture variable a) n part.new) }
{
    let opening = 4u16.pow(variable as u32);
    let mut captured = Part::new(alloc);
    push_sums(&mut captured.nulls, 3 * opening, &part.nulls)?;
    push_raised(&mut captured.firsts, opening, &part.firsts)?;
    push_raised(&mut captured.lasts, 2 * opening, &part.lasts)?;
    *part = captured;
    Ok(())
}

/// Appends the steps from the last occurrences to the first ones to a list, unless they may be left out.
#[inline(never)]
fn push_joins(
    hops: &mut Vec<Hop>,
    lasts: &[End],
    firsts: &[End],
    left_out: bool,
) -> Result<(), NoMemory>
    requires { AreShortHops lasts.now firsts.now }
    ensures { IfOk result (λ _. AddsUnless left_out hops.old.items hops.new.items (IsHopIn lasts.now firsts.now)) }
{
    if left_out {
        return Ok(());
    }
    push_all_hops(hops, lasts, firsts)?;
    Ok(())
}

/// Whether the formula matches the empty word with no mark.
fn takes_nothing(formula: &Formula) -> bool
    ensures { OnTrue result (IsNull (tree_of formula.now) 0) }
{
    match formula {
        Formula::Set(_) => false,
        Formula::Empty => true,
        Formula::Cat(a, b) => takes_nothing(a) && takes_nothing(b),
        Formula::Alt(a, b) => takes_nothing(a) || takes_nothing(b),
        Formula::Star(_) => true,
        Formula::Plus(a) => takes_nothing(a),
        Formula::Opt(_) => true,
        Formula::Capture(_, _) => false,
    }
}

/// Whether a part is covered, and the part beside it matches the empty word with no mark.
#[inline(never)]
fn covers(covered: bool, beside: &Formula) -> bool
    ensures { CoversPart covered result (tree_of beside.now) }
{
    covered && takes_nothing(beside)
}

/// Writes the part of a formula to a reference. A result by value would take several copies on the stack for each
/// level.
fn put_part(
    alloc: Global,
    formula: &Formula,
    covered: bool,
    letters: &mut Vec<ByteSet>,
    hops: &mut Vec<Hop>,
    part: &mut Part,
) -> Result<(), NoMemory>
    requires small { IsSmall (tree_of formula.now) }
    requires room { length letters.old.items + sets (tree_of formula.now) ≤ 512 }
    ensures part { IfOk result (λ _. IsPart (tree_of formula.now) (length letters.old.items + 1) part.new) }
    ensures letters { IfOk result (λ _. letters.new.items ≡ letters.old.items ++ letters_in (tree_of formula.now)) }
    ensures hops { IfOk result (λ _. AddsFollow covered (tree_of formula.now) (length letters.old.items + 1) hops.old.items hops.new.items) }
{
    match formula {
        Formula::Set(bytes) => put_set(alloc, bytes, letters, part),
        Formula::Empty => put_empty(alloc, part),
        Formula::Cat(a, b) => {
            let left_covered = covers(covered, b);
            let right_covered = covers(covered, a);
            let mut right = room(alloc)?;
            put_part(alloc, a, left_covered, letters, hops, part)?;
            put_part(alloc, b, right_covered, letters, hops, &mut right)?;
            cat_part(alloc, part, &mut right, left_covered & right_covered, hops)
        }
        Formula::Alt(a, b) => {
            let mut right = room(alloc)?;
            put_part(alloc, a, covered, letters, hops, part)?;
            put_part(alloc, b, covered, letters, hops, &mut right)?;
            alt_part(part, &right)
        }
        Formula::Star(a) => {
            put_part(alloc, a, true, letters, hops, part)?;
            star_part(part, covered, hops)
        }
        Formula::Plus(a) => {
            put_part(alloc, a, true, letters, hops, part)?;
            push_joins(hops, &part.lasts, &part.firsts, covered)
        }
        Formula::Opt(a) => {
            put_part(alloc, a, covered, letters, hops, part)?;
            opt_part(part)
        }
        Formula::Capture(x, a) => {
            put_part(alloc, a, false, letters, hops, part)?;
            capture_part(alloc, *x, part)
        }
    }
}

/// The part of a formula, whose byte sets are appended to one list and whose steps to another.
///
/// A part is covered if an enclosing star or plus makes all steps from its last occurrences to its first ones. They are
/// left out then, so that no step is made twice (Brüggemann-Klein 1993).
///
/// # Errors
///
/// `NoMemory` if allocation fails.
pub fn part_of(
    alloc: Global,
    formula: &Formula,
    covered: bool,
    letters: &mut Vec<ByteSet>,
    hops: &mut Vec<Hop>,
) -> Result<Part, NoMemory>
    requires small { IsSmall (tree_of formula.now) }
    requires room { length letters.old.items + sets (tree_of formula.now) ≤ 512 }
    ensures part { IfOk result (λ p. IsPart (tree_of formula.now) (length letters.old.items + 1) p) }
    ensures letters { IfOk result (λ _. letters.new.items ≡ letters.old.items ++ letters_in (tree_of formula.now)) }
    ensures hops { IfOk result (λ _. AddsFollow covered (tree_of formula.now) (length letters.old.items + 1) hops.old.items hops.new.items) }
{
    let mut part = Part::new(alloc);
    put_part(alloc, formula, covered, letters, hops, &mut part)?;
    Ok(part)
}

/// One more than the greatest variable, or 0 if there is none.
pub fn variables_of(formula: &Formula) -> u8
    requires { var_bound (tree_of formula.now) ≤ 8 }
    ensures { result ≡ var_bound (tree_of formula.now) }
{
    match formula {
        Formula::Set(_) | Formula::Empty => 0,
        Formula::Cat(a, b) | Formula::Alt(a, b) => variables_of(a).max(variables_of(b)),
        Formula::Star(a) | Formula::Plus(a) | Formula::Opt(a) => variables_of(a),
        Formula::Capture(x, a) => variables_of(a).max(*x + 1),
    }
}
