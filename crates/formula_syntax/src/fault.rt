//! The number of byte sets, and the rule on variables that accepted formulas obey.
ghost use Rattle.formula_syntax.specs.Below.{Below, IsVerdict};
ghost use Rattle.span_types.specs.FormulaTree.{FormulaTree, Cat, Alt, Star, Plus, Capture, tree_of, sets, least_below};
ghost use Rattle.std.specs.Prelude.{◌≡◌, ℕ, ◌<◌, Bool, false, slice_index_or, ◌&&◌, ◌||◌, min, None};

use span_types::Formula;

/// The number of byte sets in a formula, or 2^64 - 1 if there are more.
pub fn sets_of(formula: &Formula) -> u64
    ensures { result ≡ min (sets (tree_of formula.now)) 18446744073709551615 }
{
    match formula {
        Formula::Set(_) => 1,
        Formula::Empty => 0,
        Formula::Cat(a, b) => sets_of(a).saturating_add(sets_of(b)),
        Formula::Alt(a, b) => sets_of(a).saturating_add(sets_of(b)),
        Formula::Star(a) => sets_of(a),
        Formula::Plus(a) => sets_of(a),
        Formula::Opt(a) => sets_of(a),
        Formula::Capture(_, a) => sets_of(a),
    }
}

/// The variables of a formula, and the variable at which it first breaks the rule.
#[derive(Clone, Copy)]
pub struct Verdict {
    held: [bool; 8],
    pub fault: Option<u8>,
}

/// The least variable below 8 that is in both.
fn least_common(a: &[bool; 8], b: &[bool; 8]) -> Option<u8>
    ensures { (p : ℕ → Bool) → ((v : ℕ) → v < 8 → (slice_index_or a.now v false && slice_index_or b.now v false) ≡ p v) → result ≡ least_below 8 p }
{
    for v in 0..8u8 {
        if a[v as usize] && b[v as usize] {
            return Some(v);
        }
    }
    None
}

/// The variables of either.
fn either(a: &[bool; 8], b: &[bool; 8]) -> [bool; 8]
    ensures { (v : ℕ) → v < 8 → slice_index_or result v false ≡ (slice_index_or a.now v false || slice_index_or b.now v false) }
{
    let mut held = [false; 8];
    for v in 0..8usize {
        held[v] = a[v] || b[v];
    }
    held
}

/// Checks the rule: the parts of a concatenation share no variable, nothing under a star or a plus has one, and a
/// capture doesn't contain its variable again.
pub fn check(formula: &Formula) -> Verdict
    requires { Below 8 (tree_of formula.now) }
    ensures { IsVerdict result (tree_of formula.now) }
{
    let mut verdict = nothing();
    judge(formula, &mut verdict);
    verdict
}

/// Writes the verdict on a formula to a reference. A result by value would take several copies on the stack for each
/// level.
fn judge(formula: &Formula, verdict: &mut Verdict)
    requires { Below 8 (tree_of formula.now) }
    ensures { IsVerdict verdict.new (tree_of formula.now) }
{
    let mut right = nothing();
    match formula {
        Formula::Set(_) | Formula::Empty => *verdict = right,
        Formula::Cat(a, b) => {
            judge(a, verdict);
            judge(b, &mut right);
            both(verdict, &right);
        }
        Formula::Alt(a, b) => {
            judge(a, verdict);
            judge(b, &mut right);
            one_of(verdict, &right);
        }
        Formula::Star(a) | Formula::Plus(a) => {
            judge(a, verdict);
            repeated(verdict);
        }
        Formula::Opt(a) => judge(a, verdict),
        Formula::Capture(x, a) => {
            judge(a, verdict);
            captured(*x, verdict);
        }
    }
}

/// The verdict on a formula without variables.
fn nothing() -> Verdict
    ensures held { (v : ℕ) → v < 8 → slice_index_or result.held v false ≡ false }
    ensures fault { result.fault ≡ None }
{
    Verdict {
        held: [false; 8],
        fault: None,
    }
}

// The functions below aren't inlined, so that a level of `judge` takes little of the stack.

/// Turns the left verdict into that on a concatenation.
#[inline(never)]
fn both(left: &mut Verdict, right: &Verdict)
    ensures { (f g : FormulaTree) → Below 8 (Cat f g) → IsVerdict left.old f → IsVerdict right.now g → IsVerdict left.new (Cat f g) }
{
    let fault = left.fault.or(right.fault);
    let common = least_common(&left.held, &right.held);
    *left = Verdict {
        held: either(&left.held, &right.held),
        fault: fault.or(common),
    };
}

/// Turns the left verdict into that on an alternation.
#[inline(never)]
fn one_of(left: &mut Verdict, right: &Verdict)
    ensures { (f g : FormulaTree) → IsVerdict left.old f → IsVerdict right.now g → IsVerdict left.new (Alt f g) }
{
    *left = Verdict {
        held: either(&left.held, &right.held),
        fault: left.fault.or(right.fault),
    };
}

/// Turns the verdict into that on a star or a plus.
#[inline(never)]
fn repeated(inner: &mut Verdict)
    ensures star { (f : FormulaTree) → Below 8 f → IsVerdict inner.old f → IsVerdict inner.new (Star f) }
    ensures plus { (f : FormulaTree) → Below 8 f → IsVerdict inner.old f → IsVerdict inner.new (Plus f) }
{
    let common = least_common(&inner.held, &inner.held);
    *inner = Verdict {
        held: inner.held,
        fault: inner.fault.or(common),
    };
}

/// Turns the verdict into that on a capture.
#[inline(never)]
fn captured(x: u8, inner: &mut Verdict)
    requires { x < 8 }
    ensures { (f : FormulaTree) → IsVerdict inner.old f → IsVerdict inner.new (Capture x f) }
{
    let twice = if inner.held[x as usize] {
        Some(x)
    } else {
        None
    };
    let mut held = inner.held;
    held[x as usize] = true;
    *inner = Verdict {
        held,
        fault: inner.fault.or(twice),
    };
}
