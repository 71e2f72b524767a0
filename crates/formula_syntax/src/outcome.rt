//! The result for a formula text: a formula with its names, or the first error.
ghost use Rattle.formula_syntax.specs.FormulaOf.{Says};
ghost use Rattle.formula_syntax.specs.View.{IsRead, IsReadIn, IsCopy};
ghost use Rattle.std.specs.Prelude.{◌≡◌, ◌≤◌, ℕ, List, length};

use crate::fault::{check, sets_of};
use crate::reader::{Found, Stop, read_all};
use crate::refusal::FormulaRefusal;
use span_types::{Formula, Name, Vars};
use std::alloc::Global;

/// The formula of a text, and the names of its variables, which are numbered by first appearance from the left. Chains
/// nest to the right.
///
/// It takes time linear in the length of the text, memory linear in the formula's parts, and copies of at most eight
/// names. The recursions over the formula are as deep as its text is long, at most 2,048.
///
/// # Errors
///
/// The first of these that applies, and `NoMemory` if allocation fails, which may come in place of any but the first:
///
/// - `TooLong` if the text has more than 2,048 bytes;
/// - `BadText` if it isn't in the grammar;
/// - `TooDeep` if more than 64 groups and captures are open at some byte;
/// - `TooManyPositions` if it has more than 512 byte sets;
/// - `TooManyVariables` if it has more than 8 variables;
/// - `NotFunctional` if it breaks the rule on variables.
pub fn read(alloc: Global, text: &[u8]) -> Result<(Formula, Vars), FormulaRefusal>
    ensures { Says result text.now }
{
    if text.len() > 2048 {
        return Err(FormulaRefusal::TooLong {
            len: text.len() as u64,
        });
    }
    match read_all(alloc, text) {
        Ok(found) => judge(alloc, found),
        Err(Stop::Bad) => Err(FormulaRefusal::BadText),
        Err(Stop::OutOfMemory) => Err(FormulaRefusal::NoMemory),
    }
}

/// Tests the limits and the rule, in their order, for what was found in a text.
fn judge(alloc: Global, found: Found) -> Result<(Formula, Vars), FormulaRefusal>
    requires { IsRead found }
    ensures { (s : List ℕ) → length s ≤ 2048 → IsReadIn s found → Says result s }
{
    let Found {
        formula,
        vars,
        crowded,
        deepest,
    } = found;
    if deepest > 64 {
        return Err(FormulaRefusal::TooDeep);
    }
    if sets_of(&formula) > 512 {
        return Err(FormulaRefusal::TooManyPositions);
    }
    if crowded {
        return Err(FormulaRefusal::TooManyVariables);
    }
    match check(&formula).fault {
        Some(v) => Err(not_functional(alloc, vars.name(v))),
        None => Ok((formula, vars)),
    }
}

/// The error at a variable.
fn not_functional(alloc: Global, name: &Name) -> FormulaRefusal
    ensures { IsCopy result name.now }
{
    match name.copy(alloc) {
        Ok(name) => FormulaRefusal::NotFunctional { name },
        Err(_) => FormulaRefusal::NoMemory,
    }
}
