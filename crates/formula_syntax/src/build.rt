//! Formulas from their parts.
ghost use Rattle.formula_syntax.specs.Machine.{cat_of, alt_of};
ghost use Rattle.formula_syntax.specs.View.{trees, sign_of};
ghost use Rattle.span_types.specs.FormulaTree.{tree_of};
ghost use Rattle.std.specs.Prelude.{◌≡◌, [], IfOk};

use span_types::Formula;
use std::alloc::{AllocError, Global};

/// A postfix sign.
#[derive(Clone, Copy)]
pub enum Sign {
    Star,
    Plus,
    Opt,
}

/// An alternation that is being read: its finished branches, and the parts of the last one.
#[derive(Drop)]
pub struct Level {
    pub branches: Vec<Formula>,
    pub parts: Vec<Formula>,
}

impl Level {
    /// Nothing read yet.
    pub fn new(alloc: Global) -> Level
        ensures branches { result.branches.items ≡ [] }
        ensures parts { result.parts.items ≡ [] }
    {
        Level {
            branches: Vec::new(alloc),
            parts: Vec::new(alloc),
        }
    }

    /// The whole alternation.
    pub fn formula(self, alloc: Global) -> Result<Formula, AllocError>
        ensures { IfOk result (λ f. tree_of f ≡ alt_of (trees self.branches.items) (cat_of (trees self.parts.items))) }
    {
        let Level { branches, parts } = self;
        let last = cat_of(alloc, parts)?;
        alt_of(alloc, branches, last)
    }
}

/// The parts one after another, nested to the right.
pub fn cat_of(alloc: Global, parts: Vec<Formula>) -> Result<Formula, AllocError>
    ensures { IfOk result (λ f. tree_of f ≡ cat_of (trees parts.items)) }
{
    let mut parts = parts;
    let Some(last) = parts.pop() else {
        return Ok(Formula::Empty);
    };
    let mut whole = last;
    while let Some(part) = parts.pop() {
        whole = Formula::Cat(Box::new(alloc, part)?, Box::new(alloc, whole)?);
    }
    Ok(whole)
}

/// The alternation of the branches and the last one, nested to the right.
fn alt_of(alloc: Global, branches: Vec<Formula>, last: Formula) -> Result<Formula, AllocError>
    ensures { IfOk result (λ f. tree_of f ≡ alt_of (trees branches.items) (tree_of last)) }
{
    let mut branches = branches;
    let mut whole = last;
    while let Some(branch) = branches.pop() {
        whole = Formula::Alt(Box::new(alloc, branch)?, Box::new(alloc, whole)?);
    }
    Ok(whole)
}

/// A part followed by a sign.
pub fn signed(alloc: Global, sign: Sign, part: Formula) -> Result<Formula, AllocError>
    ensures { IfOk result (λ f. tree_of f ≡ sign_of sign (tree_of part)) }
{
    let inner = Box::new(alloc, part)?;
    Ok(match sign {
        Sign::Star => Formula::Star(inner),
        Sign::Plus => Formula::Plus(inner),
        Sign::Opt => Formula::Opt(inner),
    })
}
