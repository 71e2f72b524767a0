//! Copies of formulas.
ghost use Rattle.span_types.specs.FormulaTree.{tree_of};
ghost use Rattle.std.specs.Prelude.{◌≡◌, IfOk};

use crate::formula::Formula;
use crate::refusal::NoMemory;
use std::alloc::Global;
use std::boxed::Box;

impl Formula {
    /// A formula with the same tree, by a recursion as deep as that tree.
    ///
    /// # Errors
    ///
    /// `NoMemory` where memory for it wasn't found.
    pub fn copy(&self, alloc: Global) -> Result<Formula, NoMemory>
        ensures { IfOk result (λ copy. tree_of copy ≡ tree_of self.now) }
    {
        let mut whole = Formula::Empty;
        copy_to(self, alloc, &mut whole)?;
        Ok(whole)
    }
}

// Heap memory for a formula. Not inlined, so that a level of `copy_to` takes little of the stack.
#[inline(never)]
fn room(alloc: Global) -> Result<Box<Formula>, NoMemory> {
    Ok(Box::new(alloc, Formula::Empty)?)
}

// Writes a copy of the formula. A result by value would take the room of several on the stack for each level.
fn copy_to(formula: &Formula, alloc: Global, index: &mut Formula) -> Result<(), NoMemory>
    ensures { IfOk result (λ _. tree_of index.new ≡ tree_of formula.now) }
{
    match formula {
        Formula::Set(bytes) => *index = Formula::Set(*bytes),
        Formula::Empty => *index = Formula::Empty,
        Formula::Cat(a, b) => {
            let mut left = room(alloc)?;
            copy_to(a, alloc, &mut left)?;
            let mut right = room(alloc)?;
            copy_to(b, alloc, &mut right)?;
            *index = Formula::Cat(left, right);
        }
        Formula::Alt(a, b) => {
            let mut left = room(alloc)?;
            copy_to(a, alloc, &mut left)?;
            let mut right = room(alloc)?;
            copy_to(b, alloc, &mut right)?;
            *index = Formula::Alt(left, right);
        }
        Formula::Star(a) => {
            let mut inner = room(alloc)?;
            copy_to(a, alloc, &mut inner)?;
            *index = Formula::Star(inner);
        }
        Formula::Plus(a) => {
            let mut inner = room(alloc)?;
            copy_to(a, alloc, &mut inner)?;
            *index = Formula::Plus(inner);
        }
        Formula::Opt(a) => {
            let mut inner = room(alloc)?;
            copy_to(a, alloc, &mut inner)?;
            *index = Formula::Opt(inner);
        }
        Formula::Capture(v, a) => {
            let mut inner = room(alloc)?;
            copy_to(a, alloc, &mut inner)?;
            *index = Formula::Capture(*v, inner);
        }
    }
    Ok(())
}
