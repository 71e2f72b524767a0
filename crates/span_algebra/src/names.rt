//! The names of an operation's variables, and the indices of an operand's among them.

ghost use Rattle.span_algebra.specs.Making.{AreIndicesOf};
ghost use Rattle.span_algebra.specs.Refusals.{IsNew, IsRefused};
ghost use Rattle.span_algebra.specs.Renaming.{both_names};
ghost use Rattle.span_types.specs.VarList.{Adds, AreVars};
ghost use Rattle.std.specs.Prelude.{◌≡◌, ◌<◌, Contains, IfErr, IfOk, MatchOption, OnOk, Some, length, slice_get};

use crate::refusal::AlgebraRefusal;
use marker_dfa::Dfa;
use span_types::{Name, NoMemory, Vars, VarsRefusal};
use std::alloc::Global;

/// An automaton, and the names of its variables.
#[derive(Clone, Copy)]
pub struct Operand<'a> {
    pub dfa: &'a Dfa,
    pub names: &'a Vars,
}

/// Appends a name, unless it is there.
fn add_name(alloc: Global, names: &mut Vars, name: &Name) -> Result<(), AlgebraRefusal>
    ensures added { OnOk result (Adds names.old names.new name.now) }
    ensures refused { IfErr result (IsNew names.old name.now) }
{
    match names.number_of(name.copy(alloc)?) {
        Ok(_) => Ok(()),
        Err(VarsRefusal::Full) => Err(AlgebraRefusal::TooManyVariables),
        Err(VarsRefusal::NoMemory) => Err(AlgebraRefusal::NoMemory),
    }
}

/// The names of the left, then those of the right that the left lacks.
pub fn names_of_both(alloc: Global, left: &Vars, right: &Vars) -> Result<Vars, AlgebraRefusal>
    ensures names { IfOk result (λ v. v ≡ both_names left.now right.now) }
    ensures refused { IfErr result (IsRefused (length (both_names left.now right.now)) ⊥) }
{
    let mut names = left.copy(alloc)?;
    for v in 0..right.count() {
        add_name(alloc, &mut names, right.name(v))?;
    }
    Ok(names)
}

/// The number of a name, if it is there.
fn position_of(names: &Vars, name: &Name) -> Option<u8>
    ensures index { MatchOption result (Contains names.now name.now → ⊥) (λ v. slice_get names.now v ≡ Some name.now) }
    ensures vars { AreVars names.now }
{
    for v in 0..names.count() {
        if names.name(v).bytes() == name.bytes() {
            return Some(v);
        }
    }
    None
}

/// The index of each of some names among others, or none.
pub fn indices_of(alloc: Global, to: &Vars, from: &Vars) -> Result<Vec<Option<u8>>, NoMemory>
    ensures { IfOk result (λ places. AreIndicesOf to.now from.now places.items) }
{
    let mut places = Vec::new(alloc);
    for v in 0..to.count() {
        places.push(position_of(from, to.name(v)))?;
    }
    Ok(places)
}
