//! The names of a formula's variables: at most eight, all different.
ghost use Rattle.span_types.specs.VarList.{Adds, AreVars};
ghost use Rattle.std.specs.Prelude.{◌≡◌, ◌<◌, ◌≤◌, true, false, [], length, slice_get, slice_index, IfOk, IsErrOf, OnErr, Some, Contains, MatchOption, IsTrue, ◌↔◌};

use crate::name::Name;
use crate::refusal::NoMemory;
use std::alloc::Global;
use std::marker::Model;
use thiserror::Error;

/// Why a name has no number in a list of variables.
#[derive(Clone, Copy, Debug, PartialEq, Eq, Error)]
pub enum VarsRefusal {
    /// The name is new, and the list has eight names.
    #[error("more than eight variables")]
    Full,

    /// Allocation failed.
    #[error("no memory")]
    NoMemory,
}

/// The names of variables, at most eight and all different. The name at index v is that of variable number v. Contracts
/// see it as the list of the names.
#[derive(Drop)]
pub struct Vars {
    names: Vec<Name>,
}

impl Model for Vars {
    ghost use Rattle.std.specs.Prelude.{ℕ, List};
    ghost use Rattle.span_types.specs.VarList.{AreVars};

    ghost Value = { List (List ℕ) };

    ghost view = { λ v. v.names.items };

    ghost invariant = { λ v. AreVars v.names.items };
}

impl Vars {
    /// No names. Allocates nothing.
    pub fn new(alloc: Global) -> Vars
        ensures { result ≡ [] }
    {
        Vars {
            names: Vec::new(alloc),
        }
    }

    /// The number of a name, below 8. A name that is new is added last.
    ///
    /// # Errors
    ///
    /// `Full` exactly if the name is new and there are eight names, and `NoMemory` if allocation fails. The list is
    /// then unchanged.
    pub fn number_of(&mut self, name: Name) -> Result<u8, VarsRefusal>
        ensures number { IfOk result (λ v. slice_get self.new v ≡ Some name) }
        ensures added { IfOk result (λ _. Adds self.old self.new name) }
        ensures full { IsErrOf result VarsRefusal.Full ↔ ((length self.old ≡ 8) × (Contains self.old name → ⊥)) }
        ensures vars { AreVars self.new }
        ensures err { OnErr result (self.new ≡ self.old) }
    {
        if let Some(v) = index_of(&self.names, &name) {
            return Ok(v as u8);
        }
        if self.names.len() == 8 {
            return Err(VarsRefusal::Full);
        }
        let v = self.names.len() as u8;
        match self.names.push(name) {
            Ok(()) => Ok(v),
            Err(_) => Err(VarsRefusal::NoMemory),
        }
    }

    /// The number of names.
    pub fn count(&self) -> u8
        ensures count { result ≡ length self.now }
        ensures vars { AreVars self.now }
    {
        self.names.len() as u8
    }

    /// The name of a variable, by its number.
    pub fn name(&self, v: u8) -> &Name
        requires { v < length self.now }
        ensures { slice_get self.now v ≡ Some result.now }
    {
        &self.names[v as usize]
    }

    /// A copy of the names.
    ///
    /// # Errors
    ///
    /// `NoMemory` if allocation fails.
    pub fn copy(&self, alloc: Global) -> Result<Vars, NoMemory>
        ensures { IfOk result (λ copy. copy ≡ self.now) }
    {
        let mut names = Vec::with_capacity(alloc, self.names.len())?;
        for name in &self.names {
            names.push(name.copy(alloc)?)?;
        }
        Ok(Vars { names })
    }
}

/// The first index of a name.
fn index_of(names: &[Name], name: &Name) -> Option<usize>
    ensures { MatchOption result (Contains names.now name.now → ⊥) (λ v. (v < length names.now) × (slice_get names.now v ≡ Some name.now)) }
{
    names.iter().position(|other| is_same(other, name))
}

/// Whether two names have the same bytes.
fn is_same(a: &Name, b: &Name) -> bool
    ensures { IsTrue result ↔ (a.now ≡ b.now) }
{
    a.bytes() == b.bytes()
}
