// A put in pieces, in memory.
ghost use Rattle.std.specs.Prelude.{◌≡◌, ◌++◌, [], List, ℕ, Some, None, option_map, IsErr, IfSome, IsSome, OnErr, OnOk};

use std::alloc::{AllocError, Global};
use std::marker::Model;

/// A put that was begun, or none: its name and its bytes so far.
#[derive(Drop)]
pub struct Begun {
    put: Option<(Vec<u8>, Vec<u8>)>,
}

impl Model for Begun {
    ghost use Rattle.std.specs.Prelude.{ℕ, List, option_map};
    ghost use Rattle.std.specs.declared.option.Option.{Option};

    ghost Value = { Option (List ℕ × List ℕ) };

    ghost view = { λ b. option_map (λ put. (put.0.items, put.1.items)) b.put };
}

impl Begun {
    /// No put.
    pub fn none() -> Begun
        ensures { result ≡ None }
    {
        Begun { put: None }
    }

    /// Begins a put with no bytes yet. A put that was begun is discarded.
    pub fn begin(&mut self, alloc: Global, name: &[u8]) -> Result<(), AllocError>
        ensures begun { OnOk result (self.new ≡ Some (name.now, [])) }
        ensures refused { OnErr result (self.new ≡ None) }
    {
        self.put = None;
        let name = Vec::from_slice(alloc, name)?;
        self.put = Some((name, Vec::new(alloc)));
        Ok(())
    }

    /// Appends bytes to the put. If allocation fails, the put is discarded.
    pub fn append(&mut self, bytes: &[u8]) -> Result<(), AllocError>
        ensures more { OnOk result (self.new ≡ option_map (λ put. (put.0, put.1 ++ bytes.now)) self.old) }
        ensures refused { OnErr result (self.new ≡ None) }
    {
        let Some((name, mut so_far)) = self.put.take() else {
            return Ok(());
        };
        so_far.extend_from_slice(bytes)?;
        self.put = Some((name, so_far));
        Ok(())
    }

    /// Takes the put out, if there is one.
    pub fn take(&mut self) -> Option<(Vec<u8>, Vec<u8>)>
        ensures put { option_map (λ put. (put.0.items, put.1.items)) result ≡ self.old }
        ensures none { self.new ≡ None }
    {
        self.put.take()
    }
}
