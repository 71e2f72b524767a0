//! The two ways of making a tree of a file's bytes.
ghost use Rattle.slp_model.specs.Nodes.{Grows, IsLive, text_of};
ghost use Rattle.slp_model.specs.declared.Node.{Node};
ghost use Rattle.std.specs.Prelude.{◌≡◌, ◌+◌, ◌^◌, ◌≤◌, ◌++◌, [], length, ℕ, List, IfOk, OnOk};
ghost use Rattle.text_commands.specs.Loading.{IsBegun, IsFileLoader, IsWithinLimit, fed_to, limit_of, method_of};

use node_store::Store;
use pair_loader::Loader;
use share_loader::Sharer;
use slp_model::NodeId;
use span_types::{ByteList, Name, NoMemory, Steps};
use std::alloc::Global;
use std::sync::ledger::Ledger;

/// How a tree is made of the bytes of a file.
#[derive(Clone, Copy, Debug, PartialEq, Eq)]
pub enum Method {
    /// Each leaf is at its offset in a tree of full blocks.
    Load,
    /// Equal parts share nodes at any offset.
    Share,
}

/// The arguments of `load NAME FILE` and `share NAME FILE`.
#[derive(Drop)]
pub struct Loading {
    pub name: Name,
    pub file: ByteList,
    pub method: Method,
}

/// A loader of the bytes of a file.
#[derive(Drop)]
pub enum FileLoader {
    Load(Loader),
    Share(Sharer),
}

/// A loader that was fed no bytes.
pub fn start(alloc: Global, method: Method) -> Result<FileLoader, NoMemory>
    ensures { IfOk result (IsBegun method) }
{
    match method {
        Method::Load => {
            let loader = Loader::new(alloc)?;
            Ok(FileLoader::Load(loader))
        }
        Method::Share => {
            let sharer = Sharer::new(alloc)?;
            Ok(FileLoader::Share(sharer))
        }
    }
}

/// Appends a piece to the bytes that were fed.
pub fn feed<P: Ledger>(
    loader: &mut FileLoader,
    store: &mut Store,
    piece: &[u8],
    pairs: &mut Steps<P>,
) -> Result<(), NoMemory>
    requires used { IsFileLoader store.old loader.old }
    requires short { length (fed_to store.old loader.old) + length piece.now ≤ 2 ^ 48 }
    ensures grows { Grows store.old store.new pairs.old pairs.new }
    ensures used { OnOk result (IsFileLoader store.new loader.new) }
    ensures method { OnOk result (method_of loader.new ≡ method_of loader.old) }
    ensures fed { OnOk result (fed_to store.new loader.new ≡ fed_to store.old loader.old ++ piece.now) }
    ensures cost { OnOk result ((before : ℕ) → IsWithinLimit store.old loader.old before pairs.old → IsWithinLimit store.new loader.new before pairs.new) }
    ensures most { (before : ℕ) → IsWithinLimit store.old loader.old before pairs.old
        → pairs.new ≤ before + limit_of (method_of loader.old) (length (fed_to store.old loader.old) + length piece.now) }
{
    match loader {
        FileLoader::Load(loader) => loader.feed(store, piece, pairs),
        FileLoader::Share(sharer) => sharer.feed(store, piece, pairs),
    }
}

/// A root of all bytes fed.
pub fn finish<P: Ledger>(
    loader: FileLoader,
    store: &mut Store,
    pairs: &mut Steps<P>,
) -> Result<Option<NodeId>, NoMemory>
    requires { IsFileLoader store.old loader }
    ensures grows { Grows store.old store.new pairs.old pairs.new }
    ensures live { IfOk result (λ root. IsLive store.new root) }
    ensures text { IfOk result (λ root. text_of store.new root ≡ fed_to store.old loader) }
    ensures cost { (before : ℕ) → IsWithinLimit store.old loader before pairs.old
        → pairs.new ≤ before + limit_of (method_of loader) (length (fed_to store.old loader)) }
{
    match loader {
        FileLoader::Load(loader) => loader.finish(store, pairs),
        FileLoader::Share(sharer) => sharer.finish(store, pairs),
    }
}
