//! Rounds, in which neighbours are paired until one symbol is left.
ghost use Rattle.share_loader.specs.Symbols.{IsSymbol, IsOfLevel, AreSymbols, symbols_text, IsGroup, IsNoneAlone};
ghost use Rattle.share_loader.specs.declared.symbols.Symbol.{Symbol};
ghost use Rattle.slp_model.specs.Nodes.{tree, Grows};
ghost use Rattle.slp_model.specs.Tree.{text, leaves, IsNear};
ghost use Rattle.span_types.specs.Fibonacci.{height_limit};
ghost use Rattle.std.specs.Prelude.{◌≡◌, ◌+◌, ◌^◌, ◌<◌, ◌≤◌, ◌++◌, max, length, get_or, vec_len, take, IfOk, OnOk, IsTrue, IsFalse};

use super::hashes::pair_hash;
use super::symbols::Symbol;
use node_store::{NodeId, Store};
use span_types::{NoMemory, Steps};
use std::sync::ledger::Ledger;

// Whether no group goes on at this index: at the end, at a high symbol, and at a low one whose hash is less than that of the
// symbol before and at most that of a low symbol behind.
fn is_stop(symbols: &[Symbol], index: usize, level: u8) -> bool
    requires { 0 < index }
    ensures within { IsFalse result → index < length symbols.now }
    ensures last { (d : Symbol) → IsTrue result → index + 1 ≡ length symbols.now → level < (get_or symbols.now index d).height }
{
    if index >= symbols.len() || symbols[index].height > level {
        return true;
    }
    if index + 1 >= symbols.len() || symbols[index + 1].height > level {
        return false;
    }
    let hash = symbols[index].hash;
    symbols[index - 1].hash > hash && hash <= symbols[index + 1].hash
}

// How many symbols become the next one. A high one stays as it is, and a low one is paired with the symbol behind, and with a
// third one where that doesn't stop a group and a stop follows it. A low symbol at the end goes with those before.
fn group_len(symbols: &[Symbol], level: u8) -> usize
    requires some { 0 < length symbols.now }
    requires alone { IsNoneAlone level symbols.now }
    ensures { IsGroup level symbols.now result }
{
    if symbols[0].height > level {
        if symbols.len() == 2 && symbols[1].height <= level {
            return 2;
        }
        return 1;
    }
    if symbols[1].height > level {
        if symbols.len() == 3 && symbols[2].height <= level {
            return 3;
        }
        return 2;
    }
    if !is_stop(symbols, 2, level) && is_stop(symbols, 3, level) {
        return 3;
    }
    2
}

// The pair of two symbols.
fn pair_of<L: Ledger>(
    store: &mut Store,
    left: Symbol,
    right: Symbol,
    pairs: &mut Steps<L>,
) -> Result<Symbol, NoMemory>
    requires left { IsSymbol store.old left }
    requires right { IsSymbol store.old right }
    requires near { IsNear left.height right.height }
    requires low { left.height + right.height < 255 }
    requires short { leaves (tree store.old left.node.index) + leaves (tree store.old right.node.index) ≤ 2 ^ 48 }
    ensures grows { Grows store.old store.new pairs.old pairs.new }
    ensures symbol { IfOk result (λ x. IsSymbol store.new x) }
    ensures height { IfOk result (λ x. x.height ≡ max left.height right.height + 1) }
    ensures text { IfOk result (λ x. text (tree store.new x.node.index) ≡ text (tree store.old left.node.index) ++ text (tree store.old right.node.index)) }
    ensures step { pairs.new ≡ pairs.old + 1 }
{
    let node = store.pair(left.node, right.node, pairs)?;
    Ok(Symbol {
        node,
        hash: pair_hash(left.hash, right.hash),
        height: left.height.max(right.height) + 1,
    })
}

// The join of a low, a high and a low symbol: each child of the high one goes with the low one at its side.
fn bridge_of<L: Ledger>(
    store: &mut Store,
    left: Symbol,
    middle: Symbol,
    right: Symbol,
    pairs: &mut Steps<L>,
) -> Result<Symbol, NoMemory>
    requires left { IsSymbol store.old left }
    requires middle { IsSymbol store.old middle }
    requires right { IsSymbol store.old right }
    requires left_low { left.height + 1 ≡ middle.height }
    requires right_low { right.height + 1 ≡ middle.height }
    requires low { middle.height < 255 }
    requires short { leaves (tree store.old left.node.index) + (leaves (tree store.old middle.node.index) + leaves (tree store.old right.node.index)) ≤ 2 ^ 48 }
    ensures grows { Grows store.old store.new pairs.old pairs.new }
    ensures symbol { IfOk result (λ x. IsSymbol store.new x) }
    ensures height { IfOk result (λ x. x.height ≡ middle.height + 1) }
    ensures text { IfOk result (λ x. text (tree store.new x.node.index) ≡ text (tree store.old left.node.index) ++ (text (tree store.old middle.node.index) ++ text (tree store.old right.node.index))) }
    ensures cost { pairs.new ≤ pairs.old + 3 }
{
    let (first, second) = store.children(middle.node);
    let before = store.pair(left.node, first, pairs)?;
    let behind = store.pair(second, right.node, pairs)?;
    let node = store.pair(before, behind, pairs)?;
    Ok(Symbol {
        node,
        hash: pair_hash(pair_hash(left.hash, middle.hash), right.hash),
        height: middle.height + 1,
    })
}

// The symbol of three others.
fn triple_of<L: Ledger>(
    store: &mut Store,
    symbols: &[Symbol],
    level: u8,
    pairs: &mut Steps<L>,
) -> Result<Symbol, NoMemory>
    requires symbols { AreSymbols store.old level symbols.now }
    requires group { IsGroup level symbols.now 3 }
    requires short { length (symbols_text store.old symbols.now) ≤ 2 ^ 48 }
    requires low { level ≤ 68 }
    ensures grows { Grows store.old store.new pairs.old pairs.new }
    ensures symbol { IfOk result (λ x. IsSymbol store.new x) }
    ensures level { IfOk result (λ x. IsOfLevel (level + 1) x) }
    ensures text { IfOk result (λ x. text (tree store.new x.node.index) ≡ symbols_text store.old (take 3 symbols.now)) }
    ensures cost { pairs.new ≤ pairs.old + 3 }
    ensures paid { 3 < length symbols.now → pairs.new ≤ pairs.old + 2 }
{
    if symbols[1].height > level {
        let three = bridge_of(store, symbols[0], symbols[1], symbols[2], pairs)?;
        return Ok(three);
    }
    let two = pair_of(store, symbols[0], symbols[1], pairs)?;
    let three = pair_of(store, two, symbols[2], pairs)?;
    Ok(three)
}

// The symbol of the group of the first `count` symbols.
fn group_of<L: Ledger>(
    store: &mut Store,
    symbols: &[Symbol],
    count: usize,
    level: u8,
    pairs: &mut Steps<L>,
) -> Result<Symbol, NoMemory>
    requires symbols { AreSymbols store.old level symbols.now }
    requires group { IsGroup level symbols.now count }
    requires short { length (symbols_text store.old symbols.now) ≤ 2 ^ 48 }
    requires low { level ≤ 68 }
    ensures grows { Grows store.old store.new pairs.old pairs.new }
    ensures symbol { IfOk result (λ x. IsSymbol store.new x) }
    ensures level { IfOk result (λ x. IsOfLevel (level + 1) x) }
    ensures text { IfOk result (λ x. text (tree store.new x.node.index) ≡ symbols_text store.old (take count symbols.now)) }
    ensures cost { pairs.new ≤ pairs.old + count }
    ensures paid { count < length symbols.now → pairs.new + 1 ≤ pairs.old + count }
{
    match count {
        1 => Ok(symbols[0]),
        2 => {
            let two = pair_of(store, symbols[0], symbols[1], pairs)?;
            Ok(two)
        }
        _ => triple_of(store, symbols, level, pairs),
    }
}

/// One round: each group of neighbours becomes one symbol of the next level, so that no symbol is lower than `level + 1`.
/// There is at most one node construction more than symbols that go away.
pub(crate) fn round<L: Ledger>(
    store: &mut Store,
    symbols: &[Symbol],
    level: u8,
    next: &mut Vec<Symbol>,
    pairs: &mut Steps<L>,
) -> Result<(), NoMemory>
    requires symbols { AreSymbols store.old level symbols.now }
    requires alone { IsNoneAlone level symbols.now }
    requires short { length (symbols_text store.old symbols.now) ≤ 2 ^ 48 }
    requires low { level ≤ 68 }
    ensures grows { Grows store.old store.new pairs.old pairs.new }
    ensures symbols { OnOk result (AreSymbols store.new (level + 1) next.new.items) }
    ensures text { OnOk result (symbols_text store.new next.new.items ≡ symbols_text store.old symbols.now) }
    ensures cost { OnOk result (pairs.new + vec_len next.new ≤ pairs.old + length symbols.now + 1) }
    ensures most { pairs.new ≤ pairs.old + length symbols.now + 1 }
{
    next.clear();
    let mut rest = symbols;
    while !rest.is_empty() {
        let count = group_len(rest, level);
        let symbol = group_of(store, rest, count, level, pairs)?;
        next.push(symbol)?;
        rest = &rest[count..];
    }
    Ok(())
}

/// The least height of a symbol of a word.
pub(crate) const WORD_LEVEL: u8 = 2;

/// The node of the whole text of the symbols of words, by rounds until one symbol is left. Each round makes at most one call
/// to `pair` more than symbols go away, and there are fewer rounds than the node is high.
pub(crate) fn block_of<L: Ledger>(
    store: &mut Store,
    symbols: &mut Vec<Symbol>,
    spare: &mut Vec<Symbol>,
    pairs: &mut Steps<L>,
) -> Result<NodeId, NoMemory>
    requires some { 0 < vec_len symbols.old }
    requires symbols { AreSymbols store.old 2 symbols.old.items }
    requires short { length (symbols_text store.old symbols.old.items) ≤ 2 ^ 48 }
    ensures grows { Grows store.old store.new pairs.old pairs.new }
    ensures live { IfOk result (λ id. id.index < length store.new) }
    ensures text { IfOk result (λ id. text (tree store.new id.index) ≡ symbols_text store.old symbols.old.items) }
    ensures cost { pairs.new + 1 ≤ pairs.old + vec_len symbols.old + height_limit (length (symbols_text store.old symbols.old.items)) }
{
    let mut level = WORD_LEVEL;
    loop {
        let first = symbols[0].node;
        // No node is higher than 68, so the rounds end.
        let height = store.height(first);
        prove!(level <= height);
        if symbols.len() == 1 {
            return Ok(first);
        }
        round(store, symbols, level, spare, pairs)?;
        std::mem::swap(symbols, spare);
        level += 1;
    }
}
