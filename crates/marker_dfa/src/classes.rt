//! Classes of bytes that no byte set of an automaton distinguishes.

ghost use Rattle.marker_dfa.specs.Making.{AreClasses, Agrees, IsFiner, IsFit, IsSplitUpTo};
ghost use Rattle.std.specs.Bool.{OnTrue};
ghost use Rattle.std.specs.Prelude.{◌≡◌, ◌+◌, ◌≤◌, ℕ, Bool, List, Contains, Some, length, slice_get, IfOk, OnOk};

use span_types::{ByteSet, NoMemory};
use std::alloc::Global;

/// The class of each byte, and the first byte of each class.
#[derive(Drop)]
pub struct ByteClasses {
    pub of: Vec<u8>,
    pub firsts: Vec<u8>,
}

/// One class of all bytes.
fn one_class(alloc: Global) -> Result<ByteClasses, NoMemory>
    ensures { IfOk result AreClasses }
{
    Ok(ByteClasses {
        of: vec![in alloc; 0; 256]?,
        firsts: vec![in alloc; 0; 1]?,
    })
}

/// Whether the byte set contains each byte exactly if it contains the first one of its class.
fn fits(classes: &ByteClasses, letters: &ByteSet) -> bool
    requires { AreClasses classes.now }
    ensures size { length letters.now ≡ 256 }
    ensures fit { OnTrue result (IsFit classes.now letters.now) }
{
    for byte in 0..256u16 {
        let first = classes.firsts[classes.of[byte as usize] as usize];
        if letters.contains(byte as u8) != letters.contains(first) {
            return false;
        }
    }
    true
}

/// Whether two bytes have one class, and the byte set contains both or neither.
fn agrees_with(classes: &ByteClasses, letters: &ByteSet, byte: u8, first: u8) -> bool
    requires { AreClasses classes.now }
    ensures { OnTrue result (Agrees classes.now letters.now byte first) }
{
    classes.of[byte as usize] == classes.of[first as usize]
        && letters.contains(byte) == letters.contains(first)
}

/// The index of the first byte that goes with a byte, or the number of first bytes if there is none.
fn index_among(classes: &ByteClasses, letters: &ByteSet, firsts: &[u8], byte: u8) -> usize
    requires { AreClasses classes.now }
    ensures within { result ≤ length firsts.now }
    ensures goes { (f : ℕ) → slice_get firsts.now result ≡ Some f → Agrees classes.now letters.now byte f }
{
    for (index, first) in firsts.iter().enumerate() {
        if agrees_with(classes, letters, byte, *first) {
            return index;
        }
    }
    firsts.len()
}

/// Puts the next byte into its class, which may be new.
fn put_byte(
    split: &mut ByteClasses,
    classes: &ByteClasses,
    letters: &ByteSet,
    byte: u8,
) -> Result<(), NoMemory>
    requires classes { AreClasses classes.now }
    requires so_far { IsSplitUpTo classes.now letters.now byte split.old }
    ensures { OnOk result (IsSplitUpTo classes.now letters.now (byte + 1) split.new) }
{
    let index = index_among(classes, letters, &split.firsts, byte);
    split.of.push(index as u8)?;
    if index < split.firsts.len() {
        return Ok(());
    }
    split.firsts.push(byte)?;
    Ok(())
}

/// The classes, split where the byte set contains some bytes of a class and not others.
fn split(alloc: Global, classes: &ByteClasses, letters: &ByteSet) -> Result<ByteClasses, NoMemory>
    requires classes { AreClasses classes.now }
    requires size { length letters.now ≡ 256 }
    ensures classes { IfOk result AreClasses }
    ensures fit { IfOk result (λ s. IsFit s letters.now) }
    ensures finer { IfOk result (IsFiner classes.now) }
{
    let mut split = ByteClasses {
        of: Vec::new(alloc),
        firsts: Vec::new(alloc),
    };
    for byte in 0..256u16 {
        put_byte(&mut split, classes, letters, byte as u8)?;
    }
    Ok(split)
}

/// The classes, split if a byte set needs it.
fn fitted(alloc: Global, classes: ByteClasses, letters: &ByteSet) -> Result<ByteClasses, NoMemory>
    requires { AreClasses classes }
    ensures classes { IfOk result AreClasses }
    ensures fit { IfOk result (λ s. IsFit s letters.now) }
    ensures finer { IfOk result (IsFiner classes) }
{
    if fits(&classes, letters) {
        return Ok(classes);
    }
    split(alloc, &classes, letters)
}

/// Classes such that each of some byte sets contains all bytes of a class or none. Each set is tested byte by byte.
///
/// # Errors
///
/// `NoMemory` if allocation fails.
pub fn classes_of(alloc: Global, sets: &[ByteSet]) -> Result<ByteClasses, NoMemory>
    ensures classes { IfOk result AreClasses }
    ensures fit { IfOk result (λ s. (letters : List Bool) → Contains sets.now letters → IsFit s letters) }
{
    let mut classes = one_class(alloc)?;
    for letters in sets {
        classes = fitted(alloc, classes, letters)?;
    }
    Ok(classes)
}
