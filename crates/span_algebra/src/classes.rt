//! Bytes that automata never distinguish.

ghost use Rattle.marker_dfa.specs.Deterministic.{AreAlike};
ghost use Rattle.span_algebra.specs.Making.{AreClasses, AreClassesUpTo, IsClassOf, letters_of};
ghost use Rattle.std.specs.Prelude.{◌≡◌, ◌+◌, IfOk, IfSome, IsTrue};

use marker_dfa::Dfa;
use span_types::{ByteSet, NoMemory};
use std::alloc::Global;

/// Bytes that lead to the same states, and the first of them.
#[derive(Clone, Copy)]
pub struct Class {
    pub first: u8,
    pub letters: ByteSet,
}

/// Whether two bytes have one class in an automaton, so that they lead to the same states.
fn are_alike(dfa: &Dfa, byte: u8, other: u8) -> bool
    ensures { IsTrue result → AreAlike dfa.now byte other }
{
    dfa.class(byte) == dfa.class(other)
}

/// The index of a class whose bytes are like this one in both automata.
fn class_of(classes: &[Class], left: &Dfa, right: &Dfa, byte: u8) -> Option<usize>
    ensures { IfSome result (IsClassOf classes.now left.now right.now byte) }
{
    for (index, class) in classes.iter().enumerate() {
        if are_alike(left, byte, class.first) && are_alike(right, byte, class.first) {
            return Some(index);
        }
    }
    None
}

/// Puts the next byte into its class, which is new if no class is like it.
fn put_byte(classes: &mut Vec<Class>, left: &Dfa, right: &Dfa, byte: u8) -> Result<(), NoMemory>
    requires left { AreClassesUpTo byte left.now classes.old.items }
    requires right { AreClassesUpTo byte right.now classes.old.items }
    ensures left { IfOk result (λ _. AreClassesUpTo (byte + 1) left.now classes.new.items) }
    ensures right { IfOk result (λ _. AreClassesUpTo (byte + 1) right.now classes.new.items) }
{
    match class_of(classes, left, right, byte) {
        Some(index) => classes[index].letters.insert(byte),
        None => {
            let mut letters = ByteSet::empty();
            letters.insert(byte);
            classes.push(Class {
                first: byte,
                letters,
            })?;
        }
    }
    Ok(())
}

/// The classes of bytes that neither automaton distinguishes.
///
/// Each byte is compared with one of each class found before it, by its class in either automaton.
pub fn classes_of(alloc: Global, left: &Dfa, right: &Dfa) -> Result<Vec<Class>, NoMemory>
    ensures left { IfOk result (λ classes. AreClasses left.now classes.items) }
    ensures right { IfOk result (λ classes. AreClasses right.now classes.items) }
{
    let mut classes = Vec::new(alloc);
    for byte in 0..256u16 {
        put_byte(&mut classes, left, right, byte as u8)?;
    }
    Ok(classes)
}

/// The byte sets of classes.
pub fn sets_of(alloc: Global, classes: &[Class]) -> Result<Vec<ByteSet>, NoMemory>
    ensures { IfOk result (λ sets. sets.items ≡ letters_of classes.now) }
{
    Ok(classes.iter().map(|class| class.letters).collect(alloc)?)
}
