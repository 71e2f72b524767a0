// The parts of a line.
ghost use Rattle.line_parts.specs.NameList.{IsName, IsNameList};
ghost use Rattle.script_syntax.specs.Fields.{Field, Fields, Named};
ghost use Rattle.script_syntax.specs.Syntax.{IsFile, IsWord};
ghost use Rattle.span_types.specs.Names.{is_between};
ghost use Rattle.std.specs.List.{list_all};
ghost use Rattle.std.specs.Prelude.{◌≡◌, ◌≢◌, ◌∷◌, ◌++◌, ◌==◌, not, List, All, IfOk, IfErr, MatchOption};

use crate::LineRefusal;
use line_parts::{cut_word, is_name_list};
use span_types::{ByteList, Name, NameRefusal};
use std::alloc::Global;

const MAX_FILE: usize = 255;

/// The bytes before the first space, and those after it.
pub fn two_words(text: &[u8]) -> Option<(&[u8], &[u8])>
    ensures { MatchOption result ((g : Field) (fs : List Field) → Fields (Named ∷ g ∷ fs) text.now → ⊥)
        (λ p. (text.now ≡ p.0.now ++ 32 ∷ p.1.now) × All (λ b. b ≢ 32) p.0.now) }
{
    let (first, rest) = cut_word(text)?;
    Some((first, rest))
}

/// The bytes before the first space, those before the second, and those after it.
pub fn three_words(text: &[u8]) -> Option<(&[u8], &[u8], &[u8])>
    ensures { MatchOption result ((g h : Field) (fs : List Field) → Fields (Named ∷ g ∷ h ∷ fs) text.now → ⊥)
        (λ p. (text.now ≡ p.0.now ++ 32 ∷ (p.1.now ++ 32 ∷ p.2.now)) × All (λ b. b ≢ 32) p.0.now × All (λ b. b ≢ 32) p.1.now) }
{
    let (first, rest) = cut_word(text)?;
    let (second, third) = cut_word(rest)?;
    Some((first, second, third))
}

/// A NAME.
pub fn name_of(alloc: Global, text: &[u8]) -> Result<Name, LineRefusal>
    ensures ok { IfOk result (λ name. (name ≡ text.now) × IsName name) }
    ensures syntax { IfErr result (λ why. why ≡ LineRefusal.Syntax → IsName text.now → ⊥) }
{
    match Name::new(alloc, text) {
        Ok(name) => Ok(name),
        Err(NameRefusal::NotAName) => Err(LineRefusal::Syntax),
        Err(NameRefusal::NoMemory) => Err(LineRefusal::NoMemory),
    }
}

/// Two NAMEs.
pub fn names_of(alloc: Global, first: &[u8], second: &[u8]) -> Result<(Name, Name), LineRefusal>
    ensures ok { IfOk result (λ p. (p.0 ≡ first.now) × (p.1 ≡ second.now) × IsName p.0 × IsName p.1) }
    ensures syntax { IfErr result (λ why. why ≡ LineRefusal.Syntax → IsName first.now × IsName second.now → ⊥) }
{
    let first = name_of(alloc, first)?;
    let second = name_of(alloc, second)?;
    Ok((first, second))
}

/// Whether all bytes are printable and none is a space.
fn all_shown(text: &[u8]) -> bool
    ensures { result ≡ list_all (is_between 33 126) text.now }
{
    text.iter().all(|b| (0x21..=0x7e).contains(b))
}

/// A FILE: 1 to 255 printable bytes other than the space.
pub fn file_of(alloc: Global, text: &[u8]) -> Result<ByteList, LineRefusal>
    ensures ok { IfOk result (λ file. (file ≡ text.now) × IsFile file) }
    ensures syntax { IfErr result (λ why. why ≡ LineRefusal.Syntax → IsFile text.now → ⊥) }
{
    if text.is_empty() || text.len() > MAX_FILE || !all_shown(text) {
        return Err(LineRefusal::Syntax);
    }
    Ok(ByteList::new(alloc, text)?)
}

fn has_no_space(text: &[u8]) -> bool
    ensures { result ≡ list_all (λ b. not (b == 32)) text.now }
{
    text.iter().all(|b| *b != b' ')
}

/// A WORD: one or more bytes other than the space.
pub fn word_of(alloc: Global, text: &[u8]) -> Result<ByteList, LineRefusal>
    ensures ok { IfOk result (λ word. (word ≡ text.now) × IsWord word) }
    ensures syntax { IfErr result (λ why. why ≡ LineRefusal.Syntax → IsWord text.now → ⊥) }
{
    if text.is_empty() || !has_no_space(text) {
        return Err(LineRefusal::Syntax);
    }
    Ok(ByteList::new(alloc, text)?)
}

/// A list of names: `()`, or one or more names with a comma between each two.
pub fn vars_of(alloc: Global, text: &[u8]) -> Result<ByteList, LineRefusal>
    ensures ok { IfOk result (λ keep. (keep ≡ text.now) × IsNameList keep) }
    ensures syntax { IfErr result (λ why. why ≡ LineRefusal.Syntax → IsNameList text.now → ⊥) }
{
    if !is_name_list(text) {
        return Err(LineRefusal::Syntax);
    }
    Ok(ByteList::new(alloc, text)?)
}
