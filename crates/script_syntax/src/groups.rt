// Arguments that several commands have in common.
ghost use Rattle.line_parts.specs.NameList.{IsName};
ghost use Rattle.script_syntax.specs.Fields.{Fields, Filed, Named, Rest, Worded};
ghost use Rattle.script_syntax.specs.Syntax.{IsFile, IsWord};
ghost use Rattle.std.specs.Prelude.{◌≡◌, ◌∷◌, ◌++◌, [], IfOk, IfErr};

use crate::LineRefusal;
use crate::parts::{file_of, name_of, names_of, three_words, two_words, word_of};
use span_types::{ByteList, Name};
use std::alloc::Global;

/// `NAME BYTES`
pub fn name_and_bytes(alloc: Global, args: &[u8]) -> Result<(Name, ByteList), LineRefusal>
    ensures ok { IfOk result (λ p. IsName p.0 × (args.now ≡ p.0 ++ 32 ∷ p.1)) }
    ensures syntax { IfErr result (λ why. why ≡ LineRefusal.Syntax → Fields (Named ∷ Rest ∷ []) args.now → ⊥) }
{
    let Some((name, bytes)) = two_words(args) else {
        return Err(LineRefusal::Syntax);
    };
    let name = name_of(alloc, name)?;
    let bytes = ByteList::new(alloc, bytes)?;
    Ok((name, bytes))
}

/// `NAME FILE`
pub fn name_and_file(alloc: Global, args: &[u8]) -> Result<(Name, ByteList), LineRefusal>
    ensures ok { IfOk result (λ p. IsName p.0 × IsFile p.1 × (args.now ≡ p.0 ++ 32 ∷ p.1)) }
    ensures syntax { IfErr result (λ why. why ≡ LineRefusal.Syntax → Fields (Named ∷ Filed ∷ []) args.now → ⊥) }
{
    let Some((name, file)) = two_words(args) else {
        return Err(LineRefusal::Syntax);
    };
    let name = name_of(alloc, name)?;
    let file = file_of(alloc, file)?;
    Ok((name, file))
}

/// `NAME NAME`
pub fn two_names(alloc: Global, args: &[u8]) -> Result<(Name, Name), LineRefusal>
    ensures ok { IfOk result (λ p. IsName p.0 × IsName p.1 × (args.now ≡ p.0 ++ 32 ∷ p.1)) }
    ensures syntax { IfErr result (λ why. why ≡ LineRefusal.Syntax → Fields (Named ∷ Named ∷ []) args.now → ⊥) }
{
    let Some((first, second)) = two_words(args) else {
        return Err(LineRefusal::Syntax);
    };
    let first = name_of(alloc, first)?;
    let second = name_of(alloc, second)?;
    Ok((first, second))
}

/// `NAME NAME WORD`
pub fn two_names_and_word(alloc: Global, args: &[u8]) -> Result<(Name, Name, ByteList), LineRefusal>
    ensures ok { IfOk result (λ p. IsName p.0 × IsName p.1 × IsWord p.2 × (args.now ≡ p.0 ++ 32 ∷ (p.1 ++ 32 ∷ p.2))) }
    ensures syntax { IfErr result (λ why. why ≡ LineRefusal.Syntax → Fields (Named ∷ Named ∷ Worded ∷ []) args.now → ⊥) }
{
    let Some((first, second, word)) = three_words(args) else {
        return Err(LineRefusal::Syntax);
    };
    let (first, second) = names_of(alloc, first, second)?;
    let word = word_of(alloc, word)?;
    Ok((first, second, word))
}

/// `NAME NAME NAME`
pub fn three_names(alloc: Global, args: &[u8]) -> Result<(Name, Name, Name), LineRefusal>
    ensures ok { IfOk result (λ p. IsName p.0 × IsName p.1 × IsName p.2 × (args.now ≡ p.0 ++ 32 ∷ (p.1 ++ 32 ∷ p.2))) }
    ensures syntax { IfErr result (λ why. why ≡ LineRefusal.Syntax → Fields (Named ∷ Named ∷ Named ∷ []) args.now → ⊥) }
{
    let Some((first, second, third)) = three_words(args) else {
        return Err(LineRefusal::Syntax);
    };
    let (first, second) = names_of(alloc, first, second)?;
    let third = name_of(alloc, third)?;
    Ok((first, second, third))
}
