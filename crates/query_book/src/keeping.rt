//! The list of variables that a projection keeps.
ghost use Rattle.line_parts.specs.NameList.{AreListed, IsName, IsNameList};
ghost use Rattle.query_book.specs.Keeping.{HasOther, IsKeepRefused, IsOther, IsVarsText};
ghost use Rattle.span_types.specs.VarList.{AreVars};
ghost use Rattle.std.specs.Prelude.{◌≡◌, ◌↔◌, ◌∷◌, ◌++◌, [], Contains, IfErr, IfOk, IsTrue, OnOk};

use crate::refusal::CombineRefusal;
use line_parts::{cut_at, is_same};
use span_types::{Name, NameRefusal, NoMemory, Vars, VarsRefusal};
use std::alloc::Global;

/// Reads the names in `keep`, which is `()` or one or more names separated by commas.
///
/// # Errors
///
/// `OtherVariables` exactly if a name isn't one of `vars` or occurs twice, or `NoMemory` if allocation fails.
pub(crate) fn kept_names(alloc: Global, vars: &Vars, keep: &[u8]) -> Result<Vars, CombineRefusal>
    requires { IsNameList keep.now }
    ensures names { IfOk result (IsVarsText keep.now) }
    ensures variables { IfOk result (λ names. HasOther vars.now names → ⊥) }
    ensures refused { IfErr result (IsKeepRefused vars.now keep.now) }
{
    if is_same(keep, b"()") {
        return Ok(Vars::new(alloc));
    }
    listed_names(alloc, vars, keep)
}

/// Reads one or more names, separated by commas.
fn listed_names(alloc: Global, vars: &Vars, keep: &[u8]) -> Result<Vars, CombineRefusal>
    requires { AreListed keep.now }
    ensures names { IfOk result (IsVarsText keep.now) }
    ensures variables { IfOk result (λ names. HasOther vars.now names → ⊥) }
    ensures refused { IfErr result (IsKeepRefused vars.now keep.now) }
{
    let mut names = Vars::new(alloc);
    let mut rest = keep;
    while let Some((name, more)) = cut_at(rest, b',') {
        keep_name(alloc, vars, &mut names, name)?;
        rest = more;
    }
    keep_name(alloc, vars, &mut names, rest)?;
    Ok(names)
}

/// Appends the name of a variable. Returns `OtherVariables` if it isn't one of `vars`, or if `names` already has it.
fn keep_name(
    alloc: Global,
    vars: &Vars,
    names: &mut Vars,
    name: &[u8],
) -> Result<(), CombineRefusal>
    requires name { IsName name.now }
    requires variables { HasOther vars.now names.old → ⊥ }
    ensures ok { OnOk result (Contains vars.now name.now × (Contains names.old name.now → ⊥) × (names.new ≡ names.old ++ name.now ∷ [])) }
    ensures refused { IfErr result (IsOther vars.now names.old name.now) }
{
    if !has_name(vars, name) || has_name(names, name) {
        return Err(CombineRefusal::OtherVariables);
    }
    let name = name_of(alloc, name)?;
    match names.number_of(name) {
        Ok(_) => Ok(()),
        // Distinct names of variables are no more than the variables.
        Err(VarsRefusal::Full) => unreachable!(),
        Err(VarsRefusal::NoMemory) => Err(CombineRefusal::NoMemory),
    }
}

/// Whether a list contains a name.
fn has_name(names: &Vars, name: &[u8]) -> bool
    ensures there { IsTrue result ↔ Contains names.now name.now }
    ensures vars { AreVars names.now }
{
    for v in 0..names.count() {
        if is_same(names.name(v).bytes(), name) {
            return true;
        }
    }
    false
}

/// The name with these bytes, which must be a valid name.
pub(crate) fn name_of(alloc: Global, name: &[u8]) -> Result<Name, NoMemory>
    requires { IsName name.now }
    ensures { IfOk result (λ n. n ≡ name.now) }
{
    match Name::new(alloc, name) {
        Ok(name) => Ok(name),
        // The bytes are a valid name.
        Err(NameRefusal::NotAName) => unreachable!(),
        Err(NameRefusal::NoMemory) => Err(NoMemory),
    }
}
