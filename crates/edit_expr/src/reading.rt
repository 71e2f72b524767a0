//! The parser of editing expressions.
ghost use Rattle.edit_expr.specs.Expressions.{AreTokens, ExprReads, tokens};
ghost use Rattle.edit_expr.specs.Operations.{Begins, Fits, IsClosing, IsInside, Opens};
ghost use Rattle.edit_expr.specs.declared.expr.Expr.{Expr};
ghost use Rattle.span_types.specs.Names.{is_name};
ghost use Rattle.std.specs.Fmt.{decimal};
ghost use Rattle.std.specs.Prelude.{◌≡◌, ◌⊎◌, ◌<◌, ◌≤◌, ◌+◌, ◌^◌, ◌∷◌, ◌++◌, List, ℕ, IfOk, IfErr, MatchResult, codes, true, false};

use crate::Expr;
use crate::operation::{Operation, operation_of};
use crate::tokens::{number_at, sign_at, trim, word_at};
use span_types::{Name, NameRefusal};
use std::alloc::Global;
use thiserror::Error;

/// The maximum nesting depth of an expression.
const MAX_NESTING: u8 = 64;

/// Why a text is not parsed as an expression.
#[derive(Clone, Copy, Debug, PartialEq, Eq, Error)]
pub enum ExprRefusal {
    /// The text is no expression, or one nested more than 64 deep.
    #[error("not an editing expression")]
    Syntax,
    /// Allocation failed.
    #[error("no memory")]
    NoMemory,
}

// A parsed prefix of a text, and the rest of the text.
#[derive(Drop)]
struct ParsedPrefix<'a> {
    expr: Expr,
    rest: &'a [u8],
}

/// Parses an editing expression.
///
/// An expression is a name, or `concat(E,E)`, `extract(E,I,J)`, `delete(E,I,J)`, `insert(E,E,K)` or `copy(E,I,J,K)`,
/// where each E is an expression and I, J and K are numbers below 2^64. It is nested at most 64 deep. Any number of
/// spaces may come before and after each word, number and sign. A name that is not followed by `(` is a document, even
/// if it is the keyword of an operation.
///
/// Takes time linear in the text, allocates memory for the expression only, and recurses as deep as the nesting.
///
/// # Errors
///
/// - `Syntax` exactly if the text is not an expression nested at most 64 deep.
/// - `NoMemory` if allocation fails.
pub fn read(alloc: Global, text: &[u8]) -> Result<Expr, ExprRefusal>
    ensures ok { IfOk result (λ expr. ExprReads text.now expr) }
    ensures syntax { IfErr result (λ why. why ≡ ExprRefusal.Syntax → (expr : Expr) → ExprReads text.now expr → ⊥) }
{
    let prefix = expression(alloc, text, MAX_NESTING)?;
    if !trim(prefix.rest).is_empty() {
        return Err(ExprRefusal::Syntax);
    }
    Ok(prefix.expr)
}

// Parses an expression nested at most `depth` deep.
#[cycle(exprs)]
fn expression(alloc: Global, text: &[u8], depth: u8) -> Result<ParsedPrefix<'_>, ExprRefusal>
    ensures ok { IfOk result (λ prefix. Fits depth prefix.expr × Begins (tokens prefix.expr) text.now prefix.rest.now) }
    ensures exact { (e : Expr) (others : List (List ℕ)) → Fits depth e → IsClosing others → AreTokens (tokens e others) text.now
        → MatchResult result (λ prefix. AreTokens others prefix.rest.now) (λ why. why ≡ ExprRefusal.NoMemory) }
{
    let (word, rest) = word_at(text);
    let Some(inside) = sign_at(rest, b'(') else {
        let expr = document(alloc, word)?;
        return Ok(ParsedPrefix { expr, rest });
    };
    let Some(operation) = operation_of(word) else {
        return Err(ExprRefusal::Syntax);
    };
    if depth == 0 {
        return Err(ExprRefusal::Syntax);
    }
    let prefix = arguments(alloc, operation, inside, depth - 1)?;
    let Some(rest) = sign_at(prefix.rest, b')') else {
        return Err(ExprRefusal::Syntax);
    };
    Ok(ParsedPrefix {
        expr: prefix.expr,
        rest,
    })
}

// The document with this name.
fn document(alloc: Global, word: &[u8]) -> Result<Expr, ExprRefusal>
    ensures ok { IfOk result (λ expr. (expr ≡ Expr.Doc word.now) × (is_name word.now ≡ true)) }
    ensures syntax { IfErr result (λ why. (why ≡ ExprRefusal.NoMemory) ⊎ (is_name word.now ≡ false)) }
{
    match Name::new(alloc, word) {
        Ok(name) => Ok(Expr::Doc(name)),
        Err(NameRefusal::NotAName) => Err(ExprRefusal::Syntax),
        Err(NameRefusal::NoMemory) => Err(ExprRefusal::NoMemory),
    }
}

// Parses the operands of an operation, between `(` and `)`, each nested at most `depth` deep.
#[cycle(exprs)]
fn arguments(
    alloc: Global,
    operation: Operation,
    text: &[u8],
    depth: u8,
) -> Result<ParsedPrefix<'_>, ExprRefusal>
    ensures ok { IfOk result (λ prefix. Fits (depth + 1) prefix.expr
        × ((whole : List ℕ) → Opens operation whole text.now
        → (others : List (List ℕ)) → AreTokens (codes ")" ∷ others) prefix.rest.now → AreTokens (tokens prefix.expr others) whole)) }
    ensures exact { (others : List (List ℕ)) → IsClosing others → IsInside operation depth others text.now
        → MatchResult result (λ prefix. AreTokens others prefix.rest.now) (λ why. why ≡ ExprRefusal.NoMemory) }
{
    match operation {
        Operation::Concat => {
            let (left, right, rest) = two(alloc, text, depth)?;
            let expr = Expr::Concat(left, right);
            Ok(ParsedPrefix { expr, rest })
        }
        Operation::Insert => {
            let (into, what, rest) = two(alloc, text, depth)?;
            let Some((k, rest)) = number_at(rest) else {
                return Err(ExprRefusal::Syntax);
            };
            let expr = Expr::Insert(into, what, k);
            Ok(ParsedPrefix { expr, rest })
        }
        Operation::Extract => {
            let (from, i, j, rest) = range(alloc, text, depth)?;
            let expr = Expr::Extract(from, i, j);
            Ok(ParsedPrefix { expr, rest })
        }
        Operation::Delete => {
            let (from, i, j, rest) = range(alloc, text, depth)?;
            let expr = Expr::Delete(from, i, j);
            Ok(ParsedPrefix { expr, rest })
        }
        Operation::Copy => {
            let (from, i, j, rest) = range(alloc, text, depth)?;
            let Some((k, rest)) = number_at(rest) else {
                return Err(ExprRefusal::Syntax);
            };
            let expr = Expr::Copy(from, i, j, k);
            Ok(ParsedPrefix { expr, rest })
        }
    }
}

// Parses two expressions with a comma between them.
#[cycle(exprs)]
fn two(alloc: Global, text: &[u8], depth: u8) -> Result<(Box<Expr>, Box<Expr>, &[u8]), ExprRefusal>
    ensures ok { IfOk result (λ p. Fits depth p.0.value × Fits depth p.1.value
        × Begins (λ others. tokens p.0.value (codes "," ∷ tokens p.1.value others)) text.now p.2.now) }
    ensures exact { (l r : Expr) (others : List (List ℕ)) → Fits depth l → Fits depth r → IsClosing others
        → AreTokens (tokens l (codes "," ∷ tokens r others)) text.now
        → MatchResult result (λ p. AreTokens others p.2.now) (λ why. why ≡ ExprRefusal.NoMemory) }
{
    let left = expression(alloc, text, depth)?;
    let Some(behind) = sign_at(left.rest, b',') else {
        return Err(ExprRefusal::Syntax);
    };
    let right = expression(alloc, behind, depth)?;
    Ok((
        boxed(alloc, left.expr)?,
        boxed(alloc, right.expr)?,
        right.rest,
    ))
}

// Parses an expression and two numbers, with commas between them.
#[cycle(exprs)]
fn range(alloc: Global, text: &[u8], depth: u8) -> Result<(Box<Expr>, u64, u64, &[u8]), ExprRefusal>
    ensures ok { IfOk result (λ p. Fits depth p.0.value × (p.1 < 2 ^ 64) × (p.2 < 2 ^ 64)
        × Begins (λ others. tokens p.0.value (codes "," ∷ decimal p.1 ∷ codes "," ∷ decimal p.2 ∷ others)) text.now p.3.now) }
    ensures exact { (e : Expr) (i j : ℕ) (others : List (List ℕ)) → Fits depth e → i < 2 ^ 64 → j < 2 ^ 64 → IsClosing others
        → AreTokens (tokens e (codes "," ∷ decimal i ∷ codes "," ∷ decimal j ∷ others)) text.now
        → MatchResult result (λ p. AreTokens others p.3.now) (λ why. why ≡ ExprRefusal.NoMemory) }
{
    let from = expression(alloc, text, depth)?;
    let Some((i, rest)) = number_at(from.rest) else {
        return Err(ExprRefusal::Syntax);
    };
    let Some((j, rest)) = number_at(rest) else {
        return Err(ExprRefusal::Syntax);
    };
    Ok((boxed(alloc, from.expr)?, i, j, rest))
}

fn boxed(alloc: Global, expr: Expr) -> Result<Box<Expr>, ExprRefusal>
    ensures { MatchResult result (λ part. part.value ≡ expr) (λ why. why ≡ ExprRefusal.NoMemory) }
{
    match Box::new(alloc, expr) {
        Ok(part) => Ok(part),
        Err(_) => Err(ExprRefusal::NoMemory),
    }
}
