//! Tests of formula texts.
use formula_syntax::{FormulaRefusal, read};
use span_types::{Formula, QueryTree, Vars};
use std::alloc::{AllocError, Global};
use std::test::Fail;

/// The text of a result: `ok` and the names of the variables, or the text of the error.
fn reply(
    alloc: Global,
    answer: &Result<(Formula, Vars), FormulaRefusal>,
) -> Result<String, AllocError> {
    match answer {
        Ok((_, vars)) => {
            let mut out = String::new(alloc);
            out.push_str("ok")?;
            for v in 0..vars.count() {
                out.push_str(" ")?;
                push_bytes(&mut out, vars.name(v).bytes())?;
            }
            Ok(out)
        }
        Err(refusal) => refusal.to_string(alloc),
    }
}

/// Whether a text has this result.
fn replies(alloc: Global, text: &[u8], want: &str) -> Result<bool, AllocError> {
    Ok(reply(alloc, &read(alloc, text))?.as_str() == want)
}

fn push_bytes(out: &mut String, bytes: &[u8]) -> Result<(), AllocError> {
    for b in bytes {
        out.push(char::from(*b))?;
    }
    Ok(())
}

/// Appends a text a number of times.
fn repeat(out: &mut Vec<u8>, text: &[u8], times: u32) -> Result<(), AllocError> {
    for _ in 0..times {
        out.extend_from_slice(text)?;
    }
    Ok(())
}

#[test]
fn short_texts(rt: HostRuntime) -> Result<(), Fail> {
    let rows = [
        ("($x{a}|b)", "ok x"),
        ("$x{a}$x{b}", "not functional in x"),
        ("($x{a})*", "not functional in x"),
        ("a)", "not a formula"),
        ("a|b|", "ok"),
        ("$x{a}|$y{b}", "ok x y"),
        ("$x{$x{a}}", "not functional in x"),
        ("$y{a}($x{b}$y{c})", "not functional in y"),
        ("[b-a]", "not a formula"),
        ("$a{}$b{}$c{}$d{}$e{}$f{}$g{}$h{}", "ok a b c d e f g h"),
        (
            "$a{}$b{}$c{}$d{}$e{}$f{}$g{}$h{}$i{}",
            "more than 8 variables",
        ),
        ("", "ok"),
        ("a**", "ok"),
        ("[^]", "ok"),
        ("[^^]", "not a formula"),
        ("[a-]", "not a formula"),
        ("[\\x41-\\]\\n]\\x7f\\.", "ok"),
        ("\\x4", "not a formula"),
        ("\\q", "not a formula"),
        ("(a}", "not a formula"),
        ("$1{a}", "not a formula"),
        ("($x{a}|$x{b})$y{c}|$x{}", "ok x y"),
    ];
    for (text, want) in rows {
        assert!(rt; replies(rt.alloc(), text.as_bytes(), want)?, "at {text}");
    }
    Ok(())
}

/// This number of letters in this number of groups, each in the one before.
fn grouped(alloc: Global, groups: u32, letters: u32) -> Result<Vec<u8>, AllocError> {
    let mut text = Vec::new(alloc);
    repeat(&mut text, b"(", groups)?;
    repeat(&mut text, b"a", letters)?;
    repeat(&mut text, b")", groups)?;
    Ok(text)
}

/// Captures of 300 variables.
fn captures(alloc: Global) -> Result<Vec<u8>, AllocError> {
    let mut text = Vec::new(alloc);
    for i in 0..300u16 {
        let first = b'a' + (i / 20) as u8;
        let second = b'a' + (i % 20) as u8;
        text.extend_from_slice(&[b'$', first, second, b'{', b'}'])?;
    }
    Ok(text)
}

/// The numbers of groups and of letters, and the result.
const LONG: [(u32, u32, &str); 6] = [
    (64, 1, "ok"),
    (65, 1, "more than 64 groups open at once"),
    (1000, 1, "more than 64 groups open at once"),
    (0, 512, "ok"),
    (0, 513, "more than 512 byte sets"),
    (0, 2049, "a formula of 2049 bytes"),
];

#[test]
fn long_texts(rt: HostRuntime) -> Result<(), Fail> {
    let alloc = rt.alloc();
    for (groups, letters, want) in LONG {
        let text = grouped(alloc, groups, letters)?;
        assert!(rt; replies(alloc, &text, want)?, "at {groups} {letters}");
    }
    assert!(rt; replies(alloc, &captures(alloc)?, "more than 8 variables")?);
    Ok(())
}

fn leaf_of(answer: Result<(Formula, Vars), FormulaRefusal>) -> Option<QueryTree> {
    let (formula, vars) = answer.ok()?;
    Some(QueryTree::Leaf(formula, vars))
}

/// A formula as deep as its text is long is read, copied and dropped.
#[test]
fn many_stars(rt: HostRuntime) -> Result<(), Fail> {
    let mut text = Vec::new(rt.alloc());
    repeat(&mut text, b"a", 1)?;
    repeat(&mut text, b"*", 2047)?;
    let leaf = leaf_of(read(rt.alloc(), &text)).ok_or("a formula")?;
    let _copy = leaf.copy(rt.alloc())?;
    Ok(())
}
