//! Tests of the lines of replies and rejections.
use report_text::{
    Refusal, doc_line, name_line, number_line, opened_line, query_line, refusal_line, saved_line,
    shown_line, written_line,
};
use span_types::{ByteList, Name, NoMemory, Vars};
use std::alloc::Global;
use std::test::Fail;

fn named(alloc: Global, bytes: &[u8]) -> Result<Name, NoMemory> {
    Name::new(alloc, bytes).map_err(|_| NoMemory)
}

fn variables(alloc: Global) -> Result<Vars, NoMemory> {
    let mut vars = Vars::new(alloc);
    for name in [b"x".as_slice(), b"y2".as_slice()] {
        vars.number_of(named(alloc, name)?).map_err(|_| NoMemory)?;
    }
    Ok(vars)
}

fn replies(alloc: Global) -> Result<Vec<u8>, NoMemory> {
    let name = named(alloc, b"a.b")?;
    let mut out = Vec::new(alloc);
    doc_line(alloc, &name, 281_474_976_710_656, b"ab", &mut out)?;
    name_line(alloc, &name, 0, &mut out)?;
    shown_line(alloc, b"", &mut out)?;
    shown_line(alloc, b"\"\\\x00\x1f\x20~\x7f\xff", &mut out)?;
    query_line(alloc, &name, &Vars::new(alloc), &mut out)?;
    query_line(alloc, &name, &variables(alloc)?, &mut out)?;
    saved_line(alloc, 1, 3, &mut out)?;
    opened_line(alloc, 10, &mut out)?;
    written_line(alloc, 4_294_967_296, &mut out)?;
    number_line(alloc, 18_446_744_073_709_551_614, &mut out)?;
    Ok(out)
}

#[test]
fn lines_of_replies(rt: HostRuntime) -> Result<(), Fail> {
    let wanted = b"ok a.b 281474976710656 \"ab\"\n\
        a.b 0\n\
        \"\"\n\
        \"\\\"\\\\\\x00\\x1f ~\\x7f\\xff\"\n\
        ok a.b\n\
        ok a.b x y2\n\
        ok 1 3\n\
        ok 10\n\
        ok 4294967296\n\
        18446744073709551614\n";
    match replies(rt.alloc()) {
        Ok(out) => assert_eq!(rt; out.as_slice(), wanted.as_slice()),
        Err(NoMemory) => panic!(rt; "out of memory"),
    }
    Ok(())
}

fn words(alloc: Global) -> Result<Vec<u8>, NoMemory> {
    let kept = |bytes: &[u8]| named(alloc, bytes);
    let file = |bytes: &[u8]| ByteList::new(alloc, bytes);
    let mut out = Vec::new(alloc);
    for why in [
        Refusal::Syntax,
        Refusal::NoSuchDocument { name: kept(b"a")? },
        Refusal::NoSuchQuery { name: kept(b"q")? },
        Refusal::OutOfRange {
            first: 0,
            last: 2,
            len: 1,
        },
        Refusal::TooLong {
            len: 281_474_976_710_657,
        },
        Refusal::RangeTooWide { width: 4097 },
        Refusal::FormulaTooLong { len: 2049 },
        Refusal::BadFormula,
        Refusal::TooDeep,
        Refusal::TooManyPositions,
        Refusal::TooManyVariables,
        Refusal::NotFunctional { name: kept(b"x")? },
        Refusal::TooManyStates,
        Refusal::BadTuple,
        Refusal::OtherVariables,
        Refusal::NoSuchFile {
            file: file(b"b/c")?,
        },
        Refusal::FileTooLong { file: file(b"d")? },
        Refusal::CannotRead { file: file(b"e")? },
        Refusal::CannotWrite {
            file: file(b"f/g")?,
        },
        Refusal::BadImage { kind: 12 },
        Refusal::QueryTooLarge { parts: 129 },
        Refusal::NotOneVariable { count: 2 },
        Refusal::TooManyMatches,
        Refusal::NoSuchVersion { name: kept(b"v")? },
        Refusal::TooManyAnswers,
    ] {
        refusal_line(alloc, 7, &why, &mut out)?;
    }
    Ok(out)
}

#[test]
fn lines_of_refusals(rt: HostRuntime) -> Result<(), Fail> {
    let wanted = b"line 7: Syntax\n\
        line 7: NoSuchDocument a\n\
        line 7: NoSuchQuery q\n\
        line 7: OutOfRange 0 2 1\n\
        line 7: TooLong 281474976710657\n\
        line 7: RangeTooWide 4097\n\
        line 7: FormulaTooLong 2049\n\
        line 7: BadFormula\n\
        line 7: TooDeep\n\
        line 7: TooManyPositions\n\
        line 7: TooManyVariables\n\
        line 7: NotFunctional x\n\
        line 7: TooManyStates\n\
        line 7: BadTuple\n\
        line 7: OtherVariables\n\
        line 7: NoSuchFile b/c\n\
        line 7: FileTooLong d\n\
        line 7: CannotRead e\n\
        line 7: CannotWrite f/g\n\
        line 7: BadImage 12\n\
        line 7: QueryTooLarge 129\n\
        line 7: NotOneVariable 2\n\
        line 7: TooManyMatches\n\
        line 7: NoSuchVersion v\n\
        line 7: TooManyAnswers\n";
    match words(rt.alloc()) {
        Ok(out) => assert_eq!(rt; out.as_slice(), wanted.as_slice()),
        Err(NoMemory) => panic!(rt; "out of memory"),
    }
    Ok(())
}
