//! Tests of tuples as text.
use span_cursor::{TupleRefusal, print, read};
use span_types::{Name, NoMemory, Span, Tuple, Vars};
use std::alloc::Global;
use std::test::Fail;

fn variables(alloc: Global, names: &[&[u8]]) -> Result<Vars, NoMemory> {
    let mut vars = Vars::new(alloc);
    for name in names {
        let name = Name::new(alloc, name).map_err(|_| NoMemory)?;
        vars.number_of(name).map_err(|_| NoMemory)?;
    }
    Ok(vars)
}

fn printed(alloc: Global, tuple: &Tuple, vars: &Vars) -> Option<Vec<u8>> {
    if vars.count() != tuple.count() {
        return None;
    }
    let mut into = [b'#'; 800];
    let len = print(tuple, vars, &mut into);
    into[..len].to_vec(alloc).ok()
}

#[test]
fn tuples_of_two_variables(rt: HostRuntime) -> Result<(), Fail> {
    let alloc = rt.alloc();
    let Ok(vars) = variables(alloc, &[b"x".as_slice(), b"y".as_slice()]) else {
        panic!(rt; "out of memory");
    };
    let opened = Tuple::none(2).with_span(0, Some(Span { start: 1, end: 3 }));
    let last = Span {
        start: 281_474_976_710_657,
        end: 281_474_976_710_657,
    };
    for (text, tuple) in [
        (b"x=-,y=-".as_slice(), Tuple::none(2)),
        (b"x=[1,3),y=-".as_slice(), opened),
        (
            b"x=[1,3),y=[281474976710657,281474976710657)".as_slice(),
            opened.with_span(1, Some(last)),
        ),
    ] {
        assert_eq!(rt; read(text, &vars), Ok(tuple));
        match printed(alloc, &tuple, &vars) {
            Some(out) => assert_eq!(rt; out.as_slice(), text),
            None => panic!(rt; "not printed"),
        }
    }
    for text in [
        b"()".as_slice(),
        b"x=-".as_slice(),
        b"y=-,x=-".as_slice(),
        b"x=-,x=-".as_slice(),
        b"x=-,y=-,z=-".as_slice(),
        b"a=-,b=-,c=-,d=-,e=-,f=-,g=-,h=-,i=-".as_slice(),
    ] {
        assert_eq!(rt; read(text, &vars), Err(TupleRefusal::OtherVariables));
    }
    for text in [
        b"".as_slice(),
        b"x".as_slice(),
        b"x=".as_slice(),
        b"x=[0,1),y=-".as_slice(),
        b"x=[2,1),y=-".as_slice(),
        b"x=[01,2),y=-".as_slice(),
        b"x=[1,281474976710658),y=-".as_slice(),
        b"x=[1,3],y=-".as_slice(),
        b"x=[1,3)y=-".as_slice(),
        b"x=[1,3), y=-".as_slice(),
        b"x=-,y=-,".as_slice(),
        b",x=-,y=-".as_slice(),
        b"9x=-,y=-".as_slice(),
        b"(),x=-".as_slice(),
        b"() ".as_slice(),
    ] {
        assert_eq!(rt; read(text, &vars), Err(TupleRefusal::BadTuple));
    }
    Ok(())
}

#[test]
fn tuple_of_no_variables(rt: HostRuntime) -> Result<(), Fail> {
    let alloc = rt.alloc();
    let vars = Vars::new(alloc);
    assert_eq!(rt; read(b"()", &vars), Ok(Tuple::none(0)));
    assert_eq!(rt; read(b"x=-", &vars), Err(TupleRefusal::OtherVariables));
    match printed(alloc, &Tuple::none(0), &vars) {
        Some(out) => assert_eq!(rt; out.as_slice(), b"()".as_slice()),
        None => panic!(rt; "not printed"),
    }
    Ok(())
}

#[test]
fn texts_of_refusals(rt: HostRuntime) -> Result<(), Fail> {
    let alloc = rt.alloc();
    for (why, text) in [
        (TupleRefusal::BadTuple, "not a tuple"),
        (TupleRefusal::OtherVariables, "a tuple of other variables"),
    ] {
        assert_eq!(rt; why.to_string(alloc)?.as_str(), text);
    }
    Ok(())
}
