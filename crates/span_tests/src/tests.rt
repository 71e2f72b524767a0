//! Tests of scripts with their exact output, of arguments, and of calls that fail.

use crate::halves::ran_by_halves;
use crate::running::{Setting, plain, ran, whole};
use span_run::Status;
use std::test::Fail;

/// A script, its whole output and its status.
type Row = (&'static str, &'static str, Status);

const ROWS: [Row; 32] = [
    (
        "text d abracadabra\n",
        "ok d 11 \"abracadabra\"\n",
        Status::Done,
    ),
    ("text d ", "ok d 0 \"\"\n", Status::Done),
    ("", "", Status::Done),
    (
        "# note\n\ntext 9x ab\nlist q d limit 0\nfrob\n",
        "line 3: Syntax\nline 4: Syntax\nline 5: Syntax\n",
        Status::SomeRefused,
    ),
    (
        "text d abracadabra\nshow d 1 5\nshow d 12 12\nshow d 1 13\nshow e 1 1\nshow d 5 4\n",
        "ok d 11 \"abracadabra\"\n\"abra\"\n\"\"\nline 4: OutOfRange 1 13 11\nline 5: NoSuchDocument e\nline 6: OutOfRange 5 4 11\n",
        Status::SomeRefused,
    ),
    (
        "text d abcd\nlet e = copy(d,1,3,5)\nlet e = copy(d,1,3,6)\nlet e = insert(d,d,3)\n",
        "ok d 4 \"abcd\"\nok e 6 \"abcdab\"\nline 3: OutOfRange 6 6 4\nok e 8 \"ababcdcd\"\n",
        Status::SomeRefused,
    ),
    (
        "text d abcd\nlet e = extract(d,3,2)\nlet e = delete(d,1,5)\n",
        "ok d 4 \"abcd\"\nline 2: OutOfRange 3 2 4\nok e 0 \"\"\n",
        Status::SomeRefused,
    ),
    (
        "text d ab\nlet d = concat(d,nope)\nshow d 1 3\nshow d 2 2\n",
        "ok d 2 \"ab\"\nline 2: NoSuchDocument nope\n\"ab\"\n\"\"\n",
        Status::SomeRefused,
    ),
    (
        "text a x\ntext b y\ntext a zz\nnames\ndrop a\nnames\ndrop a\n",
        "ok a 1 \"x\"\nok b 1 \"y\"\nok a 2 \"zz\"\na 2\nb 1\nend\nok\nb 1\nend\nline 7: NoSuchDocument a\n",
        Status::SomeRefused,
    ),
    (
        "query q ($x{a}|b)\nquery q $x{a}$x{b}\nquery q ($x{a})*\nquery q a)\n",
        "ok q x\nline 2: NotFunctional x\nline 3: NotFunctional x\nline 4: BadFormula\n",
        Status::SomeRefused,
    ),
    (
        "query q [ab]*a[ab][ab][ab][ab][ab]\nquery q [ab]*a[ab][ab][ab][ab][ab][ab]\n",
        "ok q\nline 2: TooManyStates\n",
        Status::SomeRefused,
    ),
    (
        "text d aa\nquery q .*$x{a+}.*\ntest q d\nquery r b\ntest r d\ntest z d\ntest q e\n",
        "ok d 2 \"aa\"\nok q x\nyes\nok r\nno\nline 6: NoSuchQuery z\nline 7: NoSuchDocument e\n",
        Status::SomeRefused,
    ),
    (
        "text d aa\nquery q .*$x{a+}.*\ntest q d\nhas q d x=[1,3)\nhas q d x=[1,4)\nhas q d x=[0,1)\nhas q d y=[1,2)\ntest r d\n",
        "ok d 2 \"aa\"\nok q x\nyes\nyes\nno\nline 6: BadTuple\nline 7: OtherVariables\nline 8: NoSuchQuery r\n",
        Status::SomeRefused,
    ),
    (
        "text d aa\nquery q .*$x{a+}.*\nlist q d\n",
        "ok d 2 \"aa\"\nok q x\nx=[1,2)\nx=[1,3)\nx=[2,3)\nend\n",
        Status::Done,
    ),
    (
        "text d aa\nquery q (.*)(.*)$x{a}.*\nlist q d\n",
        "ok d 2 \"aa\"\nok q x\nx=[1,2)\nx=[2,3)\nend\n",
        Status::Done,
    ),
    (
        "text d \nquery q $x{}\nlist q d\n",
        "ok d 0 \"\"\nok q x\nx=[1,1)\nend\n",
        Status::Done,
    ),
    (
        "text d a\nquery q .*$x{a*}.*\nlist q d\n",
        "ok d 1 \"a\"\nok q x\nx=[1,1)\nx=[1,2)\nx=[2,2)\nend\n",
        Status::Done,
    ),
    (
        "text d ab\nquery q $x{.*}$y{.*}\nlist q d\n",
        "ok d 2 \"ab\"\nok q x y\nx=[1,1),y=[1,3)\nx=[1,2),y=[2,3)\nx=[1,3),y=[3,3)\nend\n",
        Status::Done,
    ),
    (
        "text d ababababab\nquery q .*$x{a[ab]*}.*\nlet d = extract(d,1,5)\nlist q d after x=[1,10)\nlist q d after x=[9,10)\nlist q d after x=[1,1) limit 2\n",
        "ok d 10 \"ababababab\"\nok q x\nok d 4 \"abab\"\nx=[3,4)\nx=[3,5)\nend\nend\nx=[1,2)\nx=[1,3)\nmore\n",
        Status::Done,
    ),
    (
        "text d aa\nquery q a*\nlist q d\nlist q d after ()\nquery q []\ntest q d\nunquery q\nunquery q\n",
        "ok d 2 \"aa\"\nok q\n()\nend\nend\nok q\nno\nok\nline 8: NoSuchQuery q\n",
        Status::SomeRefused,
    ),
    (
        "text d ab\nquery q ($x{a})?.*\nlist q d\nlist q d after x=[1,2)\nlist q d after x=[9,9)\nlist q d after x=-\nhas q d x=-\n",
        "ok d 2 \"ab\"\nok q x\nx=[1,2)\nx=-\nend\nx=-\nend\nx=-\nend\nend\nyes\n",
        Status::Done,
    ),
    (
        "text d a\nquery q $x{a}|$y{b}\nlist q d\n",
        "ok d 1 \"a\"\nok q x y\nx=[1,2),y=-\nend\n",
        Status::Done,
    ),
    (
        "list q d after z\ntext d a\nlist q d after z\nquery q $x{a}\nlist q d after z\nlist q d after z=-\nlist q d after x=- limit 10001\n",
        "line 1: NoSuchDocument d\nok d 1 \"a\"\nline 3: NoSuchQuery q\nok q x\nline 5: BadTuple\nline 6: OtherVariables\nline 7: Syntax\n",
        Status::SomeRefused,
    ),
    (
        "text a aa\ntext b b\nquery q .*$x{a+}.*\nlistall q limit 2\nlistall r\n",
        "ok a 2 \"aa\"\nok b 1 \"b\"\nok q x\ndoc a\nx=[1,2)\nx=[1,3)\nmore\ndoc b\nend\ndone\nline 5: NoSuchQuery r\n",
        Status::SomeRefused,
    ),
    ("query q a\nlistall q\n", "ok q\ndone\n", Status::Done),
    (
        "text d abracadabra\ntext w X\nquery q .*$x{a}.*\nreplace e q d w\n",
        "ok d 11 \"abracadabra\"\nok w 1 \"X\"\nok q x\nok e 11 \"XbrXcXdXbrX\"\n",
        Status::Done,
    ),
    (
        "text d aa\ntext w -\nquery q .*$x{a*}.*\nreplace e q d w\nquery r $x{a}$y{a}\nreplace e r d w\n",
        "ok d 2 \"aa\"\nok w 1 \"-\"\nok q x\nok e 5 \"-----\"\nok r x y\nline 6: NotOneVariable 2\n",
        Status::SomeRefused,
    ),
    (
        "text d baaac\ntext w x\nquery q .*$x{a*}.*\nreplace e q d w longest\nreplace e q d w shortest\n",
        "ok d 5 \"baaac\"\nok w 1 \"x\"\nok q x\nok e 5 \"xbxcx\"\nline 5: Syntax\n",
        Status::SomeRefused,
    ),
    (
        "bytes d \"a\\nb\\x00\\\"\"\nshow d 1 6\nbytes d \"a\n",
        "ok d 5 \"a\\x0ab\\x00\\\"\"\n\"a\\x0ab\\x00\\\"\"\nline 3: Syntax\n",
        Status::SomeRefused,
    ),
    (
        "text d ab\nmark v\nlet d = concat(d,d)\nback v\nnames\nback w\ndrop d\nunmark v\ncompact\nnames\n",
        "ok d 2 \"ab\"\nok\nok d 4 \"abab\"\nok\nd 2\nend\nline 6: NoSuchVersion w\nok\nok\nok\nend\n",
        Status::SomeRefused,
    ),
    (
        "text d abracadabra\ntext e xyz\nquery q .*$x{a}.*\nlist q d limit 1\ndrop e\ncompact\nlist q d after x=[1,2) limit 1\n",
        "ok d 11 \"abracadabra\"\nok e 3 \"xyz\"\nok q x\nx=[1,2)\nmore\nok\nok\nx=[4,5)\nmore\n",
        Status::Done,
    ),
    (
        "text d ab\nquery p $x{a}.\nquery q .$x{b}\nunion u p q\nlist u d\nunion u p p\nlist u d\nquery r $y{.}.\njoin j p r\nlist j d\njoin k p q\nlist k d\nproject m j y\nlist m d\nproject m p ()\nlist m d\nproject m p z\nunion m p zz\n",
        "ok d 2 \"ab\"\nok p x\nok q x\nok u x\nx=[1,2)\nx=[2,3)\nend\nok u x\nx=[1,2)\nend\nok r y\nok j x y\nx=[1,2),y=[1,2)\nend\nok k x\nend\nok m y\ny=[1,2)\nend\nok m\n()\nend\nline 17: OtherVariables\nline 18: NoSuchQuery zz\n",
        Status::SomeRefused,
    ),
];

#[test]
fn rows(rt: HostRuntime) -> Result<(), Fail> {
    for (text, output, status) in ROWS {
        let script = text.as_bytes();
        let output = output.as_bytes();
        let expected = whole(status, output);
        for piece in [1, 7, 1000] {
            let setting = Setting {
                piece,
                ..plain(script)
            };
            assert_eq!(rt; ran(&rt, rt.alloc(), setting, output)?, expected, "{text}");
        }
        assert_eq!(rt;
            ran_by_halves(&rt, rt.alloc(), script, output)?,
            expected,
            "{text}"
        );
    }
    Ok(())
}

/// The number of the failing read and that of the failing write, or 0 for none, the status, and the written bytes.
const FAULTS: [(u64, u64, Status, &str); 3] = [
    (1, 0, Status::ScriptFault, ""),
    (0, 2, Status::OutFault, "ok d 2 \"ab\"\n"),
    (
        0,
        4,
        Status::OutFault,
        "ok d 2 \"ab\"\nok d 4 \"abab\"\nd 4\n",
    ),
];

#[test]
fn faults(rt: HostRuntime) -> Result<(), Fail> {
    for (bad_read, bad_write, status, output) in FAULTS {
        let setting = Setting {
            bad_read,
            bad_write,
            ..plain(b"text d ab\nlet d = concat(d,d)\nnames\nshow d 1 2\n")
        };
        let told = ran(&rt, rt.alloc(), setting, output.as_bytes())?;
        assert_eq!(rt; told, whole(status, output.as_bytes()));
    }
    Ok(())
}

/// A query whose automaton has 129 states.
const WIDE_QUERY: &str = "query q [ab]*a[ab][ab][ab][ab][ab][ab]\n";

/// An argument, a script, its whole output and its status.
const ARGUMENTS: [(&str, &str, &str, Status); 9] = [
    ("--workers=0", "names\n", "", Status::Usage),
    ("--workers=65", "names\n", "", Status::Usage),
    ("--states=127", "names\n", "", Status::Usage),
    ("--states=1025", "names\n", "", Status::Usage),
    ("--demo=47", "names\n", "", Status::Usage),
    ("--help", "names\n", "", Status::Usage),
    (
        "--states=128",
        WIDE_QUERY,
        "line 1: TooManyStates\n",
        Status::SomeRefused,
    ),
    ("--states=129", WIDE_QUERY, "ok q\n", Status::Done),
    ("--states=1024", WIDE_QUERY, "ok q\n", Status::Done),
];

#[test]
fn arguments(rt: HostRuntime) -> Result<(), Fail> {
    for (word, script, output, status) in ARGUMENTS {
        let setting = Setting {
            words: &[word],
            ..plain(script.as_bytes())
        };
        let told = ran(&rt, rt.alloc(), setting, output.as_bytes())?;
        assert_eq!(rt; told, whole(status, output.as_bytes()), "{word}");
    }
    Ok(())
}
