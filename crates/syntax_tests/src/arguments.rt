//! Tests of the command line's arguments.
use span_words::{Options, WordsRefusal, read_words, usage_text};
use std::alloc::{AllocError, Global};
use std::test::Fail;

fn words_of(alloc: Global, words: &[&str]) -> Result<Vec<String>, AllocError> {
    let mut all = Vec::new(alloc);
    for word in words {
        all.push(String::from_str(alloc, word)?)?;
    }
    Ok(all)
}

#[test]
fn words_are_read(rt: HostRuntime) -> Result<(), Fail> {
    let alloc = rt.alloc();
    let words = words_of(alloc, &["--demo", "+4", "--workers=04"])?;
    let wanted = Options {
        workers: 4,
        states: 128,
        demo: Some(4),
    };
    assert_eq!(rt; read_words(alloc, &words), Ok(wanted));
    assert_eq!(rt; usage_text(alloc, &words)?.bytes().len(), 0);
    Ok(())
}

#[test]
fn most_states_are_read(rt: HostRuntime) -> Result<(), Fail> {
    let alloc = rt.alloc();
    let words = words_of(alloc, &["--states=1024"])?;
    let wanted = Options {
        workers: 1,
        states: 1024,
        demo: None,
    };
    assert_eq!(rt; read_words(alloc, &words), Ok(wanted));
    Ok(())
}

#[test]
fn usage_is_reported(rt: HostRuntime) -> Result<(), Fail> {
    let alloc = rt.alloc();
    let cases = [
        ("--workers=0", "'0' for '--workers"),
        ("--workers=65", "65 is not in 1..=64"),
        ("--states=127", "127 is not in 128..=1024"),
        ("--states=1025", "1025 is not in 128..=1024"),
        ("--demo=47", "47 is not in 1..=46"),
        ("--workers", "a value is required for '--workers"),
        ("--states", "a value is required for '--states"),
        ("x", "unexpected argument 'x'"),
        ("--help", "--demo <demo> "),
    ];
    for (word, told) in cases {
        let words = words_of(alloc, &[word])?;
        assert_eq!(rt;
            read_words(alloc, &words),
            Err(WordsRefusal::Usage),
            "{word}"
        );
        let text = usage_text(alloc, &words)?;
        let text = str::from_utf8(text.bytes()).ok().expect(&rt, "text");
        assert!(rt; text.starts_with("spanbase: Usage\n"), "{word}");
        assert!(rt; text.contains(told), "{word}");
    }
    Ok(())
}
