//! Parts of lines: words, numbers and lists of names.
//!
//! ```text
//! assert_eq!(cut_word(b"show d 1 4"), Some((b"show", b"d 1 4")));
//! assert_eq!(number(b"4096"), Some(4096));
//! assert_eq!(number(b"007"), None);                        // a number is written in one way only
//! assert!(is_name_list(b"x,y"));
//! ```
//!
//! A number is exactly what prints as that number: no sign, no leading zero, below 2^64. Every call takes one pass over
//! the bytes that it reads, and no memory: it returns parts of its arguments.
//!
//! Proved: A NUM is exactly what prints as the number (`number`). Arguments and lists of names are cut as specified.
#![tactic(auto)]

mod list;
mod numeral;
mod word;

pub use list::is_name_list;
pub use numeral::number;
pub use word::{cut_at, cut_word, is_same};

#[cfg(test)]
mod tests {
    use super::*;
    use std::test::Fail;

    #[test]
    fn numbers(rt: HostRuntime) -> Result<(), Fail> {
        for (text, want) in [
            (b"0".as_slice(), Some(0)),
            (b"10".as_slice(), Some(10)),
            (b"18446744073709551615".as_slice(), Some(u64::MAX)),
            (b"18446744073709551616".as_slice(), None),
            (b"".as_slice(), None),
            (b"00".as_slice(), None),
            (b"07".as_slice(), None),
            (b"+1".as_slice(), None),
            (b"-1".as_slice(), None),
            (b"1 ".as_slice(), None),
            (b"\xff".as_slice(), None),
        ] {
            assert_eq!(rt; number(text), want);
        }
        Ok(())
    }

    #[test]
    fn lists_of_names(rt: HostRuntime) -> Result<(), Fail> {
        for (text, want) in [
            (b"()".as_slice(), true),
            (b"x".as_slice(), true),
            (b"x,y,x".as_slice(), true),
            (b"".as_slice(), false),
            (b"x,".as_slice(), false),
            (b",x".as_slice(), false),
            (b"x,,y".as_slice(), false),
            (b"x, y".as_slice(), false),
            (b"(x)".as_slice(), false),
            (b"(),x".as_slice(), false),
        ] {
            assert_eq!(rt; is_name_list(text), want);
        }
        Ok(())
    }
}
