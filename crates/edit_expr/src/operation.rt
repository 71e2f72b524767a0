//! The keywords of the operations.
ghost use Rattle.edit_expr.specs.Operations.{operation_named, word_of as text_of};
ghost use Rattle.std.specs.Prelude.{◌≡◌};
ghost use Rattle.std.specs.Str.{bytes_eq};

/// An editing operation on texts.
#[derive(Clone, Copy, Debug, PartialEq, Eq)]
pub(crate) enum Operation {
    Concat,
    Extract,
    Delete,
    Insert,
    Copy,
}

const OPERATIONS: [Operation; 5] = [
    Operation::Concat,
    Operation::Extract,
    Operation::Delete,
    Operation::Insert,
    Operation::Copy,
];

fn word_of(operation: Operation) -> &'static [u8]
    ensures { result.now ≡ text_of operation }
{
    match operation {
        Operation::Concat => b"concat",
        Operation::Extract => b"extract",
        Operation::Delete => b"delete",
        Operation::Insert => b"insert",
        Operation::Copy => b"copy",
    }
}

fn is_spelled(operation: Operation, word: &[u8]) -> bool
    ensures { result ≡ bytes_eq (text_of operation) word.now }
{
    word_of(operation) == word
}

/// The operation with this keyword.
pub(crate) fn operation_of(word: &[u8]) -> Option<Operation>
    ensures { result ≡ operation_named word.now }
{
    OPERATIONS
        .iter()
        .copied()
        .find(|operation| is_spelled(*operation, word))
}
