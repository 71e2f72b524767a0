//! Theorems about the language, each as the contract of a function that does nothing.
ghost use Rattle.span_language.specs.Laws.{ChangesNothing, HasOneOutput, HasOneReply, ReadsShown};

/// A rejected line changes nothing, and neither does a line without a command.
pub fn refusals()
    ensures { ChangesNothing }
{}

/// A line has exactly one reply and one resulting world. The exception is `save`, which may write any valid image of
/// the documents. Lines that use files are covered only if the files are observable. After a `write` the files are the
/// same under each name.
pub fn replies()
    ensures { HasOneReply }
{}

/// A list of such lines has exactly one output and one resulting world.
pub fn outputs()
    ensures { HasOneOutput }
{}

/// What `show` prints is read by `bytes` as the same bytes.
pub fn shown_texts()
    ensures { ReadsShown }
{}
