//! Laws of the definitions.
ghost use Rattle.script_syntax.specs.Syntax.{OneCommand};

/// A line is the text of at most one command.
pub fn one_command()
    ensures { OneCommand }
{}
