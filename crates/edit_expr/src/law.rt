//! Theorems about the definitions, each as the contract of a function that does nothing.
ghost use Rattle.edit_expr.specs.Laws.{EditRows, OneExpression};

/// A text is the notation of at most one expression, so its value is determined by the text.
pub fn one_expression()
    ensures { OneExpression }
{}

/// The values of the operations for some texts and positions.
pub fn edit_rows()
    ensures { EditRows }
{}
