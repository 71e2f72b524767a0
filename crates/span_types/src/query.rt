//! Query trees.
use crate::formula::Formula;
use crate::vars::Vars;

/// A query: a formula with the names of its variables, or an operation of the spanner algebra (Fagin et al., *Document
/// Spanners*, JACM 2015) on one or two queries. In a join, a variable without a span agrees only with one without a
/// span, which is this project's own rule.
#[derive(Drop)]
pub enum QueryTree {
    /// A formula, with the names of its variables by number.
    Leaf(Formula, Vars),

    /// The assignments of either side.
    Union(Box<QueryTree>, Box<QueryTree>),

    /// The unions of an assignment of each side that agree on every name of both.
    Join(Box<QueryTree>, Box<QueryTree>),

    /// The restrictions of the assignments to a list of names.
    Project(Box<QueryTree>, Vars),
}

pub mod copies;
