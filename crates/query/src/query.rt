//! A query that has been read.

use analysis::Bounds;
use doc::Scalar;

/// Whether one of the tokens of a `match` is enough, or all are wanted.
#[derive(Clone, Copy, Debug, PartialEq, Eq)]
pub enum Operator {
    Or,
    And,
}

/// A query, its values converted under the mapping that it was read with.
#[derive(Drop)]
pub enum Query {
    /// Each document.
    MatchAll,
    /// No document: a query on a field that isn't mapped.
    Nothing,
    /// The documents in which some term of the field is the value.
    Term(String, Scalar),
    /// Those in which some term of the field is one of the values.
    Terms(String, Vec<Scalar>),
    /// Those in which one, or each, of the tokens is a term of the text field.
    Match(String, Operator, Vec<Scalar>),
    /// Those in which some term of the field begins with the text.
    Prefix(String, String),
    /// Those in which some term of the field lies within the bounds.
    Range(String, Bounds),
    /// Those in which the field has a value.
    Exists(String),
    /// Those that all queries of `filter` and `must` mean, none of `must_not`, and at least the minimum number of `should`.
    Bool {
        filter: Vec<Query>,
        must: Vec<Query>,
        must_not: Vec<Query>,
        should: Vec<Query>,
        minimum_should_match: u64,
    },
}
