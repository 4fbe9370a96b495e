//! Laws of queries, in the words of the documents that they mean. The functions do nothing: each has a law as its contract.

ghost use Rattle.std.specs.Prelude.{◌≡◌, ℕ, ◌<◌, ◌≤◌, Bool, true, false, not, ◌&&◌, ◌||◌, List, [], ◌∷◌, length, None, Some, Ok, IsTrue};
ghost use Rattle.std.specs.List.{list_any};
ghost use Rattle.serde_json.specs.Data.{Data};
ghost use Rattle.doc.specs.Fields.{kind_at};
ghost use Rattle.doc.specs.Mapping.{MappingData};
ghost use Rattle.doc.specs.Scalar.{Scalar};
ghost use Rattle.doc.specs.declared.mapping.Kind.TheVariants.{Long};
ghost use Rattle.query.specs.Distinct.{distinct};
ghost use Rattle.query.specs.Laws.{unbounded, only_must, only_filter, only_must_not, either, both};
ghost use Rattle.query.specs.Meaning.{means};
ghost use Rattle.query.specs.Query.{Query, term, terms, match_tokens, range, exists, clauses, depth};
ghost use Rattle.query.specs.Reading.{query_of};
ghost use Rattle.query.specs.declared.query.Operator.{Operator};
ghost use Rattle.query.specs.declared.query.Operator.TheVariants.{Or, And};

/// A document is found by `must_not` exactly where it isn't found by the query.
pub fn must_not_is_the_complement()
    ensures { (m : MappingData) (source : List ℕ) (q : Query) → means m source (only_must_not q) ≡ not (means m source q) }
{}

/// A `bool` with one `must`, or with one `filter`, is that query.
pub fn one_must_is_that_query()
    ensures must { (m : MappingData) (source : List ℕ) (q : Query) → means m source (only_must q) ≡ means m source q }
    ensures filter { (m : MappingData) (source : List ℕ) (q : Query) → means m source (only_filter q) ≡ means m source q }
{}

/// Two queries in `should` find what either finds, in `must` what both find.
pub fn should_is_either_and_must_is_both()
    ensures should { (m : MappingData) (source : List ℕ) (p q : Query) → means m source (either p q) ≡ (means m source p || means m source q) }
    ensures must { (m : MappingData) (source : List ℕ) (p q : Query) → means m source (both p q) ≡ (means m source p && means m source q) }
{}

/// What `match` finds with `and` it finds with `or`.
pub fn all_tokens_imply_one()
    ensures { (m : MappingData) (source field : List ℕ) (tokens : List Scalar) → IsTrue (means m source (match_tokens field And tokens)) → IsTrue (means m source (match_tokens field Or tokens)) }
{}

/// A `match` without tokens finds nothing.
pub fn no_token_finds_nothing()
    ensures or { (m : MappingData) (source field : List ℕ) → means m source (match_tokens field Or []) ≡ false }
    ensures and { (m : MappingData) (source field : List ℕ) → means m source (match_tokens field And []) ≡ false }
{}

/// `terms` finds what `term` finds with one of the values.
pub fn terms_are_the_union_of_term()
    ensures { (m : MappingData) (source field : List ℕ) (vs : List Scalar) → means m source (terms field vs) ≡ list_any (λ v. means m source (term field v)) vs }
{}

/// A value of `terms`, or a token of `match`, that stands twice counts once.
pub fn a_value_counts_once()
    ensures terms { (m : MappingData) (source field : List ℕ) (vs : List Scalar) → means m source (terms field (distinct vs)) ≡ means m source (terms field vs) }
    ensures tokens { (m : MappingData) (source field : List ℕ) (operator : Operator) (vs : List Scalar) → means m source (match_tokens field operator (distinct vs)) ≡ means m source (match_tokens field operator vs) }
{}

/// A `range` without bounds on a long is `exists`.
pub fn no_bounds_is_exists()
    ensures { (m : MappingData) (source field : List ℕ) → kind_at field m.fields ≡ Some Long → means m source (range field unbounded) ≡ means m source (exists field) }
{}

/// A query that is read has at most 1,024 clauses, itself among them, and is at most 20 deep.
pub fn a_query_that_is_read_is_small()
    ensures clauses { (m : MappingData) (d : Data) (q : Query) → query_of m d ≡ Ok q → clauses q ≤ 1024 }
    ensures depth { (m : MappingData) (d : Data) (q : Query) → query_of m d ≡ Ok q → depth q ≤ 20 }
{}
