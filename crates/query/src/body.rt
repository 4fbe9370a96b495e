//! The bodies of searches and counts.
ghost use Rattle.std.specs.Prelude.{◌≡◌, option_map};
ghost use Rattle.serde_json.specs.View.{view, members_view};
ghost use Rattle.doc.specs.Mapping.{all_keys};
ghost use Rattle.doc.specs.Outcome.{Gives};
ghost use Rattle.query.specs.Body as spec;
ghost use Rattle.query.specs.Fault.{fault_of};
ghost use Rattle.query.specs.Shape.{check};
ghost use Rattle.query.specs.View.{query_view};

use crate::fault::QueryFault;
use crate::page::Page;
use crate::query::Query;
use crate::shape::{bad_at, members_of, whole_number};
use doc::Mapping;
use serde_json::{Map, Value};
use std::alloc::Global;

/// The body of a search, as the Elasticsearch search API has it: `query` (absent: `match_all`), `from` (0), `size` (10), and `track_total_hits`,
/// which changes nothing, as totals are exact.
#[derive(Drop)]
pub struct SearchBody {
    pub query: Query,
    pub page: Page,
}

impl SearchBody {
    /// The body that a JSON value is. Another key, and a `from` or `size` that is no whole number from 0 up, is `Parsing`, looked for before the
    /// query's own faults; `WindowTooLarge` is looked for after them.
    #[tactic(auto, unfolding(crate::specs::Body::body_of))]
    pub fn read(alloc: Global, mapping: &Mapping, value: &Value) -> Result<SearchBody, QueryFault>
        ensures { Gives fault_of (λ b. (query_view b.query, b.page)) result (spec.body_of mapping.now (view value.now)) }
    {
        check_keys(alloc, members_of(value)?)?;
        let from = whole_number(alloc, "from", 0, value.get("from"))?;
        let size = whole_number(alloc, "size", 10, value.get("size"))?;
        let query = query_or_all(alloc, mapping, value.get("query"))?;
        let page = Page::new(from, size)?;
        Ok(SearchBody { query, page })
    }
}

/// The body of a count, as the Elasticsearch count API has it: `query` (absent: `match_all`) and no other key.
#[derive(Drop)]
pub struct CountBody {
    pub query: Query,
}

impl CountBody {
    /// The body that a JSON value is. Another key is `Parsing`, looked for before the query's own faults.
    #[tactic(auto, unfolding(crate::specs::Body::counted_of))]
    pub fn read(alloc: Global, mapping: &Mapping, value: &Value) -> Result<CountBody, QueryFault>
        ensures { Gives fault_of (λ b. query_view b.query) result (spec.counted_of mapping.now (view value.now)) }
    {
        check_count_keys(alloc, members_of(value)?)?;
        Ok(CountBody {
            query: query_or_all(alloc, mapping, value.get("query"))?,
        })
    }
}

fn check_count_keys(alloc: Global, members: &Map<String, Value>) -> Result<(), QueryFault>
    ensures { Gives fault_of (λ u. u) result (check (all_keys spec.is_count_key (members_view members.now.entries))) }
{
    for (name, _) in members {
        if name.as_str() != "query" {
            return Err(bad_at(alloc, name.as_str(), "this key isn't known in a count body"));
        }
    }
    Ok(())
}

fn check_keys(alloc: Global, members: &Map<String, Value>) -> Result<(), QueryFault>
    ensures { Gives fault_of (λ u. u) result (check (all_keys spec.is_body_key (members_view members.now.entries))) }
{
    for (name, _) in members {
        if !is_body_key(name.as_str()) {
            return Err(bad_at(
                alloc,
                name.as_str(),
                "this key isn't known in a search body",
            ));
        }
    }
    Ok(())
}

fn is_body_key(name: &str) -> bool
    ensures { result ≡ spec.is_body_key name.now }
{
    matches!(name, "query" | "from" | "size" | "track_total_hits")
}

fn query_or_all(
    alloc: Global,
    mapping: &Mapping,
    value: Option<&Value>,
) -> Result<Query, QueryFault>
    ensures { Gives fault_of query_view result
        (spec.query_or_all mapping.now (option_map (λ v. view v.now) value.entry)) }
{
    match value {
        None => Ok(Query::MatchAll),
        Some(value) => Query::read(alloc, mapping, value),
    }
}
