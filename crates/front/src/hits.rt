//! The page of a search's hits, which shares their texts where these are large.
ghost use Rattle.std.specs.Prelude.{◌≡◌, ◌++◌, IfOk, OnOk, string_bytes};
ghost use Rattle.front.specs.Page as spec;

use crate::page::push_index;
use crate::pieces::{Pieces, is_shared};
use crate::reply::Hit;
use std::alloc::{AllocError, Global};

/// The body of the page of a search's hits.
#[tactic(auto, unfolding(crate::specs::Page::hits_body))]
pub(crate) fn hits_body(
    alloc: Global,
    greets: bool,
    index: &str,
    total: u64,
    hits: &[Hit],
) -> Result<Pieces, AllocError>
    ensures { IfOk result (λ t. t ≡ spec.hits_body greets index.now total hits.now) }
{
    let middle = hit_middle(alloc, greets, index)?;
    let middle = middle.as_str();
    let mut first = String::with_capacity(alloc, room_of(middle, hits))?;
    first.push_str(
        "{\"_shards\":{\"failed\":0,\"skipped\":0,\"successful\":1,\"total\":1},\"hits\":{\"hits\":[",
    )?;
    let mut body = Pieces::of(alloc, first);
    push_hits(alloc, &mut body, middle, hits)?;
    let end = hits_end(alloc, total)?;
    body.push_str(end.as_str())?;
    Ok(body)
}

#[tactic(auto, unfolding(crate::specs::Page::hits_end))]
fn hits_end(alloc: Global, total: u64) -> Result<String, AllocError>
    ensures { IfOk result (λ t. string_bytes t ≡ spec.hits_end total) }
{
    format!(in alloc;
        "],\"max_score\":null,\"total\":{{\"relation\":\"eq\",\"value\":{total}}}}},\"timed_out\":false,\"took\":0}}"
    )
}

/// What stands between a hit's id and its source. All hits of a page share this text.
#[tactic(auto, unfolding(crate::specs::Page::hit_middle))]
fn hit_middle(alloc: Global, greets: bool, index: &str) -> Result<String, AllocError>
    ensures { IfOk result (λ t. string_bytes t ≡ spec.hit_middle greets index.now) }
{
    let room = index.len().saturating_add(64);
    let mut middle = String::with_capacity(alloc, room)?;
    push_index(alloc, greets, index, &mut middle)?;
    middle.push_str(",\"_score\":null,\"_source\":")?;
    Ok(middle)
}

/// Enough room for the first text of a page, unless an id is escaped.
fn room_of(middle: &str, hits: &[Hit]) -> usize {
    let mut room: usize = 256;
    for hit in hits {
        if is_shared(&hit.source) {
            return room;
        }
        room = room.saturating_add(room_of_hit(middle, hit));
    }
    room
}

fn room_of_hit(middle: &str, hit: &Hit) -> usize {
    let texts = hit.id.as_str().len() + hit.source.as_str().len();
    middle.len().saturating_add(texts + 16)
}

fn push_hits(alloc: Global, body: &mut Pieces, middle: &str, hits: &[Hit]) -> Result<(), AllocError>
    ensures { OnOk result (body.new ≡ body.old ++ spec.hits_text middle.now hits.now) }
{
    match hits {
        [] => Ok(()),
        [hit, others @ ..] => {
            push_hit(alloc, body, middle, hit)?;
            push_more_hits(alloc, body, middle, others)
        }
    }
}

fn push_more_hits(
    alloc: Global,
    body: &mut Pieces,
    middle: &str,
    hits: &[Hit],
) -> Result<(), AllocError>
    ensures { OnOk result (body.new ≡ body.old ++ spec.more_hits middle.now hits.now) }
{
    for hit in hits {
        body.push_str(",")?;
        push_hit(alloc, body, middle, hit)?;
    }
    Ok(())
}

#[tactic(auto, unfolding(crate::specs::Page::hit_text))]
fn push_hit(alloc: Global, body: &mut Pieces, middle: &str, hit: &Hit) -> Result<(), AllocError>
    ensures { OnOk result (body.new ≡ body.old ++ spec.hit_text middle.now hit.now) }
{
    body.push_str("{\"_id\":")?;
    body.push_quoted(alloc, hit.id.as_str())?;
    body.push_str(middle)?;
    body.push_source(alloc, &hit.source)?;
    body.push_str("}")
}
