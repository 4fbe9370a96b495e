//! Two lists of documents as one.
ghost use Rattle.std.specs.Prelude.{◌≡◌, [], true, map, None, IfOk, IfSome};
ghost use Rattle.std.specs.FinMap.Entries.{is_sorted};
ghost use Rattle.doc.specs.Id.{id_cmp};
ghost use Rattle.engine.specs.Entry.{entry_view};
ghost use Rattle.engine.specs.Parts.{merged, IsNext};

use crate::read::documents::Entry;
use std::alloc::{AllocError, Global};
use std::cmp::Ordering;

/// The documents of both lists, in byte order of their ids. At an id of both it is that of the first.
pub(crate) fn merge<'a>(
    alloc: Global,
    left: &[Entry<'a>],
    right: &[Entry<'a>],
) -> Result<Vec<Entry<'a>>, AllocError>
    requires left { is_sorted id_cmp (map entry_view left.now) ≡ true }
    requires right { is_sorted id_cmp (map entry_view right.now) ≡ true }
    ensures { IfOk result (λ v. map entry_view v.items ≡ merged (map entry_view left.entry.now) (map entry_view right.entry.now)) }
{
    let mut all = Vec::with_capacity(alloc, left.len().saturating_add(right.len()))?;
    let mut from_left = 0;
    let mut from_right = 0;
    while let Some(next) = first_of(&left[from_left..], &right[from_right..]) {
        all.push(next.entry)?;
        from_left += next.from_left;
        from_right += next.from_right;
    }
    Ok(all)
}

/// Merges lists that aren't needed any more, in byte order of their ids. Where the first is empty, it answers the second as it is.
pub(crate) fn merge_owned<'a>(
    alloc: Global,
    left: Vec<Entry<'a>>,
    right: Vec<Entry<'a>>,
) -> Result<Vec<Entry<'a>>, AllocError>
    requires left { is_sorted id_cmp (map entry_view left.items) ≡ true }
    requires right { is_sorted id_cmp (map entry_view right.items) ≡ true }
    ensures { IfOk result (λ v. map entry_view v.items ≡ merged (map entry_view left.entry.items) (map entry_view right.entry.items)) }
{
    if left.is_empty() {
        return Ok(right);
    }
    merge(alloc, &left, &right)
}

/// The first document of two lists, and how many of each it stands for.
#[derive(Clone, Copy)]
struct Taken<'a> {
    entry: Entry<'a>,
    from_left: usize,
    from_right: usize,
}

/// The first document of both lists.
fn first_of<'a>(left: &[Entry<'a>], right: &[Entry<'a>]) -> Option<Taken<'a>>
    requires left { is_sorted id_cmp (map entry_view left.now) ≡ true }
    requires right { is_sorted id_cmp (map entry_view right.now) ≡ true }
    ensures some { IfSome result (λ n. IsNext (map entry_view left.entry.now) (map entry_view right.entry.now) (entry_view n.entry) n.from_left n.from_right) }
    ensures none { result ≡ None → merged (map entry_view left.entry.now) (map entry_view right.entry.now) ≡ [] }
{
    if left.is_empty() {
        if right.is_empty() {
            return None;
        }
        return Some(Taken {
            entry: right[0],
            from_left: 0,
            from_right: 1,
        });
    }
    let x = left[0];
    if right.is_empty() {
        return Some(Taken {
            entry: x,
            from_left: 1,
            from_right: 0,
        });
    }
    let y = right[0];
    match x.id.order(y.id) {
        Ordering::Less => Some(Taken {
            entry: x,
            from_left: 1,
            from_right: 0,
        }),
        Ordering::Equal => Some(Taken {
            entry: x,
            from_left: 1,
            from_right: 1,
        }),
        Ordering::Greater => Some(Taken {
            entry: y,
            from_left: 0,
            from_right: 1,
        }),
    }
}
