//! The texts of a column in the making.
ghost use Rattle.std.specs.Prelude.{◌≡◌, ◌++◌, [], ℕ, List, false, string_bytes, IfOk, OnOk};
ghost use Rattle.std.specs.Str.{bytes_eq};
ghost use Rattle.segment.specs.Places.{added, as_list, ends_at, places_at, places_in, places_listed};
ghost use Rattle.segment.specs.Posted.{places_so_far};
ghost use Rattle.segment.specs.Woven.{risen};

use crate::listing::{map_of, sorted};
use crate::places::Places;
use seed::Seed;
use std::alloc::{AllocError, Global};
use std::collections::{BTreeMap, HashMap};
use std::mem;

/// The texts of so many documents are found sooner in a table, even if they are put in order after that.
const LEAST_DOCUMENTS: usize = 64;

/// Texts with their places, in order from the first, or else to be put in order at the end. Those of pieces are listed one after another.
#[derive(Drop)]
pub enum Texts {
    Ordered(BTreeMap<String, Places>),
    Table(HashMap<String, Places, Seed>),
    Listed(Vec<(String, Places)>),
}

impl Texts {
    /// No text of so many documents.
    pub(crate) fn none(alloc: Global, seed: Seed, len: usize) -> Texts
        ensures { (w : List ℕ) → places_so_far result w ≡ [] }
    {
        if len < LEAST_DOCUMENTS {
            Texts::Ordered(BTreeMap::new(alloc))
        } else {
            Texts::Table(HashMap::with_hasher(alloc, seed))
        }
    }

    /// Adds a place to those of a text.
    pub(crate) fn post(&mut self, alloc: Global, word: &str, at: u32) -> Result<(), AllocError>
        ensures here { OnOk result (places_so_far self.new word.now ≡ added (places_so_far self.old word.now) at) }
        ensures others { OnOk result ((w : List ℕ) → bytes_eq word.now w ≡ false → places_so_far self.new w ≡ places_so_far self.old w) }
    {
        if let Texts::Table(texts) = self {
            return post_in_table(alloc, texts, word, at);
        }
        let mut texts = mem::replace(self, Texts::Listed(Vec::new(alloc))).in_order(alloc)?;
        post_in_order(alloc, &mut texts, word, at)?;
        *self = Texts::Ordered(texts);
        Ok(())
    }

    /// Adds the later places of each text. There will be about so many pairs in all.
    pub(crate) fn join(
        &mut self,
        alloc: Global,
        later: Texts,
        room: usize,
    ) -> Result<(), AllocError>
        ensures { OnOk result ((w : List ℕ) → places_so_far self.new w ≡ places_so_far self.old w ++ places_so_far later w) }
    {
        let mut listed = mem::replace(self, Texts::Listed(Vec::new(alloc))).listed(alloc)?;
        listed.reserve_exact(room.saturating_sub(listed.len()))?;
        let mut more = later.listed(alloc)?;
        listed.append(&mut more)?;
        *self = Texts::Listed(listed);
        Ok(())
    }

    /// Adds places of a text that come among those that it has.
    pub(crate) fn merge(
        &mut self,
        alloc: Global,
        word: &str,
        later: &[u32],
    ) -> Result<(), AllocError>
        ensures here { OnOk result (places_so_far self.new word.now ≡ risen (places_so_far self.old word.now) later.now) }
        ensures others { OnOk result ((w : List ℕ) → bytes_eq word.now w ≡ false → places_so_far self.new w ≡ places_so_far self.old w) }
    {
        if later.is_empty() {
            return Ok(());
        }
        if let Texts::Table(texts) = self {
            return merge_in_table(alloc, texts, word, later);
        }
        let mut texts = mem::replace(self, Texts::Listed(Vec::new(alloc))).in_order(alloc)?;
        merge_in_order(alloc, &mut texts, word, later)?;
        *self = Texts::Ordered(texts);
        Ok(())
    }

    /// How many texts are listed.
    pub(crate) fn len(&self) -> usize {
        match self {
            Texts::Ordered(texts) => texts.len(),
            Texts::Table(texts) => texts.len(),
            Texts::Listed(pairs) => pairs.len(),
        }
    }

    /// Lists the texts with their places. The texts of a piece are in order.
    pub(crate) fn listed(self, alloc: Global) -> Result<Vec<(String, Places)>, AllocError>
        ensures { IfOk result (λ v. (w : List ℕ) → places_listed (λ k. bytes_eq w (string_bytes k)) v.items ≡ places_so_far self w) }
    {
        match self {
            Texts::Ordered(texts) => list_of(alloc, texts),
            Texts::Table(texts) => sort_out(alloc, texts),
            Texts::Listed(pairs) => Ok(pairs),
        }
    }

    /// Puts the texts with their places into a map.
    pub(crate) fn in_order(self, alloc: Global) -> Result<BTreeMap<String, Places>, AllocError>
        ensures { IfOk result (λ m. (w : List ℕ) → places_at m w ≡ places_so_far self w) }
    {
        match self {
            Texts::Ordered(texts) => Ok(texts),
            Texts::Table(texts) => put_in_order(alloc, texts),
            Texts::Listed(pairs) => unite(alloc, pairs),
        }
    }
}

fn list_of(
    alloc: Global,
    texts: BTreeMap<String, Places>,
) -> Result<Vec<(String, Places)>, AllocError>
    ensures { IfOk result (λ v. (w : List ℕ) → places_listed (λ k. bytes_eq w (string_bytes k)) v.items ≡ places_at texts w) }
{
    let _ordered = texts.len();
    Vec::from_iter(alloc, texts)
}

/// The entries of a table, in order.
fn sort_out(
    alloc: Global,
    texts: HashMap<String, Places, Seed>,
) -> Result<Vec<(String, Places)>, AllocError>
    ensures { IfOk result (λ v. (w : List ℕ) → places_listed (λ k. bytes_eq w (string_bytes k)) v.items ≡ places_in texts w) }
{
    let _unique = texts.len();
    let pairs = Vec::from_iter(alloc, texts)?;
    sorted(pairs)
}

/// Each text with all its places.
fn unite(
    alloc: Global,
    pairs: Vec<(String, Places)>,
) -> Result<BTreeMap<String, Places>, AllocError>
    ensures { IfOk result (λ m. (w : List ℕ) → places_at m w ≡ places_listed (λ k. bytes_eq w (string_bytes k)) pairs.items) }
{
    let united = map_of(alloc, pairs)?;
    Ok(united)
}

fn post_in_order(
    alloc: Global,
    texts: &mut BTreeMap<String, Places>,
    word: &str,
    at: u32,
) -> Result<(), AllocError>
    ensures here { OnOk result (places_at texts.new word.now ≡ added (places_at texts.old word.now) at) }
    ensures others { OnOk result ((w : List ℕ) → bytes_eq word.now w ≡ false → places_at texts.new w ≡ places_at texts.old w) }
{
    let key = String::from_str(alloc, word)?;
    let places = texts.entry(key)?.or_insert(Places::One(at));
    add_place(alloc, places, at)
}

fn post_in_table(
    alloc: Global,
    texts: &mut HashMap<String, Places, Seed>,
    word: &str,
    at: u32,
) -> Result<(), AllocError>
    ensures here { OnOk result (places_in texts.new word.now ≡ added (places_in texts.old word.now) at) }
    ensures others { OnOk result ((w : List ℕ) → bytes_eq word.now w ≡ false → places_in texts.new w ≡ places_in texts.old w) }
{
    if let Some(places) = texts.get_mut(word) {
        return add_place(alloc, places, at);
    }
    texts.insert(String::from_str(alloc, word)?, Places::One(at))?;
    Ok(())
}

fn put_in_order(
    alloc: Global,
    texts: HashMap<String, Places, Seed>,
) -> Result<BTreeMap<String, Places>, AllocError>
    ensures { IfOk result (λ m. (w : List ℕ) → places_at m w ≡ places_in texts w) }
{
    let _unique = texts.len();
    BTreeMap::from_iter(alloc, texts)
}

fn merge_in_order(
    alloc: Global,
    texts: &mut BTreeMap<String, Places>,
    word: &str,
    later: &[u32],
) -> Result<(), AllocError>
    ensures here { OnOk result (places_at texts.new word.now ≡ risen (places_at texts.old word.now) later.now) }
    ensures others { OnOk result ((w : List ℕ) → bytes_eq word.now w ≡ false → places_at texts.new w ≡ places_at texts.old w) }
{
    if let Some(places) = texts.get_mut(word) {
        return places.merge(alloc, later);
    }
    texts.insert(String::from_str(alloc, word)?, Places::of(alloc, later)?)?;
    Ok(())
}

fn merge_in_table(
    alloc: Global,
    texts: &mut HashMap<String, Places, Seed>,
    word: &str,
    later: &[u32],
) -> Result<(), AllocError>
    ensures here { OnOk result (places_in texts.new word.now ≡ risen (places_in texts.old word.now) later.now) }
    ensures others { OnOk result ((w : List ℕ) → bytes_eq word.now w ≡ false → places_in texts.new w ≡ places_in texts.old w) }
{
    if let Some(places) = texts.get_mut(word) {
        return places.merge(alloc, later);
    }
    texts.insert(String::from_str(alloc, word)?, Places::of(alloc, later)?)?;
    Ok(())
}

/// Adds a place, where it isn't the last.
pub(crate) fn add_place(alloc: Global, places: &mut Places, at: u32) -> Result<(), AllocError>
    ensures { OnOk result (as_list places.new ≡ added (as_list places.old) at) }
{
    if !ends_at(places.as_slice(), at) {
        places.push(alloc, at)?;
    }
    Ok(())
}

/// Whether the last place is this one.
fn ends_at(places: &[u32], at: u32) -> bool
    ensures { result ≡ ends_at at places.now }
{
    !places.is_empty() && places[places.len() - 1] == at
}
