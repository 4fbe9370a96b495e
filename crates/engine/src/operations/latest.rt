//! By id, the number of the last operation on it, in many tables: none of them is large, so none takes long to grow.
ghost use Rattle.std.specs.Prelude.{◌≡◌, ◌<◌, ◌≤◌, ℕ, None, length, slice_get, get_or, if◌then◌else◌, IfOk, IsOk, OnOk, OnErr};
ghost use Rattle.std.specs.Option.{option_copied};
ghost use Rattle.doc.specs.Id.{Id, is_id};
ghost use Rattle.engine.specs.IdFilter.{place_in};
ghost use Rattle.engine.specs.IdTables.{count_at, number_among, spare_at};
ghost use Rattle.engine.specs.OperationIndex.{noted, number_at, raised};

use crate::ids::id_filter::number_of;
use crate::ids::id_key::IdKey;
use doc::DocId;
use seed::Seed;
use std::alloc::{AllocError, Global};
use std::collections::HashMap;

/// So many tables.
const TABLES: usize = 256;

/// No room is made for fewer: small tables soon grow.
const MANY: usize = 4096;

/// Each key shares the text of an operation's id.
type Table = HashMap<IdKey, u64, Seed>;

/// The number of the last operation on each id.
#[derive(Drop)]
pub(crate) struct Latest {
    /// None until the first id comes.
    pub(crate) tables: Vec<Table>,
    seed: Seed,
}

impl Latest {
    /// No numbers.
    pub(crate) fn new(alloc: Global, seed: Seed) -> Latest
        ensures { (id : Id) → number_among result.tables.items id ≡ None }
    {
        Latest {
            tables: Vec::new(alloc),
            seed,
        }
    }

    /// No numbers, and room for so many, if they are many.
    pub(crate) fn with_room(alloc: Global, seed: Seed, room: usize) -> Result<Latest, AllocError>
        ensures { IfOk result (λ l. (id : Id) → number_among l.tables.items id ≡ None) }
    {
        if room < MANY {
            return Ok(Latest::new(alloc, seed));
        }
        // Some tables get more ids than others.
        let each = room / TABLES;
        let tables = tables_of(alloc, seed, each + each / 8 + 16)?;
        Ok(Latest { tables, seed })
    }

    /// What its tables hash with.
    pub(crate) fn seed(&self) -> Seed {
        self.seed
    }

    /// The table that an id is in, if it is in any.
    fn table(&self, id: &DocId) -> Option<&Table>
        ensures { option_copied result ≡ slice_get self.now.tables.items (place_in (length self.now.tables.items) id.now) }
    {
        if self.tables.is_empty() {
            return None;
        }
        self.tables.get(place_of(id, self.tables.len()))
    }

    /// The number at an id.
    pub(crate) fn number_on(&self, id: DocId) -> Option<u64>
        ensures { result ≡ number_among self.now.tables.items id }
    {
        let table = self.table(&id)?;
        table.get(&IdKey(id)).copied()
    }

    /// How many ids there are.
    pub(crate) fn len(&self) -> usize {
        let mut count = 0usize;
        for table in &self.tables {
            count = count.saturating_add(table.len());
        }
        count
    }

    /// The id as it stands here, and the number there.
    pub(crate) fn known(
        &self,
        alloc: Global,
        id: &DocId,
    ) -> Result<(DocId, Option<u64>), AllocError>
        ensures { IfOk result (λ p. p.0 ≡ id.now) }
    {
        match self.table(id) {
            Some(table) => known_in(alloc, table, id),
            None => Ok((id.copy(alloc)?, None)),
        }
    }

    /// Makes the tables, where there are none.
    fn make(&mut self, alloc: Global) -> Result<(), AllocError>
        ensures some { OnOk result (0 < length self.new.tables.items) }
        ensures same { (id : Id) → number_among self.new.tables.items id ≡ number_among self.old.tables.items id }
    {
        if self.tables.is_empty() {
            self.tables = tables_of(alloc, self.seed, 0)?;
        }
        Ok(())
    }

    /// Raises the number at an id to this one.
    pub(crate) fn raise(&mut self, alloc: Global, id: &DocId, seq: u64) -> Result<(), AllocError>
        ensures ok { OnOk result ((w : Id) → number_among self.new.tables.items w ≡ (if is_id w id.now then raised seq (number_among self.old.tables.items w) else number_among self.old.tables.items w)) }
        ensures err { OnErr result ((w : Id) → number_among self.new.tables.items w ≡ number_among self.old.tables.items w) }
    {
        self.make(alloc)?;
        let at = place_of(id, self.tables.len());
        raise_in(alloc, &mut self.tables[at], id, seq)
    }

    /// Notes numbers at ids in turn: all of them, or none where memory runs out.
    pub(crate) fn note_all(
        &mut self,
        alloc: Global,
        numbers: Vec<(DocId, u64)>,
    ) -> Result<(), AllocError>
        ensures ok { OnOk result ((id : Id) → number_among self.new.tables.items id ≡ noted numbers.items id (number_among self.old.tables.items id)) }
        ensures err { OnErr result ((id : Id) → number_among self.new.tables.items id ≡ number_among self.old.tables.items id) }
    {
        self.make(alloc)?;
        let counts = counts_of(alloc, &numbers, self.tables.len())?;
        make_room(&mut self.tables, &counts)?;
        insert_all(&mut self.tables, numbers)
    }
}

/// Tables with room for so many each.
fn tables_of(alloc: Global, seed: Seed, room: usize) -> Result<Vec<Table>, AllocError>
    ensures some { IfOk result (λ v. 0 < length v.items) }
    ensures none { IfOk result (λ v. (id : Id) → number_among v.items id ≡ None) }
{
    let mut tables = Vec::with_capacity(alloc, TABLES)?;
    for _ in 0..TABLES {
        tables.push(HashMap::with_capacity_and_hasher(alloc, room, seed)?)?;
    }
    Ok(tables)
}

/// The place of an id's table.
fn place_of(id: &DocId, len: usize) -> usize
    requires { 0 < len }
    ensures is { result ≡ place_in len id.now }
    ensures within { result < len }
{
    (number_of(id) % len as u64) as usize
}

/// The id as the table has it, and the number there.
fn known_in(alloc: Global, table: &Table, id: &DocId) -> Result<(DocId, Option<u64>), AllocError>
    ensures { IfOk result (λ p. p.0 ≡ id.now) }
{
    let key = IdKey(id.copy(alloc)?);
    match table.get_key_value(&key) {
        Some((same, seq)) => Ok((same.0.copy(alloc)?, Some(*seq))),
        None => Ok((id.copy(alloc)?, None)),
    }
}

/// Raises the number at an id in its table.
fn raise_in(alloc: Global, table: &mut Table, id: &DocId, seq: u64) -> Result<(), AllocError>
    ensures ok { OnOk result ((w : Id) → number_at table.new w ≡ (if is_id w id.now then raised seq (number_at table.old w) else number_at table.old w)) }
    ensures err { OnErr result ((w : Id) → number_at table.new w ≡ number_at table.old w) }
{
    let key = IdKey(id.copy(alloc)?);
    let last = table.entry(key)?.or_insert(seq);
    *last = seq.max(*last);
    Ok(())
}

/// How many of the ids go into each of so many tables.
fn counts_of(alloc: Global, numbers: &[(DocId, u64)], len: usize) -> Result<Vec<usize>, AllocError>
    requires { 0 < len }
    ensures length { IfOk result (λ v. length v.items ≡ len) }
    ensures counts { IfOk result (λ v. (p : ℕ) → p < len → get_or v.items p 0 ≡ count_at len p numbers.now) }
{
    let mut counts: Vec<usize> = vec![in alloc; 0; len]?;
    for pair in numbers {
        let at = place_of(&pair.0, len);
        counts[at] += 1;
    }
    Ok(counts)
}

/// Makes room for so many in each table.
fn make_room(tables: &mut [Table], counts: &[usize]) -> Result<(), AllocError>
    requires { length counts.now ≡ length tables.old }
    ensures room { OnOk result ((p : ℕ) → p < length tables.new → get_or counts.now p 0 ≤ spare_at tables.new p) }
    ensures length { length tables.new ≡ length tables.old }
    ensures same { (id : Id) → number_among tables.new id ≡ number_among tables.old id }
{
    for at in 0..tables.len() {
        tables[at].reserve(counts[at])?;
    }
    Ok(())
}

/// Notes numbers at ids in turn, where there is room for all.
fn insert_all(tables: &mut [Table], numbers: Vec<(DocId, u64)>) -> Result<(), AllocError>
    requires some { 0 < length tables.old }
    requires room { (p : ℕ) → p < length tables.old → count_at (length tables.old) p numbers.items ≤ spare_at tables.old p }
    ensures ok { IsOk result }
    ensures noted { (id : Id) → number_among tables.new id ≡ noted numbers.items id (number_among tables.old id) }
{
    for (id, seq) in numbers {
        let at = place_of(&id, tables.len());
        tables[at].insert(IdKey(id), seq)?;
    }
    Ok(())
}
