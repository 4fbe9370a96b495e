//! Segments.
ghost use Rattle.std.specs.Prelude.{◌≡◌, ◌<◌, ◌^◌, ◌||◌, ◌&&◌, ℕ, All, [], if◌then◌else◌, length, map, option_map, IfOk, IfSome, OnOk, nat_eq, string_bytes};
ghost use Rattle.std.specs.Arc.{arc_value};
ghost use Rattle.doc.specs.Document.{all_values};
ghost use Rattle.doc.specs.Scalar as scalar;
ghost use Rattle.doc.specs.ScalarView.{scalar_view};
ghost use Rattle.std.specs.List.{list_any, starts_with};
ghost use Rattle.analysis.specs.Terms.{terms_at, begins_with, is_within};
ghost use Rattle.analysis.specs.BoundsView.{bounds_view};
ghost use Rattle.marks.specs.Lists.{zip_with, marked, places};
ghost use Rattle.segment.specs.Term.{is_text, is_long, is_truth};
ghost use Rattle.segment.specs.Limits.{limits_view};
ghost use Rattle.segment.specs.Indexed.{has_term, has_value, IsColumn, IsColumnOr, IsIndexed};

use crate::blocks::mark_block;
use crate::column::Column;
use crate::limits::Limits;
use crate::term::Term;
use crate::weaving::Strand;
use crate::{building, pieces, spans, term, weaving};
use analysis::Bounds;
use doc::{Mapping, Scalar, Source};
use marks::Marks;
use std::alloc::{AllocError, Global};
use std::collections::BTreeMap;
use std::marker::Model;
use std::sync::Arc;
use std::thread::Threads;

/// Going to the list of a number takes about as long as marking so many places.
const PLACES_PER_LIST: usize = 16;

/// Going over the blocks of a column takes about as long as marking one of so many documents.
const DOCUMENTS_PER_PLACE: usize = 8;

/// Documents by the terms of their fields. It never changes.
pub struct Segment {
    mapping: Arc<Mapping, Global>,
    sources: Vec<Source>,
    columns: BTreeMap<String, Box<Column>>,
}

impl Drop for Segment {
    fn drop(self) {
        let Segment {
            mapping: _mapping,
            sources: _sources,
            columns: _columns,
        } = self;
    }
}

impl Model for Segment {
    ghost use Rattle.std.specs.Arc.{arc_value};
    ghost use Rattle.segment.specs.Indexed.{SegmentData, IsIndexed};

    ghost Value = { SegmentData };

    ghost view = { λ s. record { mapping = arc_value s.mapping; sources = s.sources.items } };

    ghost invariant = { λ s. IsIndexed (arc_value s.mapping) s.sources.items s.columns };
}

impl Segment {
    /// The segment of documents that have these texts, read under the mapping, fewer than 2^32.
    pub fn build(
        alloc: Global,
        mapping: &Arc<Mapping, Global>,
        sources: Vec<Source>,
    ) -> Result<Segment, AllocError>
        requires { length sources.items < 2 ^ 32 }
        ensures { IfOk result (λ s. s ≡ record { mapping = arc_value mapping.now; sources = sources.items }) }
    {
        let columns = building::columns_of(alloc, mapping, &sources)?;
        let mapping = Arc::try_clone(mapping)?;
        Ok(Segment {
            mapping,
            sources,
            columns,
        })
    }

    /// Builds the segment that `build` gives, concurrently on several threads where there are many documents.
    pub fn build_on<R: Threads + Sync>(
        rt: &R,
        alloc: Global,
        mapping: &Arc<Mapping, Global>,
        sources: Vec<Source>,
    ) -> Result<Segment, AllocError>
        requires { length sources.items < 2 ^ 32 }
        ensures { IfOk result (λ s. s ≡ record { mapping = arc_value mapping.now; sources = sources.items }) }
    {
        let columns = pieces::columns_of(rt, alloc, mapping, &sources)?;
        let mapping = Arc::try_clone(mapping)?;
        Ok(Segment {
            mapping,
            sources,
            columns,
        })
    }

    /// The segment of these texts, as `build` makes it. Where the strands' segments were read under the mapping and their documents are the texts at the places that they are given,
    /// each place once and rising in each strand, their columns are put together and no text is read again; else all are read.
    pub fn weave(
        alloc: Global,
        mapping: &Arc<Mapping, Global>,
        sources: Vec<Source>,
        strands: &[Strand<'_>],
    ) -> Result<Segment, AllocError>
        requires { length sources.items < 2 ^ 32 }
        ensures { IfOk result (λ s. s ≡ record { mapping = arc_value mapping.now; sources = sources.items }) }
    {
        let columns = weaving::columns_of(alloc, mapping, &sources, strands)?;
        let mapping = Arc::try_clone(mapping)?;
        Ok(Segment {
            mapping,
            sources,
            columns,
        })
    }

    /// How many documents there are.
    pub fn len(&self) -> usize
        ensures is { result ≡ length self.now.sources }
        ensures few { result < 2 ^ 32 }
    {
        self.sources.len()
    }

    /// The mapping that its documents were read under.
    pub fn mapping(&self) -> &Mapping
        ensures { result.now ≡ self.now.mapping }
    {
        &self.mapping
    }

    /// The texts of its documents.
    pub(crate) fn sources(&self) -> &[Source]
        ensures { result.now ≡ self.now.sources }
    {
        &self.sources
    }

    /// The columns of its fields.
    pub(crate) fn columns(&self) -> &BTreeMap<String, Box<Column>>
        ensures { IsIndexed self.now.mapping self.now.sources result.now }
    {
        &self.columns
    }

    /// The column of a field.
    fn column(&self, name: &str) -> Option<&Column>
        ensures { IsColumnOr self.now.mapping.fields (map (all_values self.now.mapping) self.now.sources) name.now (option_map (λ c. c.now) result) }
    {
        match self.columns.get(name) {
            Some(column) => Some(column.as_ref()),
            None => None,
        }
    }

    /// The places of the documents in which a term of the field is the value, rising. Those of a truth value aren't listed.
    pub fn posting(&self, name: &str, value: &Scalar) -> Option<&[u32]>
        ensures { IfSome result (λ p. p.now ≡ places (λ s. has_term self.now.mapping.fields name.now (scalar_view value.now) (all_values self.now.mapping s)) self.now.sources) }
    {
        match value {
            Scalar::Text(text) => Some(self.places_of(name, text)),
            Scalar::Long(number) => Some(self.places_of_long(name, *number)),
            Scalar::Flag(_) => None,
        }
    }

    /// The places of the documents that have the text as a term.
    fn places_of(&self, name: &str, text: &str) -> &[u32]
        ensures { result.now ≡ places (λ s. has_term self.now.mapping.fields name.now (scalar.text text.now) (all_values self.now.mapping s)) self.now.sources }
    {
        match self.column(name) {
            Some(column) => column.places_of(text),
            None => &[],
        }
    }

    /// The places of the documents that have the number as a term.
    fn places_of_long(&self, name: &str, number: i64) -> &[u32]
        ensures { result.now ≡ places (λ s. has_term self.now.mapping.fields name.now (scalar.long number) (all_values self.now.mapping s)) self.now.sources }
    {
        match self.column(name) {
            Some(column) => column.places_of_long(number),
            None => &[],
        }
    }

    /// Marks the documents that have the text as a term.
    fn mark_text(&self, name: &str, text: &str, marks: &mut Marks)
        requires { length marks.old ≡ length self.now.sources }
        ensures { marks.new ≡ zip_with (λ b s. b || has_term self.now.mapping.fields name.now (scalar.text text.now) (all_values self.now.mapping s)) marks.old self.now.sources }
    {
        if let Some(column) = self.column(name) {
            marks.mark(column.places_of(text));
        }
    }

    /// Marks the documents that have the truth value as a term.
    fn mark_flag(&self, name: &str, flag: bool, marks: &mut Marks)
        requires { length marks.old ≡ length self.now.sources }
        ensures { marks.new ≡ zip_with (λ b s. b || has_term self.now.mapping.fields name.now (scalar.flag flag) (all_values self.now.mapping s)) marks.old self.now.sources }
    {
        if let Some(column) = self.column(name) {
            if flag {
                marks.unite(&column.yes);
            } else {
                marks.unite(&column.no);
            }
        }
    }

    /// Marks the documents in which the field has a value.
    pub fn mark_exists(&self, name: &str, marks: &mut Marks)
        requires { length marks.old ≡ length self.now.sources }
        ensures { marks.new ≡ zip_with (λ b s. b || has_value name.now (all_values self.now.mapping s)) marks.old self.now.sources }
    {
        if let Some(column) = self.column(name) {
            marks.unite(&column.has);
        }
    }

    /// Marks the documents in which a term of the field is the value.
    pub fn mark_term(&self, name: &str, value: &Scalar, marks: &mut Marks)
        requires { length marks.old ≡ length self.now.sources }
        ensures { marks.new ≡ zip_with (λ b s. b || has_term self.now.mapping.fields name.now (scalar_view value.now) (all_values self.now.mapping s)) marks.old self.now.sources }
    {
        match value {
            Scalar::Text(text) => self.mark_text(name, text, marks),
            Scalar::Long(number) => self.mark_long(name, *number, marks),
            Scalar::Flag(flag) => self.mark_flag(name, *flag, marks),
        }
    }

    /// Marks the documents that have the number as a term.
    fn mark_long(&self, name: &str, number: i64, marks: &mut Marks)
        requires { length marks.old ≡ length self.now.sources }
        ensures { marks.new ≡ zip_with (λ b s. b || has_term self.now.mapping.fields name.now (scalar.long number) (all_values self.now.mapping s)) marks.old self.now.sources }
    {
        if let Some(column) = self.column(name) {
            marks.mark(column.places_of_long(number));
        }
    }

    /// Marks the documents in which a term of the field begins with the text.
    pub fn mark_prefix(
        &self,
        alloc: Global,
        name: &str,
        text: &str,
        marks: &mut Marks,
    ) -> Result<(), AllocError>
        requires { length marks.old ≡ length self.now.sources }
        ensures { OnOk result (marks.new ≡ zip_with (λ b s. b || list_any (begins_with text.now) (terms_at self.now.mapping.fields (all_values self.now.mapping s) name.now)) marks.old self.now.sources) }
    {
        match self.column(name) {
            Some(column) => self.mark_begun(alloc, column, name, text, marks),
            None => Ok(()),
        }
    }

    /// Marks the documents in which a term of the field, which has this column, begins with the text. Such words stand side by side.
    fn mark_begun(
        &self,
        alloc: Global,
        column: &Column,
        _name: &str,
        text: &str,
        marks: &mut Marks,
    ) -> Result<(), AllocError>
        requires whole { length marks.old ≡ length self.now.sources }
        requires is { IsColumn self.now.mapping.fields (map (all_values self.now.mapping) self.now.sources) _name.now column.now }
        ensures { OnOk result (marks.new ≡ zip_with (λ b s. b || list_any (begins_with text.now) (terms_at self.now.mapping.fields (all_values self.now.mapping s) _name.now)) marks.old self.now.sources) }
    {
        let from = String::from_str(alloc, text)?;
        // A word's list is looked for before the list of the word before it is marked, so that neither waits for the other's memory.
        let mut before: &[u32] = &[];
        for (word, places) in column.texts.range(from..) {
            if !begins_with(word, text) {
                marks.mark(before);
                return Ok(());
            }
            let found = places.as_slice();
            marks.mark(before);
            before = found;
        }
        marks.mark(before);
        Ok(())
    }

    /// Marks the documents in which a term of the field lies within the bounds.
    pub fn mark_within(&self, name: &str, bounds: &Bounds, marks: &mut Marks)
        requires { length marks.old ≡ length self.now.sources }
        ensures { marks.new ≡ zip_with (λ b s. b || list_any (is_within (bounds_view bounds.now)) (terms_at self.now.mapping.fields (all_values self.now.mapping s) name.now)) marks.old self.now.sources }
    {
        if let Some(column) = self.column(name) {
            self.mark_texts(column, name, bounds, marks);
            self.mark_longs(column, name, bounds, marks);
            self.mark_truths(column, name, bounds, marks);
        }
    }

    /// Marks those that have a text within the bounds as a term.
    fn mark_texts(&self, column: &Column, _name: &str, bounds: &Bounds, marks: &mut Marks)
        requires whole { length marks.old ≡ length self.now.sources }
        requires is { IsColumn self.now.mapping.fields (map (all_values self.now.mapping) self.now.sources) _name.now column.now }
        ensures whole { length marks.new ≡ length self.now.sources }
        ensures is { marks.new ≡ zip_with (λ b s. b || list_any (λ t. is_text t && is_within (bounds_view bounds.now) t) (terms_at self.now.mapping.fields (all_values self.now.mapping s) _name.now)) marks.old self.now.sources }
    {
        for (word, places) in column.texts.range(spans::of_texts(bounds)) {
            let passes = term::is_within(bounds, Term::Text(word.as_str()));
            mark_if(marks, places.as_slice(), passes);
        }
    }

    /// Marks those that have a number within the bounds as a term.
    fn mark_longs(&self, column: &Column, name: &str, bounds: &Bounds, marks: &mut Marks)
        requires whole { length marks.old ≡ length self.now.sources }
        requires is { IsColumn self.now.mapping.fields (map (all_values self.now.mapping) self.now.sources) name.now column.now }
        ensures whole { length marks.new ≡ length self.now.sources }
        ensures is { marks.new ≡ zip_with (λ b s. b || list_any (λ t. is_long t && is_within (bounds_view bounds.now) t) (terms_at self.now.mapping.fields (all_values self.now.mapping s) name.now)) marks.old self.now.sources }
    {
        match limits_of_many(column, bounds) {
            Some(limits) => self.mark_numbers(column, name, limits, marks),
            None => self.mark_lists(column, name, bounds, marks),
        }
    }

    /// Marks those that have a number within the limits as a term, block by block.
    fn mark_numbers(&self, column: &Column, _name: &str, limits: Limits, marks: &mut Marks)
        requires whole { length marks.old ≡ length self.now.sources }
        requires is { IsColumn self.now.mapping.fields (map (all_values self.now.mapping) self.now.sources) _name.now column.now }
        requires some { 0 < length column.now.blocks.items }
        ensures whole { length marks.new ≡ length self.now.sources }
        ensures is { marks.new ≡ zip_with (λ b s. b || list_any (λ t. is_long t && is_within (limits_view limits) t) (terms_at self.now.mapping.fields (all_values self.now.mapping s) _name.now)) marks.old self.now.sources }
    {
        for block in &column.blocks {
            mark_block(block, limits, marks);
        }
    }

    /// Marks those that have a number within the bounds as a term, by the lists of those numbers.
    fn mark_lists(&self, column: &Column, _name: &str, bounds: &Bounds, marks: &mut Marks)
        requires whole { length marks.old ≡ length self.now.sources }
        requires is { IsColumn self.now.mapping.fields (map (all_values self.now.mapping) self.now.sources) _name.now column.now }
        ensures whole { length marks.new ≡ length self.now.sources }
        ensures is { marks.new ≡ zip_with (λ b s. b || list_any (λ t. is_long t && is_within (bounds_view bounds.now) t) (terms_at self.now.mapping.fields (all_values self.now.mapping s) _name.now)) marks.old self.now.sources }
    {
        for (number, places) in column.longs.range(spans::of_longs(bounds)) {
            let passes = term::is_within(bounds, Term::Long(*number));
            mark_if(marks, places.as_slice(), passes);
        }
    }

    /// Marks those that have a truth value within the bounds as a term.
    fn mark_truths(&self, column: &Column, _name: &str, bounds: &Bounds, marks: &mut Marks)
        requires whole { length marks.old ≡ length self.now.sources }
        requires is { IsColumn self.now.mapping.fields (map (all_values self.now.mapping) self.now.sources) _name.now column.now }
        ensures { marks.new ≡ zip_with (λ b s. b || list_any (λ t. is_truth t && is_within (bounds_view bounds.now) t) (terms_at self.now.mapping.fields (all_values self.now.mapping s) _name.now)) marks.old self.now.sources }
    {
        let yes = term::is_within(bounds, Term::Flag(true));
        unite_if(marks, &column.yes, yes);
        let no = term::is_within(bounds, Term::Flag(false));
        unite_if(marks, &column.no, no);
    }
}

/// The bounds of numbers, where the column has blocks and they are sooner gone over than the lists of the numbers within the bounds.
fn limits_of_many(column: &Column, bounds: &Bounds) -> Option<Limits>
    ensures is { IfSome result (λ l. limits_view l ≡ bounds_view bounds.now) }
    ensures some { IfSome result (λ _. 0 < length column.now.blocks.items) }
{
    if column.blocks.is_empty() {
        return None;
    }
    let limits = Limits::of(bounds)?;
    if fill_blocks(column, limits) || are_many(column, bounds) {
        Some(limits)
    } else {
        None
    }
}

/// Whether the blocks that lie within the limits as a whole have so many numbers: that is sooner seen than by the lists.
fn fill_blocks(column: &Column, limits: Limits) -> bool {
    let mut left = column.has.len() / DOCUMENTS_PER_PLACE;
    for block in &column.blocks {
        if limits.have(block.first) && limits.have(block.last) {
            left = left.saturating_sub(block.numbers.len());
        }
    }
    left == 0
}

/// Whether going to the list of each number within the bounds takes long.
fn are_many(column: &Column, bounds: &Bounds) -> bool {
    let mut left = column.has.len() / DOCUMENTS_PER_PLACE;
    for (_, places) in column.longs.range(spans::of_longs(bounds)) {
        left = left.saturating_sub(PLACES_PER_LIST.saturating_add(places.as_slice().len()));
        if left == 0 {
            return true;
        }
    }
    false
}

/// Marks the places of a key that passes.
fn mark_if(marks: &mut Marks, places: &[u32], passes: bool)
    requires { All (λ p. p < length marks.old) places.now }
    ensures { marks.new ≡ marked marks.old (if passes then places.now else []) }
{
    if passes {
        marks.mark(places);
    }
}

/// Adds the marks of a truth value that passes.
fn unite_if(marks: &mut Marks, others: &Marks, passes: bool)
    requires { length others.now ≡ length marks.old }
    ensures { marks.new ≡ zip_with (λ a b. a || (passes && b)) marks.old others.now }
{
    if passes {
        marks.unite(others);
    }
}

fn begins_with(word: &String, prefix: &str) -> bool
    ensures { result ≡ starts_with nat_eq (string_bytes word.now) prefix.now }
{
    word.as_str().as_bytes().starts_with(prefix.as_bytes())
}
