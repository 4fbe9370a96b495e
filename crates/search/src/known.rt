//! A segment with the marks of words that stand in a query, so that a word that stands there often is looked up once.
ghost use Rattle.std.specs.Prelude.{◌≡◌, ◌||◌, All, map, length, IfSome};
ghost use Rattle.doc.specs.Document.{all_values};
ghost use Rattle.doc.specs.ScalarView.{scalar_view};
ghost use Rattle.marks.specs.Lists.{zip_with, places};
ghost use Rattle.segment.specs.Indexed.{has_term};

use crate::selecting::{wanted, with_term};
use doc::Scalar;
use marks::Marks;
use query::Query;
use segment::Segment;
use std::alloc::{AllocError, Global};

/// So many words are kept at most, as all are gone over for each word that is looked up.
const MOST_WORDS: usize = 256;

/// Once so many marks are kept, which take 4 MiB, no more words are.
const MOST_MARKS: usize = 33_554_432;

/// A word that fewer documents have is marked sooner than it is found among those that are kept.
const LEAST_PLACES: usize = 256;

/// A word that fewer than one of so many documents has isn't kept: where it stands once, that would take long beside marking it.
const DOCUMENTS_PER_PLACE: usize = 16;

/// The marks of the documents in which a term of the field is the value.
#[derive(Drop)]
pub(crate) struct Kept<'a> {
    name: &'a str,
    value: &'a Scalar,
    marks: Marks,
}

/// A segment, and the marks that are kept of it.
#[derive(Drop)]
pub(crate) struct Known<'a> {
    pub(crate) segment: &'a Segment,
    kept: Vec<Kept<'a>>,
    ghost right: { All (λ k. k.marks ≡ map (λ s. has_term segment.now.mapping.fields k.name.now (scalar_view k.value.now) (all_values segment.now.mapping s)) segment.now.sources) kept.items },
}

impl<'a> Known<'a> {
    /// The segment, with nothing kept yet.
    pub(crate) fn of(alloc: Global, segment: &'a Segment) -> Known<'a>
        ensures { result.segment.now ≡ segment.now }
    {
        Known {
            segment,
            kept: Vec::new(alloc),
        }
    }

    /// Keeps the marks of the words of a query that many documents have.
    #[cycle(learn)]
    pub(crate) fn learn(&mut self, alloc: Global, query: &'a Query) -> Result<(), AllocError>
        ensures { self.new.segment.now ≡ self.old.segment.now }
    {
        match query {
            Query::Term(name, value) => self.keep(alloc, name, value),
            Query::Terms(name, values) => self.keep_each(alloc, name, values),
            Query::Match(name, _, tokens) => self.keep_each(alloc, name, tokens),
            Query::Bool {
                filter,
                must,
                must_not,
                should,
                minimum_should_match,
            } => {
                self.learn_each(alloc, filter)?;
                self.learn_each(alloc, must)?;
                self.learn_each(alloc, must_not)?;
                // Where none of `should` is wanted, it isn't looked at.
                if wanted(
                    filter.len(),
                    must.len(),
                    should.len(),
                    *minimum_should_match,
                ) == 0
                {
                    return Ok(());
                }
                self.learn_each(alloc, should)
            }
            _ => Ok(()),
        }
    }

    #[cycle(learn)]
    fn learn_each(&mut self, alloc: Global, queries: &'a [Query]) -> Result<(), AllocError>
        ensures { self.new.segment.now ≡ self.old.segment.now }
    {
        for query in queries {
            self.learn(alloc, query)?;
        }
        Ok(())
    }

    fn keep_each(
        &mut self,
        alloc: Global,
        name: &'a str,
        values: &'a [Scalar],
    ) -> Result<(), AllocError>
        ensures { self.new.segment.now ≡ self.old.segment.now }
    {
        for value in values {
            self.keep(alloc, name, value)?;
        }
        Ok(())
    }

    fn keep(&mut self, alloc: Global, name: &'a str, value: &'a Scalar) -> Result<(), AllocError>
        ensures { self.new.segment.now ≡ self.old.segment.now }
    {
        if self.is_full() {
            return Ok(());
        }
        let Some(listed) = self.segment.posting(name, value) else {
            return Ok(());
        };
        if !self.are_many(listed) || self.find(name, value, listed).is_some() {
            return Ok(());
        }
        let marks = with_term(alloc, self.segment, name, value)?;
        self.kept.push(Kept { name, value, marks })?;
        Ok(())
    }

    fn is_full(&self) -> bool {
        self.kept.len() >= MOST_WORDS
            || self.kept.len().saturating_mul(self.segment.len()) >= MOST_MARKS
    }

    /// Whether the marks of a word that has these places are worth keeping.
    fn are_many(&self, listed: &[u32]) -> bool {
        listed.len() >= LEAST_PLACES && listed.len() >= self.segment.len() / DOCUMENTS_PER_PLACE
    }

    /// The marks that are kept of a word that has these places.
    fn find(&self, name: &str, value: &Scalar, listed: &[u32]) -> Option<&Marks>
        ensures { IfSome result (λ m. m.now ≡ map (λ s. has_term self.now.segment.now.mapping.fields name.now (scalar_view value.now) (all_values self.now.segment.now.mapping s)) self.now.segment.now.sources) }
    {
        if !self.are_many(listed) {
            return None;
        }
        for kept in &self.kept {
            if kept.value.is(value) && kept.name == name {
                return Some(&kept.marks);
            }
        }
        None
    }

    /// Marks the documents in which a term of the field is the value.
    pub(crate) fn mark_term(&self, name: &str, value: &Scalar, marks: &mut Marks)
        requires { length marks.old ≡ length self.now.segment.now.sources }
        ensures { marks.new ≡ zip_with (λ b s. b || has_term self.now.segment.now.mapping.fields name.now (scalar_view value.now) (all_values self.now.segment.now.mapping s)) marks.old self.now.segment.now.sources }
    {
        match self.segment.posting(name, value) {
            Some(listed) => match self.find(name, value, listed) {
                Some(kept) => marks.unite(kept),
                None => marks.mark(listed),
            },
            None => self.segment.mark_term(name, value, marks),
        }
    }
}
