//! Columns in the making.
ghost use Rattle.std.specs.Prelude.{◌≡◌, ◌<◌, ℤ, All, IfOk, OnOk, length};
ghost use Rattle.segment.specs.Joined.{IsJoined, IsPut};
ghost use Rattle.segment.specs.Posted.{IsEmptyMaking, IsFinished, places_so_far_long};

use crate::blocks::blocks_of;
use crate::column::Column;
use crate::longs::Longs;
use crate::rooms::Room;
use crate::texts::Texts;
use marks::Marks;
use seed::Seed;
use std::alloc::{AllocError, Global};
use std::collections::BTreeMap;
use std::mem;

/// By field, its column in the making.
pub type Makings = BTreeMap<String, Box<Making>>;

/// The terms of a field in the documents so far.
#[derive(Drop)]
pub struct Making {
    pub has: Marks,
    pub texts: Texts,
    pub longs: Longs,
    pub yes: Marks,
    pub no: Marks,
    /// Where a token of a text is put.
    pub word: String,
}

impl Making {
    /// Nothing of so many documents.
    pub(crate) fn none(alloc: Global, seed: Seed, len: usize) -> Result<Making, AllocError>
        ensures { IfOk result (IsEmptyMaking len) }
    {
        Ok(Making {
            has: Marks::none(alloc, len)?,
            texts: Texts::none(alloc, seed, len),
            longs: Longs::none(alloc, len),
            yes: Marks::none(alloc, len)?,
            no: Marks::none(alloc, len)?,
            word: String::new(alloc),
        })
    }

    /// Lists the texts and sorts the numbers, so that they can be put after those of earlier documents. Numbers are listed with all their places
    /// as they are joined, since that takes half as much room again.
    pub(crate) fn list(&mut self, alloc: Global) -> Result<(), AllocError>
        ensures { OnOk result (IsPut self.old self.new) }
    {
        let texts = mem::replace(&mut self.texts, Texts::Listed(Vec::new(alloc)));
        self.texts = Texts::Listed(texts.listed(alloc)?);
        let longs = mem::replace(&mut self.longs, Longs::Listed(Vec::new(alloc)));
        self.longs = longs.sorted()?;
        Ok(())
    }

    /// Adds what later documents have. There is as much as this room in all.
    pub(crate) fn join(
        &mut self,
        alloc: Global,
        later: Making,
        room: Room,
    ) -> Result<(), AllocError>
        requires has { length later.has ≡ length self.old.has }
        requires yes { length later.yes ≡ length self.old.yes }
        requires no { length later.no ≡ length self.old.no }
        ensures { OnOk result (IsJoined self.old later self.new) }
    {
        let Making {
            has,
            texts,
            longs,
            yes,
            no,
            word: _,
        } = later;
        self.has.unite(&has);
        self.yes.unite(&yes);
        self.no.unite(&no);
        self.longs.join(alloc, longs, room.longs)?;
        self.texts.join(alloc, texts, room.texts)
    }

    /// The column that it is, of so many documents.
    pub(crate) fn finish(self, alloc: Global, len: usize) -> Result<Column, AllocError>
        requires { (z : ℤ) → All (λ p. p < len) (places_so_far_long self.longs z) }
        ensures { IfOk result (IsFinished len self) }
    {
        let Making {
            has,
            texts,
            longs,
            yes,
            no,
            word: _,
        } = self;
        let texts = texts.in_order(alloc)?;
        let longs = longs.in_order(alloc)?;
        let blocks = blocks_of(alloc, &longs, len)?;
        Ok(Column {
            has,
            texts,
            longs,
            blocks,
            yes,
            no,
        })
    }
}
