//! Merges of a copy's segments: they are built on a thread of its own, and put in place between two posts.

use crate::channels::sent;
use crate::post::Post;
use crate::worker::Worker;
use cell::IndexName;
use crossbeam_channel::{Receiver, Sender};
use engine::{Merged, Merging};
use replica::{FEW_AT_REST, FEW_SEGMENTS, Input};
use std::alloc::Global;
use std::sync::Wait;
use translog::LogDevice;

/// What builds the merges of a copy, until its worker has ended.
#[derive(Drop)]
pub(crate) struct Merger<R: Wait + Drop, J: IndexName> {
    pub(crate) rt: R,
    pub(crate) alloc: Global,
    pub(crate) merges: Receiver<Merging, Global>,
    pub(crate) worker: Sender<Post<J>, Global>,
}

impl<R: Wait + Drop, J: IndexName> Merger<R, J> {
    /// Builds one merge after another, and hands each to the worker.
    pub(crate) fn run(self) {
        for _ in self.rt.forever() {
            let Ok(merging) = self.merges.recv(&self.rt) else {
                break;
            };
            if !self.build(merging) {
                break;
            }
        }
    }

    /// Builds a merge, and says whether the worker takes it. Without memory for it the worker gets `None`.
    fn build(&self, merging: Merging) -> bool {
        let merged = merging.build(self.alloc).ok();
        drop(merging);
        sent(&self.rt, &self.worker, Post::Merged(merged))
    }
}

/// A worker's way to what builds its merges.
#[derive(Drop)]
pub(crate) struct Merges {
    to: Sender<Merging, Global>,
    /// Whether one is being built.
    is_under_way: bool,
    /// The next one begins where there are more segments.
    few: usize,
}

impl Merges {
    pub(crate) fn new(to: Sender<Merging, Global>) -> Merges {
        Merges {
            to,
            is_under_way: false,
            few: FEW_SEGMENTS,
        }
    }

    /// Has a merge built.
    fn begin<R: Wait>(&mut self, rt: &R, merging: Merging) {
        self.is_under_way = sent(rt, &self.to, merging);
    }
}

impl<R: Wait + Drop, D: LogDevice, J: IndexName> Worker<R, D, J> {
    /// Notes before a refresh how many segments merges leave: fewer if the refresh shows nothing new, since then the copy is at rest.
    pub(crate) fn note_rest(&mut self) {
        self.merges.few = if self.is_open() && self.copy().is_all_shown() {
            FEW_AT_REST
        } else {
            FEW_SEGMENTS
        };
    }

    /// Has a merge built where searches look through many segments and none is being built. Without memory for that the next refresh tries again.
    pub(crate) fn begin_merge(&mut self, rt: &R) {
        if self.merges.is_under_way || !self.is_open() {
            return;
        }
        let few = self.merges.few;
        if let Ok(Some(merging)) = self.cell.begin_merge(self.alloc, few) {
            self.merges.begin(rt, merging);
        }
    }

    /// Puts a merge in place that was built. A refresh has searches look through it, where that shows them nothing else; where it would, they do from the next
    /// one on. One whose segments are gone by then is dropped, and the next one is begun; without memory for one the next refresh begins it.
    pub(crate) fn put_merged(&mut self, rt: &R, merged: Option<Merged>) {
        self.merges.is_under_way = false;
        if merged.is_none() {
            return;
        }
        let is_placed = matches!(self.cell.finish_merge(self.alloc), Ok(true));
        if is_placed && self.is_open() && self.copy().is_all_shown() {
            self.call(rt, Input::Refresh);
        }
        self.begin_merge(rt);
    }
}
