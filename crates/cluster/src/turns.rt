//! Which post is done next: a write or a bulk waits until the window of the copy that leads has room for it.

use crate::gate::Gate;
use crate::post::Post;
use crate::worker::Worker;
use cell::IndexName;
use std::sync::Wait;
use translog::LogDevice;

/// Whether a post is a caller's, and queues after those of callers that came before it. A searcher waits for nobody.
fn is_of_caller<J: IndexName>(post: &Post<J>) -> bool {
    match post {
        Post::Ask(_, _) | Post::Write(_, _, _) | Post::Bulk(_, _, _) | Post::Get(_, _) => true,
        Post::Mail(_)
        | Post::Hand(_, _)
        | Post::Report(_)
        | Post::Lead
        | Post::Depose(_)
        | Post::Merged(_)
        | Post::Seat(_)
        | Post::Stop => false,
    }
}

impl<R: Wait + Drop, D: LogDevice, J: IndexName> Worker<R, D, J> {
    /// Does a post, or holds it back where it may not be done now. Without memory for that it is dropped, and its caller learns so. Says whether it goes on.
    pub(crate) fn admit<G: Gate>(&mut self, rt: &R, gate: &G, post: Post<J>) -> bool {
        if let Post::Stop = &post {
            drop(post);
            return false;
        }
        let waits = is_of_caller(&post) && (!self.backlog.is_empty() || self.is_to_wait(&post));
        if waits {
            let _ = self.backlog.push(post);
        } else {
            self.serve(rt, gate, post);
        }
        true
    }

    /// Lets leave what waits for the disk; then it does the posts that are held back, as far as they may be done now.
    pub(crate) fn settle<G: Gate>(&mut self, rt: &R, gate: &G) {
        self.release(rt);
        for _ in 0..self.backlog.len() {
            let Some(post) = self.next_held() else {
                break;
            };
            self.serve(rt, gate, post);
            self.release(rt);
        }
    }

    /// The oldest post that is held back, where it may be done now.
    fn next_held(&mut self) -> Option<Post<J>> {
        let waits = match self.backlog.first() {
            Some(post) => self.is_to_wait(post),
            None => false,
        };
        if waits && !self.backlog.is_freed() {
            None
        } else {
            self.backlog.next()
        }
    }

    /// Whether a post is a write or a bulk that is to wait: the copy leads, by all that it knows, and its window has no room for it.
    fn is_to_wait(&self, post: &Post<J>) -> bool {
        match post {
            Post::Write(_, _, _) => self.lacks_room(1),
            Post::Bulk(writes, _, _) => self.lacks_room(writes.as_slice().len() as u64),
            _ => false,
        }
    }

    fn lacks_room(&self, writes: u64) -> bool {
        self.is_open()
            && self.leads()
            && self.copy().term() >= self.deposed
            && self.copy().room() < writes
    }

    /// Lets all go that wait for acknowledgements: of what is held back nothing waits any more either.
    pub(crate) fn end_waits(&mut self) {
        self.waits.end();
        self.backlog.free();
    }

    /// Does all that is held back, for a worker that is to end.
    pub(crate) fn finish<G: Gate>(&mut self, rt: &R, gate: &G) {
        for _ in 0..self.backlog.len() {
            let Some(post) = self.backlog.next() else {
                break;
            };
            self.serve(rt, gate, post);
        }
        self.release(rt);
    }
}
