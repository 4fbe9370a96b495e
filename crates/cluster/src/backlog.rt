//! Posts of callers that wait until the window of their copy has room.
ghost use Rattle.std.specs.Prelude.{◌≡◌, [], ◌∷◌, ◌++◌, List, IfErr, IfNone, IfSome, OnOk, OnErr};

use crate::post::Post;
use cell::IndexName;
use std::alloc::Global;
use std::collections::VecDeque;

/// The posts that are held back, oldest first: a write or a bulk for which the window has no room, and what came from callers after it.
#[derive(Drop)]
pub(crate) struct Backlog<J: IndexName> {
    posts: VecDeque<Post<J>>,
    /// How many of the oldest are to wait no longer.
    freed: usize,
}

impl<J: IndexName> Backlog<J> {
    pub(crate) fn new(alloc: Global) -> Backlog<J>
        ensures { result.posts.items ≡ [] }
    {
        Backlog {
            posts: VecDeque::new(alloc),
            freed: 0,
        }
    }

    pub(crate) fn is_empty(&self) -> bool {
        self.posts.is_empty()
    }

    /// How many there are.
    pub(crate) fn len(&self) -> usize {
        self.posts.len()
    }

    /// The oldest.
    pub(crate) fn first(&self) -> Option<&Post<J>> {
        self.posts.front()
    }

    /// Whether the oldest is to wait no longer.
    pub(crate) fn is_freed(&self) -> bool {
        self.freed > 0
    }

    /// Those that wait by now are to wait no longer.
    pub(crate) fn free(&mut self)
        ensures { self.new.posts.items ≡ self.old.posts.items }
    {
        self.freed = self.posts.len();
    }

    /// Puts a post after the others. Without memory for that it hands the post back.
    pub(crate) fn push(&mut self, post: Post<J>) -> Result<(), Post<J>>
        ensures ok { OnOk result (self.new.posts.items ≡ self.old.posts.items ++ post ∷ []) }
        ensures err { IfErr result (λ p. p ≡ post) }
        ensures same { OnErr result (self.new.posts.items ≡ self.old.posts.items) }
    {
        match self.posts.push_back(post) {
            Ok(()) => Ok(()),
            Err(refused) => Err(refused.value),
        }
    }

    /// The oldest post, which is taken out.
    pub(crate) fn next(&mut self) -> Option<Post<J>>
        ensures some { IfSome result (λ p. self.old.posts.items ≡ p ∷ self.new.posts.items) }
        ensures none { IfNone result ((self.old.posts.items ≡ []) × (self.new.posts.items ≡ [])) }
    {
        self.freed = self.freed.saturating_sub(1);
        self.posts.pop_front()
    }
}
