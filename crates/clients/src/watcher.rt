//! What the server reports of what goes on.

use front::Rule;
use wire::Whole;

/// Gets reports of what goes on. Any thread may call it.
pub trait Watcher: Sync {
    /// A request of this connection was answered by this rule with this page. Connections are counted from 1 on.
    fn answered(&self, _rule: &Rule, _connection: u64, _request: &Whole, _page: &str) {}

    /// No more connections can be accepted, for example because the limit of open files is reached. This is reported once.
    fn is_full(&self) {}

    /// Whether the server is to end in order: it accepts no more connections, answers the requests that came whole, and ends.
    fn is_to_end(&self) -> bool {
        false
    }
}

/// A watcher that ignores all reports.
#[derive(Clone, Copy)]
pub struct NoWatcher;

impl Watcher for NoWatcher {}
