//! How an index is served.

use crate::ending::InputEnd;
use crate::fault::ServeFault;
use clients::Limits;
use cluster::Syncing;

/// How an index is served.
#[derive(Clone, Copy)]
pub struct Settings<'a> {
    pub port: u16,
    pub index: &'a str,
    /// The file of the mapping; with none the kept mapping, or for a new index an empty one.
    pub mapping: Option<&'a str>,
    /// The folder that keeps the index; with none it is in memory.
    pub data: Option<&'a str>,
    /// When the logs of a folder are synced; with none in each append.
    pub syncing: Option<Syncing>,
    /// How many copies the index has, 1 to 5.
    pub copies: u64,
    /// After how many connections the server ends; with none it goes on.
    pub connections: Option<u64>,
    /// Whether what the copies did is audited at the end.
    pub audit: bool,
    /// The folder that the journals are written to before they are audited.
    pub journals: Option<&'a str>,
    /// After how many milliseconds the index is refreshed again, or sooner, where many writes came; 0 for never.
    pub refresh: u64,
    /// How many threads answer requests.
    pub threads: u64,
    /// For how many seconds a connection is kept that has no request.
    pub idle: u64,
    /// How many bytes of unfinished requests all connections have together.
    pub request_bytes: u64,
    /// How many bytes of pages aren't sent before searches wait. The texts that pages share with the index don't count.
    pub page_bytes: u64,
    /// Whether the server ends in order when its standard input ends.
    pub until_input_ends: bool,
    /// Whether that has ended.
    pub input_end: Option<&'a InputEnd>,
    /// Whether standard error says why requests are refused.
    pub explains: bool,
    /// Whether standard error is a terminal: the opening of large logs is shown there, and an entry that doesn't pass the audit.
    pub at_terminal: bool,
}

impl<'a> Settings<'a> {
    /// When the logs of a folder are synced.
    pub(crate) fn when_synced(self) -> Syncing {
        self.syncing.unwrap_or(Syncing::Each)
    }

    pub(crate) fn limits(self) -> Limits {
        Limits {
            threads: self.threads as usize,
            connections: self.connections,
            bytes: self.request_bytes,
            pages: self.page_bytes,
            idle: self.idle,
            refresh: self.refresh,
        }
    }
}

/// Whether the settings go together.
pub(crate) fn check(settings: Settings<'_>) -> Result<(), ServeFault> {
    if settings.audit && settings.connections.is_none() {
        return Err(ServeFault::EndlessAudit);
    }
    if settings.journals.is_some() && !settings.audit {
        return Err(ServeFault::JournalsAlone);
    }
    if settings.syncing.is_some() && settings.data.is_none() {
        return Err(ServeFault::SyncInMemory);
    }
    Ok(())
}
