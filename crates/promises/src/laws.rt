//! What follows from the replies of an index. An index of one copy: whatever other commands come to it meanwhile, and however often its log fails and its copy
//! restarts. An index of several copies: for a client that goes on asking the copy that it heard of.
ghost use Rattle.promises.specs.Copies.{MasterNeverBack, NeverBackAtCopies, PromotionsAreFollowed, RefreshesAreSeenAtCopies, SearchesNeverBackAtCopies, WritesAreFoundAtCopies, WritesAreSeenAtCopies};
ghost use Rattle.promises.specs.Runs.{WritesAreHeldInRuns};
ghost use Rattle.promises.specs.Promises.{WritesAreFound, WritesAreSeen, RefreshedWritesAreSeen, NeverBack, GoesOnAlong};

use cell::IndexName;
use front::Resumable;
use shard::{HistoryName, Reached};
use translog::LogDevice;

/// A get after an acknowledged write finds this write, or a newer one on its id.
pub fn writes_are_found()
    ensures { WritesAreFound }
{}

/// A search or a count after an acknowledged write with `refresh=true` looks at documents that have this write, or a newer one on its id.
pub fn writes_are_seen()
    ensures { WritesAreSeen }
{}

/// A search or a count after an acknowledged write, and after a reply to a refresh that follows it, looks at documents that have this write, or a newer one on
/// its id.
pub fn refreshed_writes_are_seen()
    ensures { RefreshedWritesAreSeen }
{}

/// No reply to a client is of an earlier place of the history than the client's reply before it.
pub fn replies_never_go_back()
    ensures { NeverBack }
{}

/// All commands of one connection are answered one after another, along one history, in whatever pieces its requests came and whichever threads answered them:
/// a connection's requests are answered as `clients::laws::conversation_is_kept` says.
pub fn connections_go_on<D: LogDevice, N: HistoryName, S: Resumable<Known = Reached<D, N>>>()
    ensures { GoesOnAlong S.answers S.knows }
{}

/// Of several copies: a get at the copy that confirmed a write finds this write, or a newer one on its id, unless another primary has since reset what that
/// copy has, by a resync or a recovery. Over one journal, whatever other commands came to the copy meanwhile, and however often its log failed.
pub fn writes_are_found_at_copies<J: IndexName>()
    ensures { WritesAreFoundAtCopies J J.index.mapping }
{}

/// Of several copies: a client has seen a refresh, after a write, of the copy that confirmed the write. Its searches and counts of that copy look at documents
/// that have this write, or a newer one on its id, unless another primary has since reset what that copy has.
pub fn writes_are_seen_at_copies<J: IndexName>()
    ensures { WritesAreSeenAtCopies J J.index.mapping }
{}

/// Of several copies: a client with a reply to a refresh, or to a write with `refresh=true`, has seen the primary's refresh, after all that it heard of the
/// primary.
pub fn refreshes_are_seen_at_copies<J: IndexName>()
    ensures { RefreshesAreSeenAtCopies J J.index.mapping }
{}

/// Of several copies: no search of a copy by a client is of an earlier place of the copy's journal than the client's search of that copy before it, or than a
/// refresh of that copy that the client knows from a reply.
pub fn searches_never_go_back_at_copies<J: IndexName>()
    ensures { SearchesNeverBackAtCopies J J.index.mapping }
{}

/// Of several copies: no reply to a client about a copy is of an earlier place of the copy's journal than the client's reply about that copy before it.
pub fn replies_never_go_back_at_copies<J: IndexName>()
    ensures { NeverBackAtCopies J J.index.mapping }
{}

/// Of several copies: what a client knows of the master's journal from one reply, above all which copy is the primary, is the beginning of what it knows of it
/// from the next.
pub fn the_master_never_goes_back<J: IndexName>()
    ensures { MasterNeverBack J J.index.mapping }
{}

/// Of several copies: after a client has the reply to a promotion, the copy that answers its gets, searches and counts is the primary after entries of the
/// master's journal that extend those up to that decision.
pub fn promotions_are_followed<J: IndexName>()
    ensures { PromotionsAreFollowed J J.index.mapping }
{}

/// Of several copies, over promotions, recoveries and restarts: at the end of a run each copy that is in sync has a write that a client knows from a reply as
/// done, or a newer one on its id. A run is a list of events of which the journals of all nodes are made, as an audit finds one. So the law assumes that each
/// message that came was sent before, and assumes nothing else of messages that are lost, repeated or late. In the run, the journal of the copy that confirmed
/// the write extends what the client knew from that reply.
pub fn writes_are_held_in_runs<J: IndexName>()
    ensures { WritesAreHeldInRuns J J.index.mapping }
{}
