//! An index of one copy and its master, over devices of one kind.
ghost use Rattle.std.specs.Prelude.{◌≡◌, ◌&&◌, true, false, not, IfOk, IfSome, OnErr, OnOk, string_bytes};
ghost use Rattle.std.specs.Arc.{arc_value};
ghost use Rattle.serde_json.specs.View.{view};
ghost use Rattle.doc.specs.Fault.{fault_of};
ghost use Rattle.doc.specs.Outcome.{Gives};
ghost use Rattle.front.specs.CommandView.{command_view};
ghost use Rattle.front.specs.ReplyView.{reply_view};
ghost use Rattle.op.specs.Ids.{has};
ghost use Rattle.shard.specs.Answering.{begun_under};
ghost use Rattle.shard.specs.Ready as spec;
ghost use Rattle.shard.specs.Ready.{IsReady, IsServed, IsUnready};
ghost use Rattle.replica.specs.Logged.{searched, IsLogged};
ghost use Rattle.engine.specs.Published.{HasMerged};
ghost use Rattle.replica.specs.Searched.{IsRefreshTo};
ghost use Rattle.replica.specs.Status.{IsStatusOf};
ghost use Rattle.shard.specs.History.{seen_of};

use crate::answering::{reply_to, stats_of};
use crate::asked::Asked;
use crate::ready::{is_primary, make_ready};
use doc::{DocFault, Mapping};
use engine::{Merging, Prebuilt, Snapshot, Unshown};
use front::reply::Refusal;
use front::{Command, Reply, Service, Stats};
use master::Master;
use replica::{Copy, CopyStatus};
use seed::Seed;
use serde_json::Value;
use std::alloc::{AllocError, Global};
use std::sync::Arc;
use translog::{LogDevice, MemDevice};

/// An index with its name, its only copy, and the master, which makes the copy the primary again after the copy is reopened.
pub struct Shard<D: LogDevice> {
    alloc: Global,
    name: String,
    master: Master<D>,
    copy: Copy<D>,
}

impl<D: LogDevice> Drop for Shard<D> {
    fn drop(self) {
        let Shard {
            alloc: _,
            name: _name,
            master: _master,
            copy: _copy,
        } = self;
    }
}

impl Shard<MemDevice> {
    /// A new index in memory, with the mapping that the JSON value states; or the mapping's fault. Its hash tables begin with the seed. The caller checks the
    /// name: 1 to 255 bytes, and no ASCII capital letter.
    pub fn new(
        alloc: Global,
        name: String,
        mapping: &Value,
        seed: Seed,
    ) -> Result<Shard<MemDevice>, DocFault>
        ensures gives { Gives fault_of (λ s. s.copy.copy) result (begun_under (view mapping.now)) }
        ensures open { IfOk result (λ s. s.copy.closed ≡ false) }
        ensures name { IfOk result (λ s. string_bytes s.name ≡ string_bytes name) }
    {
        let mapping = Mapping::from_value(alloc, mapping)?.seeded(seed);
        let Ok(copy) = Copy::begin(alloc, 1, 1, mapping, MemDevice::new(Vec::new(alloc))) else {
            return Err(DocFault::NoMemory);
        };
        let Ok(master) = Master::begin(alloc, 1, MemDevice::new(Vec::new(alloc))) else {
            return Err(DocFault::NoMemory);
        };
        Ok(Shard::over(alloc, name, master, copy))
    }
}

impl<D: LogDevice> Shard<D> {
    /// The index made of a copy and a master that exist already.
    pub fn over(alloc: Global, name: String, master: Master<D>, copy: Copy<D>) -> Shard<D>
        ensures copy { result.copy ≡ copy }
        ensures master { result.master ≡ master }
        ensures name { string_bytes result.name ≡ string_bytes name }
    {
        Shard {
            alloc,
            name,
            master,
            copy,
        }
    }

    /// Makes the copy ready for writes, and returns whether it is ready: open, and the primary.
    #[tactic(auto, using(crate::proofs::Mappings::ready_under, crate::proofs::Mappings::unready_under))]
    pub fn lead(&mut self) -> Result<bool, AllocError>
        ensures ready { OnOk result (IsReady true self.old.copy self.new.copy self.old.master self.new.master) }
        ensures wanting { OnErr result (IsUnready self.old.copy self.new.copy self.old.master self.new.master) }
        ensures leads { IfOk result (λ b. b ≡ (not self.new.copy.closed && spec.is_primary self.new.copy.copy.role)) }
        ensures name { string_bytes self.new.name ≡ string_bytes self.old.name }
        ensures mapping { self.new.copy.copy.mapping ≡ self.old.copy.copy.mapping }
    {
        make_ready(self.alloc, &mut self.copy, &mut self.master, true)?;
        Ok(self.copy.snapshot().is_some() && is_primary(self.copy.role()))
    }

    /// Whether the copy is open: gets and searches are answered.
    pub fn is_open(&self) -> bool
        ensures { result ≡ not self.now.copy.closed }
    {
        self.copy.snapshot().is_some()
    }

    /// How the copy stands.
    pub fn status(&self) -> CopyStatus
        ensures { IsStatusOf self.now.copy result }
    {
        self.copy.status()
    }

    /// Whether the copy is in sync by what the master knows. Then it leads where both logs can be written and the master's table has room.
    pub fn is_in_sync(&self) -> bool
        ensures { result ≡ has self.now.master.state.in_sync self.now.copy.copy.id }
    {
        self.master.state().in_sync.has(self.copy.id())
    }

    /// Opens the copy again, if it is closed. A copy that doesn't open stays closed.
    #[tactic(auto, using(crate::proofs::Mappings::ready_under, crate::proofs::Mappings::unready_under))]
    pub fn reopen(&mut self) -> Result<(), AllocError>
        ensures ready { OnOk result (IsReady false self.old.copy self.new.copy self.old.master self.new.master) }
        ensures wanting { OnErr result (IsUnready self.old.copy self.new.copy self.old.master self.new.master) }
        ensures name { string_bytes self.new.name ≡ string_bytes self.old.name }
        ensures mapping { self.new.copy.copy.mapping ≡ self.old.copy.copy.mapping }
    {
        make_ready(self.alloc, &mut self.copy, &mut self.master, false)
    }

    /// Carries out a command.
    #[tactic(auto, using(crate::proofs::Mappings::unready_under, crate::proofs::Mappings::asked_under))]
    pub(crate) fn answer(&mut self, asked: Asked) -> Reply
        ensures served { IsServed self.old.copy self.old.master (command_view asked) (reply_view result) self.new.copy self.new.master }
        ensures name { string_bytes self.new.name ≡ string_bytes self.old.name }
        ensures mapping { self.new.copy.copy.mapping ≡ self.old.copy.copy.mapping }
    {
        let writes = asked.is_write();
        if make_ready(self.alloc, &mut self.copy, &mut self.master, writes).is_err() {
            return Reply::Refused(Refusal::NoMemory);
        }
        self.copy.is_logged();
        reply_to(self.alloc, &mut self.copy, asked)
    }

    /// While the copy is open, its log keeps exactly its records.
    pub(crate) fn is_logged(&self)
        ensures { IsLogged self.now.copy }
    {
        self.copy.is_logged();
    }

    /// Begins a merge of segments that go well into one, if there are more than so few. The index stays as it is.
    pub(crate) fn begin_merge(&mut self, few: usize) -> Result<Option<Merging>, AllocError>
        ensures { self.new ≡ self.old }
    {
        self.copy.begin_merge_beside(self.alloc, few)
    }

    /// Puts the merged segment in place, and returns whether it is there now. What the index has and shows stays.
    pub(crate) fn finish_merge(&mut self) -> Result<bool, AllocError>
        ensures merged { IfOk result (λ b. b ≡ true → HasMerged self.old.copy.segments self.new.copy.segments) }
        ensures copy { self.new.copy ≡ record self.old.copy { segments = self.new.copy.segments } }
        ensures master { self.new.master ≡ self.old.master }
        ensures err { OnErr result (self.new.copy ≡ self.old.copy) }
    {
        self.copy.finish_merge(self.alloc)
    }

    /// Begins a refresh whose segment is built while commands go on, if much has to be built. The index stays as it is.
    pub(crate) fn begin_refresh(&mut self) -> Result<Option<Unshown>, AllocError>
        ensures { self.new ≡ self.old }
    {
        self.copy.begin_refresh(self.alloc)
    }

    /// Shows searches what was there when the refresh began, and returns whether they see it now. What the index has stays.
    pub(crate) fn finish_refresh(&mut self, prebuilt: Prebuilt) -> Result<bool, AllocError>
        ensures done { IfOk result (λ b. b ≡ true → IsRefreshTo prebuilt.point (searched self.old.copy) (searched self.new.copy)) }
        ensures copy { self.new.copy ≡ record self.old.copy { copy = self.new.copy.copy; segments = self.new.copy.segments } }
        ensures stays { IfOk result (λ b. b ≡ false → self.new.copy ≡ self.old.copy) }
        ensures master { self.new.master ≡ self.old.master }
        ensures err { OnErr result (self.new.copy ≡ self.old.copy) }
    {
        self.copy.finish_refresh(self.alloc, prebuilt)
    }

    /// What searches see; `None` while the copy is closed.
    pub(crate) fn snapshot(&self) -> Option<&Arc<Snapshot, Global>>
        ensures now_open { IfSome result (λ s. self.now.copy.closed ≡ false) }
        ensures sees { IfSome result (λ s. arc_value s.now ≡ seen_of self.now.copy.copy) }
    {
        self.copy.snapshot()
    }
}

impl<D: LogDevice> Service for Shard<D> {
    ghost use Rattle.std.specs.Prelude.{string_bytes};
    ghost use Rattle.shard.specs.Ready.{IsServed};

    ghost name = { λ s. string_bytes s.name };

    ghost fields = { λ s. s.copy.copy.mapping };

    ghost answers = { λ s c r t. IsServed s.copy s.master c r t.copy t.master };

    fn index(&self) -> &str {
        self.name.as_str()
    }

    fn mapping(&self) -> &Mapping {
        self.copy.mapping()
    }

    fn stats(&self) -> Option<Stats> {
        let snapshot = self.copy.snapshot();
        stats_of(self.alloc, self.status(), self.is_in_sync(), snapshot).ok()
    }

    fn call(&mut self, command: Command) -> Reply {
        self.answer(Asked::of(self.alloc, command))
    }
}
