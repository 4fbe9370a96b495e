//! Starting the threads of a cluster, and ending them.
ghost use Rattle.std.specs.Prelude.{◌≡◌, ◌+◌, ◌≤◌, ◌++◌, ◌∷◌, [], false, map, is_some, vec_len, Ok, Some, None, IsOk, IfErr, IfNone, IfOk, IfSome, OnOk};
ghost use mathlib.Core.List.{IsPrefix};
ghost use Rattle.master.specs.declared.state.Request.TheVariants.{Allocate};
ghost use Rattle.master.specs.Log.{kept_state};
ghost use Rattle.master.specs.Logged.{begun_state};
ghost use Rattle.cluster.specs.Given.{given};
ghost use Rattle.cluster.specs.Journals.{stray_in, AreHandedOut, IsLostBy};
ghost use Rattle.cluster.specs.Opened.{copy_of, AreNew, AreTried, HasKept, IdsRiseFrom, IsLed, IsLeftOut, IsNewIndex, IsOpened, IsOpenedAs, IsPromoted, IsReopened, IsStarted, LeadsBy};
ghost use Rattle.cluster.specs.Opening.{keeps, BeganWith};
ghost use Rattle.ruled.specs.declared.entry.MasterEntry.TheVariants.{Opened as Starts};
ghost use Rattle.ruled.specs.Entries.{IsDecided};

use crate::client::Client;
use crate::crew::Crew;
use crate::devices::Devices;
use crate::fault::{ClusterFault, OpenFault, ShortLog, Unopened, of_master_log};
use crate::gate::Gate;
use crate::handing::{HandedOut, handed_out};
use crate::left::Left;
use crate::locks::CopyLocks;
use crate::opening::{
    Journals, Opened, beginning, birth_of, joining_copy, kept_copy, lacking, leader_of, new_copy,
};
use crate::post::Post;
use crate::ready::Ready;
use crate::routes::stop;
use crate::shared::Shared;
use cell::{IndexLabel, IndexName};
use chronicle::{Blank, Ledgers, NamedLedger};
use journal::Deed;
use master::{Master, MasterFault};
use node::{Began, Receipt};
use op::CopyIds;
use replica::CopyFault;
use ruled::{Decided, Known, MasterEntry, Past, Ruled};
use std::alloc::{AllocError, Global};
use std::sync::{Arc, Mutex, Wait};
use std::thread::{JoinHandle, Threads};
use translog::{LogDevice, LogFault};

/// What a cluster is made of, apart from its nodes.
#[derive(Drop)]
struct Setting<V, G, J: IndexName> {
    alloc: Global,
    label: IndexLabel<J>,
    devices: V,
    gate: G,
    journals: Journals,
    ledgers: Ledgers<Deed, MasterEntry, J>,
}

/// The master and its copies, each copy on a thread of its own. End it by `close`.
pub struct Cluster<R: Wait + Drop, D: LogDevice, V: Devices<D>, G: Gate, J: IndexName> {
    label: IndexLabel<J>,
    devices: V,
    journals: Journals,
    crew: Crew<R, D, G, J>,
    /// The master's entries up to the one by which a copy leads.
    past: Past<J>,
    unopened: Vec<Unopened>,
    /// The fault of the master's log that kept the copy from leading that led last.
    unled: Option<LogFault>,
    short_log: Option<ShortLog>,
}

impl<R: Wait + Drop, D: LogDevice, V: Devices<D>, G: Gate, J: IndexName> Drop
    for Cluster<R, D, V, G, J> {
    fn drop(self) {
        let Cluster {
            label: _label,
            devices: _devices,
            journals: _,
            crew: _crew,
            past: _past,
            unopened: _unopened,
            unled: _unled,
            short_log: _short_log,
        } = self;
    }
}

impl<R, D, V, G, J> Cluster<R, D, V, G, J>
where
    R: Threads + Wait + Copy + Send + Drop + 'static,
    D: LogDevice + Send + 'static,
    V: Devices<D>,
    G: Gate + Send + Sync + 'static,
    J: IndexName + Send + Sync + 'static,
{
    /// Starts a new index of one copy to five, over devices that hold nothing: copy 1 is the primary of term 1. Its journals are in these ledgers, those of
    /// its copies in the registry, and are of no other cluster.
    pub fn start(
        rt: &R,
        alloc: Global,
        label: IndexLabel<J>,
        copies: u8,
        devices: V,
        gate: G,
        journals: Journals,
        ledgers: Ledgers<Deed, MasterEntry, J>,
    ) -> Result<Cluster<R, D, V, G, J>, ClusterFault>
        requires { (1 ≤ copies) × (copies ≤ 5) }
        ensures threads { IfOk result (λ c. vec_len c.crew.threads ≡ copies) }
        ensures journals { IfOk result (λ c. c.journals ≡ journals) }
        ensures opened { IfOk result (λ c. IsStarted (V.gave c.devices) label.mapping copies c.crew.began.items c.past) }
    {
        let mut setting = Setting {
            alloc,
            label,
            devices,
            gate,
            journals,
            ledgers,
        };
        let device = match setting.devices.device(0) {
            Ok(device) => device,
            Err(fault) => return Err(of_master_log(fault)),
        };
        Cluster::begin(rt, setting, copies, device)
    }

    /// Starts the index that devices hold; over devices that hold nothing a new one, as `start` does.
    ///
    /// It opens each copy that is in sync; the others are gone permanently. The master makes its primary the primary of the next term; or
    /// where that doesn't open, or another copy has an operation after its last one, the first of those that have most, for its log has then lost
    /// what it kept. The new primary reports those that didn't open. Where none opens the cluster is refused, and nothing is decided. Where the log of the
    /// master can't be written, as on a full disk, the primary is open for reading, and leads once that log can be (`unled`).
    pub fn open(
        rt: &R,
        alloc: Global,
        label: IndexLabel<J>,
        copies: u8,
        devices: V,
        gate: G,
        journals: Journals,
        ledgers: Ledgers<Deed, MasterEntry, J>,
    ) -> Result<Cluster<R, D, V, G, J>, ClusterFault>
        requires { (1 ≤ copies) × (copies ≤ 5) }
        ensures journals { IfOk result (λ c. c.journals ≡ journals) }
        ensures opened { IfOk result (λ c. IsOpened (V.gave c.devices) label.mapping copies c.crew.began.items c.unopened.items c.unled c.past) }
    {
        let mut setting = Setting {
            alloc,
            label,
            devices,
            gate,
            journals,
            ledgers,
        };
        let device = master_device(&mut setting.devices)?;
        match beginning(alloc, device) {
            Ok((Some(count), device)) => Cluster::reopen(rt, setting, count, device),
            Ok((None, device)) => Cluster::begin(rt, setting, copies, device),
            Err(fault) => Err(of_master_log(fault)),
        }
    }

    /// The copies come first: where the master's log has a frame, each copy has its log.
    fn begin(
        rt: &R,
        setting: Setting<V, G, J>,
        copies: u8,
        device: D,
    ) -> Result<Cluster<R, D, V, G, J>, ClusterFault>
        requires { (1 ≤ copies) × (copies ≤ 5) }
        ensures threads { IfOk result (λ c. vec_len c.crew.threads ≡ copies) }
        ensures journals { IfOk result (λ c. c.journals ≡ setting.journals) }
        ensures gave { IfOk result (λ c. IsPrefix (V.gave setting.devices) (V.gave c.devices)) }
        ensures opened { IfOk result (λ c. IsNewIndex (D.bytes device) setting.label.mapping copies c.crew.began.items c.past) }
    {
        let mut setting = setting;
        let alloc = setting.alloc;
        match new_copies(
            alloc,
            setting.journals,
            copies,
            &setting.label,
            &mut setting.devices,
        ) {
            Ok(ready) => Cluster::begin_over(rt, setting, ready, new_master(alloc, copies, device)),
            Err(fault) => {
                drop(setting);
                drop(device);
                Err(fault)
            }
        }
    }

    /// A cluster of copies that are to be served, where the master has begun too.
    fn begin_over(
        rt: &R,
        setting: Setting<V, G, J>,
        ready: Vec<Ready<D, J>>,
        master: Result<Master<D>, ClusterFault>,
    ) -> Result<Cluster<R, D, V, G, J>, ClusterFault>
        requires { IfOk master (λ m. m.closed ≡ false) }
        ensures threads { IfOk result (λ c. vec_len c.crew.threads ≡ vec_len ready) }
        ensures journals { IfOk result (λ c. c.journals ≡ setting.journals) }
        ensures devices { IfOk result (λ c. c.devices ≡ setting.devices) }
        ensures began { IfOk result (λ c. c.crew.began.items ≡ map copy_of ready.items) }
        ensures past { IfOk result (λ c. IfOk master (λ m. c.past ≡ Starts m.state ∷ [])) }
        ensures whole { IsOk result → IsOk master }
    {
        match master {
            Ok(master) => Cluster::launch_over(rt, Cluster::over(setting, master), ready),
            Err(fault) => {
                drop(setting);
                drop(ready);
                Err(fault)
            }
        }
    }

    /// Starts the threads of copies, where the cluster that they are of could be made.
    fn launch_over(
        rt: &R,
        cluster: Result<Cluster<R, D, V, G, J>, ClusterFault>,
        ready: Vec<Ready<D, J>>,
    ) -> Result<Cluster<R, D, V, G, J>, ClusterFault>
        requires threads { IfOk cluster (λ c. vec_len c.crew.threads ≡ 0) }
        requires began { IfOk cluster (λ c. c.crew.began.items ≡ []) }
        ensures threads { IfOk result (λ c. vec_len c.crew.threads ≡ vec_len ready) }
        ensures journals { IfOk result (λ c. IfOk cluster (λ before. c.journals ≡ before.journals)) }
        ensures devices { IfOk result (λ c. IfOk cluster (λ before. c.devices ≡ before.devices)) }
        ensures past { IfOk result (λ c. IfOk cluster (λ before. c.past ≡ before.past)) }
        ensures began { IfOk result (λ c. c.crew.began.items ≡ map copy_of ready.items) }
        ensures whole { IsOk result → IsOk cluster }
    {
        match cluster {
            Ok(mut cluster) => {
                let begun = cluster.crew.launch_all(rt, ready);
                cluster.or_closed(rt, begun)
            }
            Err(fault) => {
                drop(ready);
                Err(fault)
            }
        }
    }

    fn reopen(
        rt: &R,
        setting: Setting<V, G, J>,
        count: u8,
        device: D,
    ) -> Result<Cluster<R, D, V, G, J>, ClusterFault>
        ensures journals { IfOk result (λ c. c.journals ≡ setting.journals) }
        ensures gave { IfOk result (λ c. IsPrefix (V.gave setting.devices) (V.gave c.devices)) }
        ensures opened { IfOk result (λ c. IsReopened (V.gave c.devices) (D.bytes device) setting.label.mapping count c.crew.began.items c.unopened.items c.unled c.past) }
    {
        let master = kept_master(setting.alloc, device)?;
        let mut cluster = Cluster::over(setting, master)?;
        let opened = cluster.open_all(rt, count);
        cluster.or_closed(rt, opened)
    }

    /// A cluster without copies yet.
    fn over(
        setting: Setting<V, G, J>,
        master: Master<D>,
    ) -> Result<Cluster<R, D, V, G, J>, ClusterFault>
        requires { master.closed ≡ false }
        ensures threads { IfOk result (λ c. vec_len c.crew.threads ≡ 0) }
        ensures journals { IfOk result (λ c. c.journals ≡ setting.journals) }
        ensures devices { IfOk result (λ c. c.devices ≡ setting.devices) }
        ensures label { IfOk result (λ c. c.label ≡ setting.label) }
        ensures began { IfOk result (λ c. c.crew.began.items ≡ []) }
        ensures unopened { IfOk result (λ c. c.unopened.items ≡ []) }
        ensures unled { IfOk result (λ c. c.unled ≡ None) }
        ensures past { IfOk result (λ c. c.past ≡ Starts master.state ∷ []) }
    {
        let Setting {
            alloc,
            label,
            devices,
            gate,
            journals,
            ledgers,
        } = setting;
        let Ledgers { registry, blank } = ledgers;
        let master = Ruled::begin(alloc, ledger_of(alloc, journals, blank), master)?;
        let past = master.past();
        let shared = Arc::new(
            alloc,
            Shared {
                master: Mutex::new(master),
                routes: Mutex::new(Vec::new(alloc)),
                unled: Mutex::new(None),
            },
        )?;
        Ok(Cluster {
            label,
            devices,
            journals,
            crew: Crew {
                gate: Arc::new(alloc, gate)?,
                registry,
                client: Client {
                    alloc,
                    shared,
                    locks: CopyLocks::new(alloc),
                },
                threads: Vec::new(alloc),
                mergers: Vec::new(alloc),
                began: Vec::new(alloc),
            },
            past,
            unopened: Vec::new(alloc),
            unled: None,
            short_log: None,
        })
    }

    /// The cluster, or the fault that it is closed for.
    fn or_closed(
        self,
        rt: &R,
        done: Result<(), ClusterFault>,
    ) -> Result<Cluster<R, D, V, G, J>, ClusterFault>
        ensures same { IfOk result (λ c. c ≡ self) }
        ensures done { IsOk result → IsOk done }
    {
        match done {
            Ok(()) => Ok(self),
            Err(fault) => {
                drop(self.ended(rt));
                Err(fault)
            }
        }
    }

    /// Opens the copies that are in sync, and has one of them lead.
    fn open_all(&mut self, rt: &R, count: u8) -> Result<(), ClusterFault>
        requires { (self.old.crew.began.items ≡ []) × (self.old.unopened.items ≡ []) × (self.old.unled ≡ None) }
        ensures same { (self.new.journals ≡ self.old.journals) × (self.new.label ≡ self.old.label) }
        ensures gave { IsPrefix (V.gave self.old.devices) (V.gave self.new.devices) }
        ensures past { IsPrefix self.old.past self.new.past }
        ensures led { OnOk result (IsLed (V.gave self.new.devices) self.new.label.mapping count self.new.crew.began.items self.new.unopened.items self.new.unled self.new.past) }
    {
        let Known { state, past } = self.crew.client.state(rt)?;
        let opened = self.open_each(rt, &state.in_sync, count)?;
        match leader_of(state.primary, opened.as_slice()) {
            Some(leader) => {
                self.note_short_log(state.primary, leader, opened.as_slice());
                self.lead_or_wait(rt, &past, state.primary, leader)
            }
            None => {
                let alloc = self.crew.client.alloc;
                let tried = std::mem::replace(&mut self.unopened, Vec::new(alloc));
                Err(ClusterFault::Unopened(tried))
            }
        }
    }

    /// Has a copy lead. Where the master's log keeps the one that led last from leading, that copy leads once the log can be written.
    #[tactic(auto, using(crate::proofs::Opened::leads_now, crate::proofs::Opened::leads_later))]
    fn lead_or_wait(
        &mut self,
        rt: &R,
        known: &Past<J>,
        last: u32,
        leader: u32,
    ) -> Result<(), ClusterFault>
        requires { self.old.unled ≡ None }
        ensures same { (self.new.journals ≡ self.old.journals) × (self.new.label ≡ self.old.label) }
        ensures others { (self.new.devices ≡ self.old.devices) × (self.new.crew ≡ self.old.crew) × (self.new.unopened ≡ self.old.unopened) }
        ensures past { IsPrefix self.old.past self.new.past }
        ensures since { OnOk result (IsPrefix known.now self.new.past) }
        ensures by { OnOk result (LeadsBy self.new.unled last leader self.new.past) }
    {
        let led = self.lead(rt, known, leader);
        if leader != last {
            return led;
        }
        match led {
            Err(ClusterFault::Master(MasterFault::Log(fault))) => {
                self.wait_to_lead(rt, known, leader, fault)
            }
            other => other,
        }
    }

    /// Has a copy lead as soon as the master's log can be written.
    #[tactic(auto, using(crate::proofs::Opened::self_begins))]
    fn wait_to_lead(
        &mut self,
        rt: &R,
        known: &Past<J>,
        leader: u32,
        fault: LogFault,
    ) -> Result<(), ClusterFault>
        ensures same { (self.new.journals ≡ self.old.journals) × (self.new.label ≡ self.old.label) }
        ensures others { (self.new.devices ≡ self.old.devices) × (self.new.crew ≡ self.old.crew) × (self.new.unopened ≡ self.old.unopened) }
        ensures past { IsPrefix self.old.past self.new.past }
        ensures since { OnOk result (IsPrefix known.now self.new.past) }
        ensures unled { OnOk result (self.new.unled ≡ Some fault) }
    {
        if !known.is_within(&self.past) || !self.crew.client.shared.hand(rt, leader, Post::Lead) {
            return Err(ClusterFault::Stray(0));
        }
        self.unled = Some(fault);
        Ok(())
    }

    /// Has a copy lead, by an entry of the master after those that are known.
    #[tactic(auto, using(crate::proofs::Opened::self_begins))]
    fn lead(&mut self, rt: &R, known: &Past<J>, leader: u32) -> Result<(), ClusterFault>
        ensures same { (self.new.journals ≡ self.old.journals) × (self.new.label ≡ self.old.label) }
        ensures others { (self.new.devices ≡ self.old.devices) × (self.new.crew ≡ self.old.crew) × (self.new.unopened ≡ self.old.unopened) × (self.new.unled ≡ self.old.unled) }
        ensures past { IsPrefix self.old.past self.new.past }
        ensures since { OnOk result (IsPrefix known.now self.new.past) }
        ensures promoted { OnOk result (IsPromoted leader self.new.past) }
    {
        let Decided { decision, past } = self.crew.client.promote(rt, leader)?;
        drop(decision);
        if !known.is_within(&past) || !self.past.is_within(&past) {
            return Err(ClusterFault::Stray(0));
        }
        self.past = past;
        Ok(())
    }

    /// Opens copies, in order, and says what each is that opened.
    fn open_each(
        &mut self,
        rt: &R,
        copies: &CopyIds,
        count: u8,
    ) -> Result<Vec<Opened>, ClusterFault>
        requires { (self.old.crew.began.items ≡ []) × (self.old.unopened.items ≡ []) }
        ensures same { (self.new.journals ≡ self.old.journals) × (self.new.label ≡ self.old.label) × (self.new.past ≡ self.old.past) }
        ensures unled { self.new.unled ≡ self.old.unled }
        ensures gave { IsPrefix (V.gave self.old.devices) (V.gave self.new.devices) }
        ensures tried { IfOk result (λ os. AreTried (V.gave self.new.devices) self.new.label.mapping count copies.now self.new.crew.began.items self.new.unopened.items os.items) }
    {
        let mut opened = Vec::new(self.crew.client.alloc);
        self.devices.will_open(copies);
        for id in copies.as_slice() {
            match self.open_one(rt, *id, count)? {
                Some(one) => opened.push(one)?,
                None => {}
            }
        }
        Ok(opened)
    }

    /// Notes that the copy that led last lacks operations that the one has that is to lead.
    fn note_short_log(&mut self, primary: u32, leader: u32, opened: &[Opened])
        ensures { self.new ≡ record self.old { short_log = self.new.short_log } }
    {
        if let Some(lacking) = lacking(primary, opened) {
            self.short_log = Some(ShortLog {
                copy: primary,
                lacking,
                leader,
            });
        }
    }

    /// Opens a copy and starts its thread, and answers the number after its last operation, where it opened. Want of memory is no reason to give it
    /// up.
    fn open_one(&mut self, rt: &R, id: u32, count: u8) -> Result<Option<Opened>, ClusterFault>
        ensures same { (self.new.journals ≡ self.old.journals) × (self.new.label ≡ self.old.label) × (self.new.past ≡ self.old.past) }
        ensures unled { self.new.unled ≡ self.old.unled }
        ensures gave { IsPrefix (V.gave self.old.devices) (V.gave self.new.devices) }
        ensures opened { IfOk result (λ o. IfSome o (λ x. IsOpenedAs (V.gave self.new.devices) self.new.label.mapping count id self.old.crew.began.items self.new.crew.began.items x × (self.new.unopened ≡ self.old.unopened))) }
        ensures left { IfOk result (λ o. IfNone o ((self.new.crew ≡ self.old.crew) × IsLeftOut id self.old.unopened.items self.new.unopened.items)) }
    {
        let alloc = self.crew.client.alloc;
        match copy_in(
            alloc,
            self.journals,
            &self.label,
            &mut self.devices,
            id,
            count,
        ) {
            Ok(ready) => {
                let next = ready.copy().next_seq();
                self.crew.launch(rt, ready)?;
                Ok(Some(Opened { copy: id, next }))
            }
            Err(fault) => {
                leave_out(&mut self.unopened, id, fault)?;
                Ok(None)
            }
        }
    }

    /// The copies that didn't open, and why.
    pub fn unopened(&self) -> &[Unopened]
        ensures { result.now ≡ self.now.unopened.items }
    {
        self.unopened.as_slice()
    }

    /// The fault of the master's log that kept the copy from leading that led last, when the cluster was opened: gets and searches are answered, and it leads
    /// once the log can be written.
    pub fn unled(&self) -> Option<&LogFault> {
        self.unled.as_ref()
    }

    /// The copy that led last, where its log has lost operations that another one has.
    pub fn short_log(&self) -> Option<ShortLog>
        ensures { result ≡ self.now.short_log }
    {
        self.short_log
    }

    /// Adds a copy, which the primary brings up to date.
    pub fn allocate(&mut self, rt: &R) -> Result<Decided<J>, ClusterFault>
        ensures decided { IfOk result (λ d. IsDecided Allocate d.decision d.past) }
        ensures runs { OnOk result (vec_len self.new.crew.threads ≡ vec_len self.old.crew.threads + 1) }
    {
        let alloc = self.crew.client.alloc;
        let Ok(next) = u32::try_from(self.crew.client.state(rt)?.state.next) else {
            return Err(ClusterFault::Master(MasterFault::Full));
        };
        let device = device_of(&mut self.devices, next)?;
        let ready = joining_copy(alloc, self.journals, next, &self.label, device)?;
        self.crew.join(rt, next, ready)
    }

    /// What each copy was when its journal began: those that were opened or made in the order of their ids, and then those that were added.
    pub fn began(&self) -> &[Began<J>]
        ensures { result.now ≡ self.now.crew.began.items }
    {
        self.crew.began.as_slice()
    }

    /// The master's entries up to the one by which a copy leads since the cluster was opened: for a new one that which says what the master was.
    pub fn past(&self) -> &Past<J>
        ensures { result.now ≡ self.now.past }
    {
        &self.past
    }

    /// The name and the mapping of the index, which the copies are of.
    pub fn label(&self) -> &IndexLabel<J>
        ensures { result.now ≡ self.now.label }
    {
        &self.label
    }

    /// What callers ask the copies by.
    pub fn client(&self) -> &Client<R, D, J>
        ensures { result.now ≡ self.now.crew.client }
    {
        &self.crew.client
    }

    /// Ends all threads, and hands out the journals, where they are kept: the master's, and those of the copies in the order of their ids, one for each
    /// copy that began. Each entry of a copy has its receipt in the pass of the copy's worker, and the receipts that callers kept
    /// and hand in stand there too, else `Stray` names the place of the first that doesn't. `NoMemory` also where a copy has no journal, since there was
    /// no memory to start its threads.
    pub fn close(
        self,
        rt: &R,
        receipts: &[Receipt<J>],
    ) -> Result<Option<HandedOut<J>>, ClusterFault>
        ensures kept { IfOk result (λ o. is_some o ≡ keeps self.journals) }
        ensures journals { IfOk result (λ o. IfSome o (λ h. AreHandedOut (vec_len self.crew.threads) self.crew.began.items receipts.now h.master h.copies.items)) }
        ensures stray { IfErr result (λ e. IfSome (stray_in e) (IsLostBy self.crew.began.items receipts.now)) }
    {
        let Ended {
            alloc,
            journals,
            master,
            lefts,
            began,
        } = self.ended(rt)?;
        match journals {
            Journals::Kept => match handed_out(alloc, master, lefts, began.as_slice(), receipts) {
                Ok(handed) => Ok(Some(handed)),
                Err(fault) => Err(fault),
            },
            Journals::Unkept => {
                drop(began);
                drop(lefts);
                drop(master);
                Ok(None)
            }
        }
    }

    /// Ends all threads.
    fn ended(self, rt: &R) -> Result<Ended<D, J>, ClusterFault>
        ensures journals { IfOk result (λ e. e.journals ≡ self.journals) }
        ensures all { IfOk result (λ e. vec_len e.lefts ≡ vec_len self.crew.threads) }
        ensures began { IfOk result (λ e. e.began.items ≡ self.crew.began.items) }
        ensures rising { IfOk result (λ e. IdsRiseFrom 0 e.began.items) }
        ensures refused { IfErr result (λ e. stray_in e ≡ None) }
    {
        let Cluster {
            label: _label,
            devices: _devices,
            journals,
            crew,
            past: _past,
            unopened: _unopened,
            unled: _unled,
            short_log: _short_log,
        } = self;
        let Crew {
            client,
            threads,
            mergers,
            began,
            ..
        } = crew;
        let alloc = client.alloc;
        let shared = client.into_shared();
        stop(rt, &*shared);
        let lefts = joined(rt, alloc, threads)?;
        end_mergers(rt, mergers);
        let Some(shared) = Arc::into_inner(shared) else {
            drop(began);
            drop(lefts);
            return Err(ClusterFault::Running);
        };
        Ok(Ended {
            alloc,
            journals,
            master: shared.master.into_inner(),
            lefts,
            began,
        })
    }
}

/// What is left of a cluster whose threads have ended.
#[derive(Drop)]
struct Ended<D: LogDevice, J: IndexName> {
    alloc: Global,
    journals: Journals,
    master: Ruled<D, J>,
    lefts: Vec<Left<J>>,
    began: Vec<Began<J>>,
}

/// The master's ledger, of which memory has what it is to have of the journals.
fn ledger_of<J: IndexName>(
    alloc: Global,
    journals: Journals,
    blank: Blank<MasterEntry, J>,
) -> NamedLedger<MasterEntry, J>
    ensures { result.entries ≡ [] }
{
    match journals {
        Journals::Kept => blank.kept(alloc),
        Journals::Unkept => blank.unkept(),
    }
}

/// What threads leave, once each has ended.
fn joined<R: Threads, J: IndexName>(
    rt: &R,
    alloc: Global,
    threads: Vec<JoinHandle<Left<J>>>,
) -> Result<Vec<Left<J>>, AllocError>
    ensures { IfOk result (λ ls. vec_len ls ≡ vec_len threads) }
{
    let mut lefts = Vec::new(alloc);
    for thread in threads {
        lefts.push(thread.join(rt))?;
    }
    Ok(lefts)
}

/// Waits until the threads have ended that build merges, as each does once its worker has.
fn end_mergers<R: Threads>(rt: &R, mergers: Vec<JoinHandle<()>>) {
    for merger in mergers {
        merger.join(rt);
    }
}

/// The device of the master, whether or not it holds a log.
fn master_device<D: LogDevice, V: Devices<D>>(devices: &mut V) -> Result<D, ClusterFault>
    ensures { IfOk result (λ d. V.gave devices.new ≡ V.gave devices.old ++ given 0 (D.bytes d) ∷ []) }
{
    let device = match devices.kept(0) {
        Ok(Some(device)) => Ok(device),
        Ok(None) => devices.device(0),
        Err(fault) => Err(fault),
    };
    match device {
        Ok(device) => Ok(device),
        Err(fault) => Err(of_master_log(fault)),
    }
}

/// The master of a new index.
fn new_master<D: LogDevice>(alloc: Global, copies: u8, device: D) -> Result<Master<D>, ClusterFault>
    requires { (1 ≤ copies) × (copies ≤ 5) }
    ensures open { IfOk result (λ m. m.closed ≡ false) }
    ensures state { IfOk result (λ m. begun_state copies (D.bytes device) ≡ Ok m.state) }
{
    match Master::begin(alloc, copies, device) {
        Ok(master) => Ok(master),
        Err(refused) => Err(of_master_log(refused.into_fault())),
    }
}

/// The master that a log keeps.
fn kept_master<D: LogDevice>(alloc: Global, device: D) -> Result<Master<D>, ClusterFault>
    ensures open { IfOk result (λ m. m.closed ≡ false) }
    ensures state { IfOk result (λ m. kept_state (D.bytes device) ≡ Ok m.state) }
{
    match Master::open(alloc, device) {
        Ok(master) => Ok(master),
        Err(refused) => Err(of_master_log(refused.into_fault())),
    }
}

/// The copies of a new index, each over its device.
fn new_copies<D: LogDevice, V: Devices<D>, J: IndexName>(
    alloc: Global,
    journals: Journals,
    copies: u8,
    label: &IndexLabel<J>,
    devices: &mut V,
) -> Result<Vec<Ready<D, J>>, ClusterFault>
    requires { 1 ≤ copies }
    ensures all { IfOk result (λ all. vec_len all ≡ copies) }
    ensures new { IfOk result (λ all. AreNew label.now.mapping copies 1 (map copy_of all.items)) }
    ensures gave { IsPrefix (V.gave devices.old) (V.gave devices.new) }
{
    let count = copies as u32;
    let mut all = Vec::new(alloc);
    for before in 0..count {
        let id = before + 1;
        let device = device_of(devices, id)?;
        all.push(new_copy(alloc, journals, id, count, label, device)?)?;
    }
    Ok(all)
}

/// The copy that its device holds.
fn copy_in<D: LogDevice, V: Devices<D>, J: IndexName>(
    alloc: Global,
    journals: Journals,
    label: &IndexLabel<J>,
    devices: &mut V,
    id: u32,
    count: u8,
) -> Result<Ready<D, J>, OpenFault>
    ensures gave { IsPrefix (V.gave devices.old) (V.gave devices.new) }
    ensures kept { IfOk result (λ r. HasKept (V.gave devices.new) label.now.mapping count r.copy × (r.copy.id ≡ id)) }
{
    let device = match devices.kept(id) {
        Ok(Some(device)) => device,
        Ok(None) => return Err(OpenFault::Missing),
        Err(fault) => return Err(OpenFault::Copy(CopyFault::from(fault))),
    };
    let birth = birth_of(id, count);
    match kept_copy(alloc, journals, id, birth, label, device) {
        Ok(ready) => Ok(ready),
        Err(fault) => Err(OpenFault::Copy(fault)),
    }
}

/// Notes that a copy didn't open, and why.
fn leave_out(unopened: &mut Vec<Unopened>, copy: u32, fault: OpenFault) -> Result<(), ClusterFault>
    ensures { OnOk result (IsLeftOut copy unopened.old.items unopened.new.items) }
{
    if let OpenFault::Copy(CopyFault::NoMemory) = &fault {
        return Err(ClusterFault::NoMemory);
    }
    unopened.push(Unopened { copy, fault })?;
    Ok(())
}

fn device_of<D: LogDevice, V: Devices<D>>(devices: &mut V, id: u32) -> Result<D, ClusterFault>
    ensures { IsPrefix (V.gave devices.old) (V.gave devices.new) }
{
    match devices.device(id) {
        Ok(device) => Ok(device),
        Err(fault) => Err(ClusterFault::from(CopyFault::from(fault))),
    }
}
