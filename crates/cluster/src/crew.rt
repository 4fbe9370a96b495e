//! The threads of a cluster's copies.
ghost use Rattle.std.specs.Prelude.{◌≡◌, ◌<◌, ◌+◌, ◌++◌, ◌∷◌, [], map, vec_len, IfOk, IsTrue, OnOk};
ghost use Rattle.cluster.specs.Opened.{copy_of, last_id, IdsRiseFrom, IdsRiseFrom-prop};
ghost use Rattle.master.specs.declared.state.Request.TheVariants.{Allocate};
ghost use Rattle.ruled.specs.Entries.{IsDecided};

use crate::bench::{Bench, Start, start_both};
use crate::client::Client;
use crate::fault::ClusterFault;
use crate::gate::Gate;
use crate::left::Left;
use crate::merging::Merger;
use crate::ready::{Journaling, Ready};
use crate::routes::{inbox_of, remove_route};
use crate::worker::Tools;
use cell::IndexName;
use chronicle::Registry;
use crossbeam_channel::{Sender, bounded, unbounded};
use engine::Merging;
use journal::Deed;
use master::Request;
use node::Began;
use ruled::Decided;
use std::alloc::{AllocError, Global};
use std::sync::{Arc, Wait};
use std::thread::{JoinHandle, Threads};
use translog::LogDevice;

/// The copies that are served, each by a thread of its own, what each was when its journal began, in the order of their ids, and what callers ask them by.
#[derive(Drop)]
pub(crate) struct Crew<R: Wait + Drop, D: LogDevice, G: Gate, J: IndexName> {
    pub(crate) gate: Arc<G, Global>,
    pub(crate) registry: Registry<Deed, J>,
    pub(crate) client: Client<R, D, J>,
    pub(crate) threads: Vec<JoinHandle<Left<J>>>,
    /// The threads that build merges, one for each of the others.
    pub(crate) mergers: Vec<JoinHandle<()>>,
    pub(crate) began: Vec<Began<J>>,
    pub(crate) ghost rising: { IdsRiseFrom 0 began.items } by { IdsRiseFrom-prop 0 began.items },
}

impl<R, D, G, J> Crew<R, D, G, J>
where
    R: Threads + Wait + Copy + Send + Drop + 'static,
    D: LogDevice + Send + 'static,
    G: Gate + Send + Sync + 'static,
    J: IndexName + Send + Sync + 'static,
{
    /// Starts the threads of some copies.
    #[tactic(auto, using(crate::proofs::Opened::began_none, crate::proofs::Opened::began_more))]
    pub(crate) fn launch_all(
        &mut self,
        rt: &R,
        copies: Vec<Ready<D, J>>,
    ) -> Result<(), ClusterFault>
        ensures threads { OnOk result (vec_len self.new.threads ≡ vec_len self.old.threads + vec_len copies) }
        ensures began { OnOk result (self.new.began.items ≡ self.old.began.items ++ map copy_of copies.items) }
    {
        for ready in copies {
            self.launch(rt, ready)?;
        }
        Ok(())
    }

    /// Starts the thread of a copy, which posts reach from now on.
    pub(crate) fn launch(&mut self, rt: &R, ready: Ready<D, J>) -> Result<(), ClusterFault>
        ensures threads { OnOk result (vec_len self.new.threads ≡ vec_len self.old.threads + 1) }
        ensures began { OnOk result (self.new.began.items ≡ self.old.began.items ++ ready.copy ∷ []) }
    {
        match self.start_of(rt, ready.copy().id()) {
            Ok(start) => self.run(rt, start, ready),
            Err(fault) => {
                drop(ready);
                Err(fault)
            }
        }
    }

    /// Has the master add a copy, and starts its thread.
    pub(crate) fn join(
        &mut self,
        rt: &R,
        copy: u32,
        ready: Ready<D, J>,
    ) -> Result<Decided<J>, ClusterFault>
        ensures decided { IfOk result (λ d. IsDecided Allocate d.decision d.past) }
        ensures threads { OnOk result (vec_len self.new.threads ≡ vec_len self.old.threads + 1) }
        ensures began { OnOk result (self.new.began.items ≡ self.old.began.items ++ ready.copy ∷ []) }
    {
        match self.start_of(rt, copy) {
            Ok(start) => self.join_by(rt, copy, start, ready),
            Err(fault) => {
                drop(ready);
                Err(fault)
            }
        }
    }

    fn join_by(
        &mut self,
        rt: &R,
        copy: u32,
        start: Start<R, D, J>,
        ready: Ready<D, J>,
    ) -> Result<Decided<J>, ClusterFault>
        ensures decided { IfOk result (λ d. IsDecided Allocate d.decision d.past) }
        ensures threads { OnOk result (vec_len self.new.threads ≡ vec_len self.old.threads + 1) }
        ensures began { OnOk result (self.new.began.items ≡ self.old.began.items ++ ready.copy ∷ []) }
    {
        match self
            .client
            .shared
            .ask(rt, self.client.alloc, 0, Request::Allocate)
        {
            Ok(decided) => match self.run(rt, start, ready) {
                Ok(()) => Ok(decided),
                Err(fault) => {
                    drop(decided);
                    Err(fault)
                }
            },
            Err(fault) => {
                drop(start);
                drop(ready);
                remove_route(rt, &*self.client.shared, copy);
                Err(ClusterFault::from(fault))
            }
        }
    }

    /// What the threads of a copy are to be started with, whom posts reach from now on.
    fn start_of(&self, rt: &R, copy: u32) -> Result<Start<R, D, J>, ClusterFault> {
        let alloc = self.client.alloc;
        let (to, merges) = unbounded(alloc)?;
        let tools = self.tools(to)?;
        let lock = self.client.locks.add(rt, alloc, copy)?;
        match inbox_of(rt, alloc, &*self.client.shared, copy) {
            Ok((worker, inbox)) => Ok(Start {
                alloc,
                tools,
                lock,
                inbox,
                merges,
                worker,
            }),
            Err(fault) => {
                drop(tools);
                drop(lock);
                Err(fault)
            }
        }
    }

    /// What the worker of a copy needs apart from it.
    fn tools(&self, merges: Sender<Merging, Global>) -> Result<Tools<D, J>, AllocError> {
        let shared = another(&self.client.shared)?;
        Ok(Tools { shared, merges })
    }

    /// Starts the threads of a copy, and waits until it serves. Where it gets no threads, or the copy doesn't serve, it answers `NoMemory`.
    fn run(&mut self, rt: &R, start: Start<R, D, J>, ready: Ready<D, J>) -> Result<(), ClusterFault>
        ensures threads { OnOk result (vec_len self.new.threads ≡ vec_len self.old.threads + 1) }
        ensures began { OnOk result (self.new.began.items ≡ self.old.began.items ++ ready.copy ∷ []) }
    {
        match self.journaling(ready) {
            Ok(copy) => self.run_over(rt, start, copy),
            Err(refused) => {
                drop(start);
                Err(ClusterFault::from(refused))
            }
        }
    }

    /// The copy with its journal, which begins as it is. Where there is one with its id or a greater one it's refused.
    #[tactic(auto, using(crate::proofs::Handed::rise_more))]
    fn journaling(&mut self, ready: Ready<D, J>) -> Result<Journaling<D, J>, AllocError>
        ensures threads { self.new.threads ≡ self.old.threads }
        ensures began { OnOk result (self.new.began.items ≡ self.old.began.items ++ ready.copy ∷ []) }
    {
        if let Err(refused) = self.began.reserve(1) {
            drop(ready);
            return Err(refused);
        }
        if !is_next(self.began.as_slice(), ready.copy().id()) {
            drop(ready);
            return Err(AllocError);
        }
        let copy = ready.registered(self.client.alloc, &mut self.registry)?;
        self.began.push_reserved(copy.held.began().again());
        Ok(copy)
    }

    fn run_over(
        &mut self,
        rt: &R,
        start: Start<R, D, J>,
        copy: Journaling<D, J>,
    ) -> Result<(), ClusterFault>
        ensures threads { OnOk result (vec_len self.new.threads ≡ vec_len self.old.threads + 1) }
        ensures began { self.new.began ≡ self.old.began }
    {
        let Ok(gate) = another(&self.gate) else {
            drop(start);
            drop(copy);
            return Err(ClusterFault::NoMemory);
        };
        let Ok((begun, heard)) = bounded(self.client.alloc, 1) else {
            drop(gate);
            drop(start);
            drop(copy);
            return Err(ClusterFault::NoMemory);
        };
        let Start {
            alloc,
            tools,
            lock,
            inbox,
            merges,
            worker,
        } = start;
        let bench = Bench {
            rt: *rt,
            alloc,
            gate,
            begun,
            tools,
            lock,
            inbox,
            copy,
        };
        let merger = Merger {
            rt: *rt,
            alloc,
            merges,
            worker,
        };
        start_both(rt, &mut self.mergers, merger, &mut self.threads, bench)?;
        match heard.recv(rt) {
            Ok(true) => Ok(()),
            _ => Err(ClusterFault::NoMemory),
        }
    }
}

/// Whether an id is greater than that of the last of some copies.
fn is_next<J: IndexName>(began: &[Began<J>], id: u32) -> bool
    ensures { IsTrue result → last_id 0 began.now < id }
{
    let mut last = 0;
    for one in began {
        last = one.node();
    }
    last < id
}

/// Another handle of what is shared.
fn another<T>(shared: &Arc<T, Global>) -> Result<Arc<T, Global>, AllocError> {
    Arc::try_clone(shared)
}
