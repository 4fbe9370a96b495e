//! The nodes of a world, and the messages between them.
ghost use Rattle.std.specs.Prelude.{◌≡◌, ◌<◌, ◌≤◌, true, false, vec_len, vec_capacity, None, IfOk, IfErr, IfNone, IfSome, OnOk, OnErr};
ghost use Rattle.std.specs.Option.{option_map};
ghost use Rattle.doc.specs.Outcome.{Gives};
ghost use Rattle.master.specs.Decide.{master_step};
ghost use Rattle.master.specs.Fault.{fault_of, is_log};
ghost use Rattle.world.specs.declared.event.EventAnswer.TheVariants.{RefusedByMaster};
ghost use Rattle.replica.specs.Logged.{searched};
ghost use Rattle.world.specs.Nodes.{merge_of, node_in, HasFewSegments, HasMergedAt, IsFollowed, IsSwapAt};
ghost use Rattle.world.specs.World.{answering, at_copy, at_master, copy_in, decided, decided_in, deliver, deliver_torn, message_at, new_world, request_of, torn_at, world_step, after_decision};

mod copies;

use crate::event::{Event, EventAnswer};
use crate::nodes::copies::{add_one, added, begun, place_of, step_copy, tear_copy};
use doc::Mapping;
use engine::{Merged, Merging};
use master::{Decision, Master, MasterFault, Request, State};
use op::{Content, Msg, Op};
use replica::{Copy, CopyFault, Input};
use std::alloc::{AllocError, Global};
use std::marker::Model;
use translog::MemDevice;

/// A copy whose log is in memory.
pub type OneCopy = Copy<MemDevice>;

/// The master, the copies, every message that was ever sent, and the acknowledged operations.
pub(crate) struct Nodes {
    mapping: Mapping,
    master: Master<MemDevice>,
    copies: Vec<OneCopy>,
    messages: Vec<Msg>,
    acknowledged: Vec<Op>,
}

impl Drop for Nodes {
    fn drop(self) {
        let Nodes {
            mapping: _mapping,
            master: _master,
            copies: _copies,
            messages: _messages,
            acknowledged: _acknowledged,
        } = self;
    }
}

impl Model for Nodes {
    ghost use Rattle.std.specs.Prelude.{◌≡◌, false};
    ghost use Rattle.world.specs.Nodes.{copies_of, nodes_of, AreOpen, WorldData};

    ghost Value = { WorldData };

    ghost view = { λ n. record {
      world = record {
        mapping = n.mapping;
        master = n.master.state;
        copies = copies_of n.copies.items;
        messages = n.messages.items;
        acknowledged = n.acknowledged.items;
      };
      nodes = nodes_of n.copies.items;
    } };

    ghost invariant = { λ n. (n.master.closed ≡ false) × AreOpen n.copies.items };
}

impl Nodes {
    /// A new index of one copy to five.
    pub(crate) fn new(alloc: Global, mapping: &Mapping, copies: u8) -> Result<Nodes, AllocError>
        requires { (1 ≤ copies) × (copies ≤ 5) }
        ensures { IfOk result (λ n. n.world ≡ new_world mapping.now copies) }
    {
        let master = match Master::begin(alloc, copies, MemDevice::new(Vec::new(alloc))) {
            Ok(master) => master,
            Err(refused) => {
                drop(refused);
                return Err(AllocError);
            }
        };
        let Ok(copies) = begun(alloc, mapping, copies) else {
            drop(master);
            return Err(AllocError);
        };
        let Ok(mapping) = mapping.copy(alloc) else {
            drop(master);
            drop(copies);
            return Err(AllocError);
        };
        Ok(Nodes {
            mapping,
            master,
            copies,
            messages: Vec::new(alloc),
            acknowledged: Vec::new(alloc),
        })
    }

    /// One event.
    pub(crate) fn step(&mut self, alloc: Global, event: &Event) -> Result<EventAnswer, AllocError>
        ensures happened { IfOk result (λ a. world_step self.old.world event.now ≡ answering self.new.world a) }
        ensures stays { OnErr result (self.new.world ≡ self.old.world) }
    {
        match event {
            Event::Write(copy, write) => {
                let write = write.copy(alloc)?;
                self.at_copy(alloc, *copy, Input::Write(write))
            }
            Event::Bulk(copy, writes) => {
                let writes = writes.copy(alloc)?;
                self.at_copy(alloc, *copy, Input::Bulk(writes))
            }
            Event::Get(copy, id) => {
                let id = id.copy(alloc)?;
                self.at_copy(alloc, *copy, Input::Get(id))
            }
            Event::Refresh(copy) => self.at_copy(alloc, *copy, Input::Refresh),
            Event::Restart(copy) => self.at_copy(alloc, *copy, Input::Restart),
            Event::Deliver(number) => self.deliver(alloc, *number),
            Event::Report(copy, id) => self.at_copy(alloc, *copy, Input::Report(*id)),
            Event::Promote(copy) => self.ask(alloc, Request::Promote(*copy)),
            Event::Allocate => self.ask(alloc, Request::Allocate),
            Event::TornWrite(copy, write, is_kept) => {
                let write = write.copy(alloc)?;
                self.tear_at(alloc, *copy, Input::Write(write), *is_kept)
            }
            Event::TornBulk(copy, writes, is_kept) => {
                let writes = writes.copy(alloc)?;
                self.tear_at(alloc, *copy, Input::Bulk(writes), *is_kept)
            }
            Event::TornDelivery(number, is_kept) => self.tear_delivery(alloc, *number, *is_kept),
        }
    }

    pub(crate) fn mapping(&self) -> &Mapping
        ensures { result.now ≡ self.now.world.mapping }
    {
        &self.mapping
    }

    pub(crate) fn master(&self) -> &State
        ensures { result.now ≡ self.now.world.master }
    {
        self.master.state()
    }

    pub(crate) fn messages(&self) -> &[Msg]
        ensures { result.now ≡ self.now.world.messages }
    {
        self.messages.as_slice()
    }

    pub(crate) fn acknowledged(&self) -> &[Op]
        ensures { result.now ≡ self.now.world.acknowledged }
    {
        self.acknowledged.as_slice()
    }

    // ---- copies

    pub(crate) fn copy(&self, id: u32) -> Option<&OneCopy>
        ensures copy { option_map (λ c. c.now.copy) result ≡ copy_in self.now.world.copies id }
        ensures node { option_map (λ c. searched c.now) result ≡ node_in self.now.nodes id }
        ensures open { IfSome result (λ c. c.now.closed ≡ false) }
    {
        match place_of(&self.copies, id) {
            Some(place) => Some(&self.copies[place]),
            None => None,
        }
    }

    /// Begins a merge at a copy. Nothing where the copy isn't there.
    #[tactic(auto, using(crate::proofs::Swaps::begun_at, crate::proofs::Swaps::none_begun))]
    pub(crate) fn begin_merge(&self, id: u32) -> Result<Option<Merging>, AllocError>
        ensures { IfOk result (λ o. o ≡ option_map merge_of (node_in self.now.nodes id)) }
    {
        match self.copy(id) {
            Some(copy) => Ok(Some(copy.begin_merge()?)),
            None => Ok(None),
        }
    }

    /// Puts a merge in place at a copy, if what it is made of is still there. Nothing where the copy isn't there.
    pub(crate) fn swap_merged(
        &mut self,
        alloc: Global,
        id: u32,
        merged: Merged,
    ) -> Result<Option<bool>, AllocError>
        ensures world { self.new.world ≡ self.old.world }
        ensures none { IfOk result (λ o. IfNone o ((node_in self.old.nodes id ≡ None) × (self.new.nodes ≡ self.old.nodes))) }
        ensures swapped { IfOk result (λ o. IfSome o (IsSwapAt id merged self.old.nodes self.new.nodes)) }
        ensures err { OnErr result (self.new.nodes ≡ self.old.nodes) }
    {
        match place_of(&self.copies, id) {
            Some(place) => {
                let is_there = self.copies[place].swap_merged(alloc, merged)?;
                Ok(Some(is_there))
            }
            None => {
                drop(merged);
                Ok(None)
            }
        }
    }

    /// Merges at once what goes well into one, at a copy whose searches look through many segments, and says whether it did. `false` where the copy isn't
    /// there.
    pub(crate) fn merge_next(&mut self, alloc: Global, id: u32) -> Result<bool, AllocError>
        ensures world { self.new.world ≡ self.old.world }
        ensures merged { IfOk result (λ b. b ≡ true → HasMergedAt id self.old.nodes self.new.nodes) }
        ensures few { IfOk result (λ b. b ≡ false → HasFewSegments id self.old.nodes) }
        ensures none { IfOk result (λ b. b ≡ false → self.new.nodes ≡ self.old.nodes) }
        ensures err { OnErr result (self.new.nodes ≡ self.old.nodes) }
    {
        match place_of(&self.copies, id) {
            Some(place) => {
                let is_merged = self.copies[place].merge_next(alloc)?;
                Ok(is_merged)
            }
            None => Ok(false),
        }
    }

    /// A step of a copy.
    fn at_copy(&mut self, alloc: Global, id: u32, input: Input) -> Result<EventAnswer, AllocError>
        ensures happened { IfOk result (λ a. at_copy self.old.world (copy_in self.old.world.copies id) input ≡ answering self.new.world a) }
        ensures stays { OnErr result (self.new.world ≡ self.old.world) }
    {
        match place_of(&self.copies, id) {
            Some(place) => {
                let answer = step_copy(
                    alloc,
                    &mut self.copies[place],
                    input,
                    &mut self.messages,
                    &mut self.acknowledged,
                )?;
                Ok(answer)
            }
            None => {
                drop(input);
                Ok(EventAnswer::NoSuchCopy)
            }
        }
    }

    /// A step of a copy that is cut short.
    fn tear_at(
        &mut self,
        alloc: Global,
        id: u32,
        input: Input,
        is_kept: bool,
    ) -> Result<EventAnswer, AllocError>
        ensures happened { IfOk result (λ a. torn_at self.old.world (copy_in self.old.world.copies id) input is_kept ≡ answering self.new.world a) }
        ensures stays { OnErr result (self.new.world ≡ self.old.world) }
    {
        match place_of(&self.copies, id) {
            Some(place) => {
                let answer = tear_copy(alloc, &mut self.copies[place], input, is_kept)?;
                Ok(answer)
            }
            None => {
                drop(input);
                Ok(EventAnswer::NoSuchCopy)
            }
        }
    }

    // ---- messages

    /// Delivers a message, to a copy or to the master.
    fn deliver(&mut self, alloc: Global, number: u64) -> Result<EventAnswer, AllocError>
        ensures happened { IfOk result (λ a. deliver self.old.world (message_at self.old.world number) ≡ answering self.new.world a) }
        ensures stays { OnErr result (self.new.world ≡ self.old.world) }
    {
        let Some(message) = self.message(alloc, number)? else {
            return Ok(EventAnswer::NoSuchMessage);
        };
        if message.to == 0 {
            let answered = self.deliver_to_master(alloc, &message);
            drop(message);
            return answered;
        }
        let to = message.to;
        self.at_copy(alloc, to, Input::Take(message))
    }

    /// Delivers a message to a copy whose step is cut short.
    fn tear_delivery(
        &mut self,
        alloc: Global,
        number: u64,
        is_kept: bool,
    ) -> Result<EventAnswer, AllocError>
        ensures happened { IfOk result (λ a. deliver_torn self.old.world (message_at self.old.world number) is_kept ≡ answering self.new.world a) }
        ensures stays { OnErr result (self.new.world ≡ self.old.world) }
    {
        let Some(message) = self.message(alloc, number)? else {
            return Ok(EventAnswer::NoSuchMessage);
        };
        if message.to == 0 {
            drop(message);
            return Ok(EventAnswer::Refused(CopyFault::WrongAddress));
        }
        let to = message.to;
        self.tear_at(alloc, to, Input::Take(message), is_kept)
    }

    /// A copy of a message, by its number from 1.
    fn message(&self, alloc: Global, number: u64) -> Result<Option<Msg>, AllocError>
        ensures { IfOk result (λ m. m ≡ message_at self.now.world number) }
    {
        if number == 0 {
            return Ok(None);
        }
        match self.messages.get(number as usize - 1) {
            Some(message) => Ok(Some(message.copy(alloc)?)),
            None => Ok(None),
        }
    }

    // ---- the master

    fn deliver_to_master(&mut self, alloc: Global, message: &Msg) -> Result<EventAnswer, AllocError>
        ensures happened { IfOk result (λ a. at_master self.old.world (request_of message.now.term message.now.content) ≡ answering self.new.world a) }
        ensures stays { OnErr result (self.new.world ≡ self.old.world) }
    {
        let Some(request) = request_of(message) else {
            return Ok(EventAnswer::Refused(CopyFault::WrongAddress));
        };
        match self.decide(alloc, request) {
            Ok(decision) => Ok(EventAnswer::Delivered(decision.repeated, decision.sent)),
            Err(fault) => refused_by_master(fault),
        }
    }

    fn ask(&mut self, alloc: Global, request: Request) -> Result<EventAnswer, AllocError>
        ensures happened { IfOk result (λ a. after_decision self.old.world decided (master_step self.old.world.master request) ≡ answering self.new.world a) }
        ensures stays { OnErr result (self.new.world ≡ self.old.world) }
    {
        match self.decide(alloc, request) {
            Ok(decision) => Ok(EventAnswer::Decided(decision.given, decision.sent)),
            Err(fault) => refused_by_master(fault),
        }
    }

    /// A decision of the master, the copy that it gives an id to, and its message. It is looked at before it is made, so that memory runs out before
    /// anything changes.
    fn decide(&mut self, alloc: Global, request: Request) -> Result<Decision, MasterFault>
        ensures decided { Gives fault_of (λ d. (self.new.world, d)) result (decided_in self.old.world (master_step self.old.world.master request)) }
        ensures stays { OnErr result (self.new.world ≡ self.old.world) }
        ensures no_log { IfErr result (λ e. is_log e ≡ false) }
    {
        let decision = match self.master.preview(alloc, request) {
            Ok(decision) => decision,
            Err(fault) => return Err(fault),
        };
        if room(&mut self.copies, &mut self.messages).is_err() {
            drop(decision);
            return Err(MasterFault::NoMemory);
        }
        let Ok(copy) = added(alloc, decision.given, &self.mapping) else {
            drop(decision);
            return Err(MasterFault::NoMemory);
        };
        let made = self.master.step(alloc, request);
        follow(&mut self.copies, &mut self.messages, copy, decision, made)
    }
}

/// Adds what a decision gives and sends, where it was made.
fn follow(
    copies: &mut Vec<OneCopy>,
    messages: &mut Vec<Msg>,
    copy: Option<OneCopy>,
    decision: Decision,
    made: Result<Decision, MasterFault>,
) -> Result<Decision, MasterFault>
    requires room { vec_len copies.old < vec_capacity copies.old }
    requires room_told { vec_len messages.old < vec_capacity messages.old }
    ensures { IsFollowed made result decision copy copies.old.items copies.new.items messages.old.items messages.new.items }
{
    match made {
        Ok(made) => {
            add_one(copies, copy);
            add_one(messages, made.sent);
            Ok(decision)
        }
        Err(fault) => {
            drop(copy);
            drop(decision);
            Err(fault)
        }
    }
}

/// Room for one copy and one message more.
fn room(copies: &mut Vec<OneCopy>, messages: &mut Vec<Msg>) -> Result<(), AllocError>
    ensures copies { copies.new.items ≡ copies.old.items }
    ensures messages { messages.new.items ≡ messages.old.items }
    ensures room { OnOk result (vec_len copies.new < vec_capacity copies.new) }
    ensures room_told { OnOk result (vec_len messages.new < vec_capacity messages.new) }
{
    copies.reserve(1)?;
    messages.reserve(1)?;
    Ok(())
}

/// The request that a message to the master makes.
pub fn request_of(message: &Msg) -> Option<Request>
    ensures { result ≡ request_of message.now.term message.now.content }
{
    match message.content {
        Content::Synced(id) => Some(Request::Synced(message.term, id)),
        Content::Fail(id) => Some(Request::Fail(message.term, id)),
        _ => None,
    }
}

/// A refusal of the master as an answer.
fn refused_by_master(fault: MasterFault) -> Result<EventAnswer, AllocError>
    requires { is_log fault ≡ false }
    ensures { IfOk result (λ a. (a ≡ RefusedByMaster fault) × (fault_of fault ≡ Some fault)) }
{
    match fault {
        MasterFault::NoMemory => Err(AllocError),
        _ => Ok(EventAnswer::RefusedByMaster(fault)),
    }
}
