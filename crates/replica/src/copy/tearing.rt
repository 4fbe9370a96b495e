//! Steps that are cut short.
ghost use Rattle.std.specs.Prelude.{◌≡◌, ◌++◌, ◌∷◌, [], true, false, All, IfOk, OnOk, OnErr};
ghost use Rattle.op.specs.Records.{IsRecord};
ghost use Rattle.replica.specs.Copy.{opened, restarted};
ghost use Rattle.replica.specs.Logged.{IsReady};
ghost use Rattle.replica.specs.Step.{copy_step, torn};

use crate::copy::Copy;
use crate::fault::CopyFault;
use crate::input::Input;
use crate::planned::{Planned, PlannedAll};
use crate::prepared::Prepared;
use op::Record;
use std::alloc::{AllocError, Global};
use translog::{Frame, LogDevice};

impl<D: LogDevice> Copy<D> {
    /// A step that is cut short while its record is appended, as by a crash: the record is kept or not, nothing is answered, sent or acknowledged,
    /// and the copy restarts. A step that keeps no record, or is refused, is a restart alone. Want of memory changes nothing.
    pub fn tear(&mut self, alloc: Global, input: Input, is_kept: bool) -> Result<(), AllocError>
        requires in_memory { D.in_memory ≡ true }
        requires open { self.old.closed ≡ false }
        ensures copy { OnOk result (self.new.copy ≡ torn self.old.copy (copy_step self.old.copy input) is_kept) }
        ensures id { OnOk result (self.new.copy.id ≡ self.old.copy.id) }
        ensures stays { OnErr result (self.new.copy ≡ self.old.copy) }
        ensures open { self.new.closed ≡ false }
    {
        if is_kept {
            self.tear_after(alloc, input)
        } else {
            self.restart(alloc)
        }
    }

    /// The step's record is kept.
    fn tear_after(&mut self, alloc: Global, input: Input) -> Result<(), AllocError>
        requires in_memory { D.in_memory ≡ true }
        requires open { self.old.closed ≡ false }
        ensures copy { OnOk result (self.new.copy ≡ torn self.old.copy (copy_step self.old.copy input) true) }
        ensures id { OnOk result (self.new.copy.id ≡ self.old.copy.id) }
        ensures stays { OnErr result (self.new.copy ≡ self.old.copy) }
        ensures open { self.new.closed ≡ false }
    {
        let records = self.records(alloc)?;
        match self.prepare(alloc, input) {
            Ok(Prepared::Kept(frame, planned)) => {
                self.restart_with(alloc, records, frame, planned)
            }
            Ok(Prepared::KeptAll(frame, planned)) => {
                self.restart_with_all(alloc, records, frame, planned)
            }
            Ok(prepared) => {
                drop(prepared);
                self.restart(alloc)
            }
            Err(CopyFault::NoMemory) => Err(AllocError),
            Err(_) => self.restart(alloc),
        }
    }

    fn restart(&mut self, alloc: Global) -> Result<(), AllocError>
        requires in_memory { D.in_memory ≡ true }
        requires open { self.old.closed ≡ false }
        ensures copy { OnOk result (self.new.copy ≡ restarted self.old.copy) }
        ensures id { OnOk result (self.new.copy.id ≡ self.old.copy.id) }
        ensures stays { OnErr result (self.new.copy ≡ self.old.copy) }
        ensures open { self.new.closed ≡ false }
    {
        match self.step(alloc, Input::Restart) {
            Ok(_) => Ok(()),
            Err(_) => Err(AllocError),
        }
    }

    /// The records of the copy, read from its log.
    fn records(&mut self, alloc: Global) -> Result<Vec<Record>, AllocError>
        requires in_memory { D.in_memory ≡ true }
        requires open { self.old.closed ≡ false }
        ensures records { IfOk result (λ rs. rs.items ≡ self.old.copy.records) }
        ensures rules { IfOk result (λ rs. All IsRecord rs.items) }
        ensures copy { self.new.copy ≡ self.old.copy }
        ensures open { self.new.closed ≡ false }
    {
        match self.read_log(alloc) {
            Ok((records, _)) => Ok(records),
            Err(_) => Err(AllocError),
        }
    }

    /// Keeps the record of a step that is ready, and restarts; everything that takes memory comes before the append.
    fn restart_with(
        &mut self,
        alloc: Global,
        records: Vec<Record>,
        frame: Frame,
        planned: Planned,
    ) -> Result<(), AllocError>
        requires in_memory { D.in_memory ≡ true }
        requires ready { IsReady self.old (Prepared.Kept frame planned) }
        requires records { records.items ≡ self.old.copy.records }
        requires rules { All IsRecord records.items }
        ensures copy { OnOk result (self.new.copy ≡ opened self.old.copy.id self.old.copy.birth self.old.copy.mapping (self.old.copy.records ++ planned.next_record ∷ [])) }
        ensures id { OnOk result (self.new.copy.id ≡ self.old.copy.id) }
        ensures stays { OnErr result (self.new.copy ≡ self.old.copy) }
        ensures open { self.new.closed ≡ false }
    {
        let Planned {
            next_record,
            role,
            output,
            ..
        } = planned;
        drop(role);
        drop(output);
        let mut records = records;
        if let Err(refused) = records.push(next_record) {
            drop(refused);
            drop(records);
            drop(frame);
            return Err(AllocError);
        }
        let Ok((reopened, output)) = self.state.stage_reopen(alloc, records) else {
            drop(frame);
            return Err(AllocError);
        };
        drop(output);
        match self.log.append(frame) {
            Ok(()) => {
                self.state.reopen(reopened);
                Ok(())
            }
            Err(_) => {
                drop(reopened);
                Err(AllocError)
            }
        }
    }

    /// Keeps the records of a bulk that is ready, and restarts; everything that takes memory comes before the append.
    fn restart_with_all(
        &mut self,
        alloc: Global,
        records: Vec<Record>,
        frame: Frame,
        planned: PlannedAll,
    ) -> Result<(), AllocError>
        requires in_memory { D.in_memory ≡ true }
        requires ready { IsReady self.old (Prepared.KeptAll frame planned) }
        requires records { records.items ≡ self.old.copy.records }
        requires rules { All IsRecord records.items }
        ensures copy { OnOk result (self.new.copy ≡ opened self.old.copy.id self.old.copy.birth self.old.copy.mapping (self.old.copy.records ++ planned.records.items)) }
        ensures id { OnOk result (self.new.copy.id ≡ self.old.copy.id) }
        ensures stays { OnErr result (self.new.copy ≡ self.old.copy) }
        ensures open { self.new.closed ≡ false }
    {
        let PlannedAll {
            records: more,
            role,
            output,
            ..
        } = planned;
        drop(role);
        drop(output);
        let mut more = more;
        let mut records = records;
        if let Err(refused) = records.append(&mut more) {
            drop(refused);
            drop(more);
            drop(records);
            drop(frame);
            return Err(AllocError);
        }
        let Ok((reopened, output)) = self.state.stage_reopen(alloc, records) else {
            drop(frame);
            return Err(AllocError);
        };
        drop(output);
        match self.log.append(frame) {
            Ok(()) => {
                self.state.reopen(reopened);
                Ok(())
            }
            Err(_) => {
                drop(reopened);
                Err(AllocError)
            }
        }
    }
}
