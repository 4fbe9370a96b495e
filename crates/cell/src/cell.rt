//! A copy with its journal, and what it publishes.
ghost use Rattle.std.specs.Prelude.{◌≡◌, ◌∷◌, [], length, is_some, true, false, IfOk, IfErr, IfSome, IsOk, OnOk, OnErr};
ghost use Rattle.journal.specs.Journal.{IsLegal, open_at};
ghost use Rattle.journal.specs.declared.journal.Journal.TheVariants.{OfCopy};
ghost use Rattle.replica.specs.Logged.{is_refresh};
ghost use Rattle.translog.specs.declared.fault.LogFault.TheVariants.{Device};
ghost use Rattle.replica.specs.declared.fault.CopyFault.TheVariants.{Log};
ghost use Rattle.node.specs.declared.fault.NodeFault.TheVariants.{Copy as Refused};
ghost use Rattle.node.specs.Held.{IsCall, IsHeld};
ghost use Rattle.cell.specs.Points.{searcher_of};
ghost use Rattle.cell.specs.Publishing.{IsBegun, IsKept, IsPublished, IsRefusedCall, IsShownAfter, IsShownBy, IsStepped, IsAllShown};
ghost use Rattle.cell.specs.Refreshing.{IsRefreshed, IsUnnoted, IsUnrefreshed, IsWriteRefreshed};
ghost use Rattle.published.specs.Told.{IsOf};
ghost use Rattle.node.specs.Reading.{standing, IsGotFrom, IsUngot};
ghost use Rattle.node.specs.Stands.{LastStands};

use crate::index::IndexName;
use crate::searching::CopySearcher;
use doc::DocId;
use engine::Merging;
use node::{EndedCopy, Got, Held, NodeFault, OnDisk, Pass, Receipt};
use published::{Name, Note, Place, Publisher, Searcher, Showing, ShownRecords, Unnamed};
use replica::{Copy, Input, Write};
use std::alloc::{AllocError, Global};
use std::marker::Model;
use std::sync::{Arc, Wait};
use translog::LogDevice;

/// A copy with its journal, and the publisher of what it shows. Contracts see the journal and the line of what was published, which is always a
/// beginning of the copy's records. It is not `Drop`: end it by `close`.
pub struct CopyCell<D: LogDevice, J: IndexName> {
    held: Held<D, J>,
    publisher: Publisher,
}

impl<D: LogDevice, J: IndexName> Model for CopyCell<D, J> {
    ghost use Rattle.std.specs.Prelude.{◌≡◌};
    ghost use Rattle.cell.specs.Points.{IsListedIn};
    ghost use Rattle.cell.specs.Publishing.{CellData, IsPublished};

    ghost Value = { CellData };

    ghost view = { λ c. record { journal = c.held; line = c.publisher } };

    ghost invariant = { λ c. IsPublished c.held c.publisher × IsListedIn J.registry J.index.mapping c.publisher.top };
}

/// What an open copy shows at the end of its journal, where that is all of its records; nothing while it is closed.
fn showing_of<D: LogDevice>(copy: &Copy<D>, place: Place) -> Result<Option<Showing>, AllocError>
    requires whole { copy.now.closed ≡ false → copy.now.copy.point ≡ length copy.now.copy.records }
    requires records { place.records ≡ copy.now.copy.records }
    ensures shown { IfOk result (λ o. IfSome o (IsShownBy place.registry copy.now.copy)) }
    ensures open { IfOk result (λ o. IfSome o (λ s. copy.now.closed ≡ false)) }
{
    let Some(snapshot) = copy.snapshot() else {
        return Ok(None);
    };
    Ok(Some(Showing {
        snapshot: Arc::try_clone(snapshot)?,
        place,
    }))
}

/// The place after all entries of a copy's journal. Nothing while the copy is closed.
#[tactic(auto, using(crate::proofs::Growing::stands_at, crate::proofs::Growing::stands_since))]
fn place_of<D: LogDevice, J: IndexName>(held: &Held<D, J>, copy: &Copy<D>) -> Option<Place>
    requires { IsHeld held.now copy.now }
    ensures registry { IfSome result (λ p. p.registry ≡ J.registry) }
    ensures records { IfSome result (λ p. p.records ≡ copy.now.copy.records) }
{
    let Some(_) = copy.snapshot() else {
        return None;
    };
    let Some(records) = ShownRecords::of(copy.listed()) else {
        return None;
    };
    Some(Place::of(
        held.node(),
        held.len(),
        records,
        held.upto(),
        held.began().beginning().again(),
    ))
}

/// What a copy with its journal shows.
#[tactic(auto, using(crate::proofs::Growing::shown_in, crate::proofs::Growing::whole_copy))]
fn showing_in<D: LogDevice, J: IndexName>(held: &Held<D, J>) -> Result<Option<Showing>, AllocError>
    requires { (standing held.now).copy.point ≡ length (standing held.now).copy.records }
    ensures { IfOk result (λ o. IfSome o (IsShownBy J.registry (standing held.now).copy)) }
{
    let copy = held.copy();
    let Some(place) = place_of(held, copy) else {
        return Ok(None);
    };
    let Some(showing) = showing_of(copy, place)? else {
        return Ok(None);
    };
    Ok(Some(showing))
}

/// Whether a step of the input makes searches show all records.
fn is_refresh(input: &Input) -> bool
    ensures { result ≡ is_refresh input.now }
{
    matches!(input, Input::Refresh | Input::Restart)
}

impl<D: LogDevice, J: IndexName> CopyCell<D, J> {
    /// A copy that shows all of its records. Out of memory, or where the copy is closed, it gives the copy back.
    #[tactic(auto, using(crate::proofs::Growing::begun_published, crate::proofs::Growing::begun_all))]
    pub fn begin<R: Wait>(
        rt: &R,
        alloc: Global,
        held: Held<D, J>,
    ) -> Result<CopyCell<D, J>, Held<D, J>>
        requires whole { (standing held).copy.point ≡ length (standing held).copy.records }
        requires mapping { (standing held).copy.mapping ≡ J.index.mapping }
        ensures begun { IfOk result (IsBegun held) }
        ensures refused { IfErr result (λ h. h ≡ held) }
    {
        let Ok(Some(showing)) = showing_in(&held) else {
            return Err(held);
        };
        match Publisher::begin(rt, alloc, showing) {
            Ok(publisher) => Ok(CopyCell { held, publisher }),
            Err(_) => Err(held),
        }
    }

    /// The copy is one of this index.
    #[tactic(auto, using(crate::proofs::Growing::is_under))]
    pub fn is_under(&self)
        ensures { (standing self.now.journal).copy.mapping ≡ J.index.mapping }
    {
        let _ = &self.held;
    }

    /// The copy with its journal.
    pub fn held(&self) -> &Held<D, J>
        ensures { result.now ≡ self.now.journal }
    {
        &self.held
    }

    /// What the copy has of an id, of all its records, as `Held::get` answers it; it makes no entry.
    #[tactic(auto, using(crate::proofs::Refusing::same_published))]
    pub fn get(&mut self, alloc: Global, id: DocId) -> Result<Got<J>, NodeFault>
        ensures got { IfOk result (IsGotFrom self.old.journal id) }
        ensures same { self.new ≡ self.old }
        ensures refused { IfErr result (IsUngot self.old.journal) }
    {
        self.held.get(alloc, id)
    }

    /// Waits until the steps of all entries are there after a crash too, as `Held::sync` does; it makes no entry.
    #[tactic(auto, using(crate::proofs::Refusing::same_published))]
    pub fn sync(&mut self) -> Result<OnDisk, NodeFault>
        ensures same { self.new ≡ self.old }
        ensures all { IfOk result (λ o. o ≡ length self.new.journal.deeds) }
        ensures refused { IfErr result (λ e. e ≡ Refused (Log Device)) }
        ensures in_memory { D.in_memory ≡ true → IsOk result }
    {
        self.held.sync()
    }

    /// Whether they are there after a crash too.
    pub fn is_synced(&self) -> bool
        ensures { D.in_memory ≡ true → result ≡ true }
    {
        self.held.is_synced()
    }

    /// One call of the copy, as `Held::call` makes it. After a refresh or a restart searches show all records of the copy; where memory runs out for
    /// that it is a refusal, though the call was made, and searches show what they showed.
    #[tactic(auto, using(crate::proofs::Refusing::refused, crate::proofs::Refusing::unshown, crate::proofs::Refusing::call_as, crate::proofs::Refusing::shown_all, crate::proofs::Refusing::shown_same))]
    pub fn call<R: Wait>(
        &mut self,
        rt: &R,
        alloc: Global,
        pass: &mut Pass<J>,
        input: Input,
    ) -> Result<Receipt<J>, NodeFault>
        ensures ok { IfOk result (λ r. IsCall self.old.journal self.new.journal pass.old pass.new input r × IsOk r.deed.answer) }
        ensures stood { IfOk result (λ r. LastStands self.old.journal pass.old) }
        ensures shown { IfOk result (λ r. IsShownAfter input self.old self.new) }
        ensures err { IfErr result (IsRefusedCall self.old self.new pass.old pass.new input) }
        ensures book { self.new.line.book ≡ self.old.line.book }
    {
        let shows = is_refresh(&input);
        let receipt = self.step(alloc, pass, input)?;
        if !shows {
            return Ok(receipt);
        }
        match self.show(rt, alloc) {
            Ok(()) => Ok(receipt),
            Err(refused) => {
                drop(receipt);
                Err(NodeFault::from(refused))
            }
        }
    }

    /// The call, before anything is shown.
    #[tactic(auto, using(crate::proofs::Refusing::step_published, crate::proofs::Refusing::stepped, crate::proofs::Refusing::kept))]
    fn step(
        &mut self,
        alloc: Global,
        pass: &mut Pass<J>,
        input: Input,
    ) -> Result<Receipt<J>, NodeFault>
        ensures ok { IfOk result (λ r. IsCall self.old.journal self.new.journal pass.old pass.new input r × IsOk r.deed.answer) }
        ensures stood { IfOk result (λ r. LastStands self.old.journal pass.old) }
        ensures stepped { IfOk result (λ r. IsStepped input self.old self.new) }
        ensures err { IfErr result (IsKept self.old self.new pass.old pass.new input) }
        ensures line { self.new.line ≡ self.old.line }
    {
        let _copy = self.held.copy();
        self.held.call(alloc, pass, input)
    }

    /// Shows all records of the copy.
    #[tactic(auto, using(crate::proofs::Growing::still_shown))]
    fn show<R: Wait>(&mut self, rt: &R, alloc: Global) -> Result<(), AllocError>
        requires { (standing self.old.journal).copy.point ≡ length (standing self.old.journal).copy.records }
        ensures journal { self.new.journal ≡ self.old.journal }
        ensures ok { OnOk result (IsAllShown self.new) }
        ensures err { OnErr result (self.new.line.shown ≡ self.old.line.shown) }
        ensures book { self.new.line.book ≡ self.old.line.book }
    {
        let Some(showing) = showing_in(&self.held)? else {
            return Err(AllocError);
        };
        self.publisher.publish(rt, alloc, showing)
    }

    /// Begins a merge of segments that go well into one, if there are more than so few, for `finish_merge`; it makes no entry.
    #[tactic(auto, using(crate::proofs::Refusing::same_published))]
    pub fn begin_merge_beside(
        &mut self,
        alloc: Global,
        few: usize,
    ) -> Result<Option<Merging>, AllocError>
        ensures { self.new ≡ self.old }
    {
        self.held.begin_merge_beside(alloc, few)
    }

    /// Puts the part in place that was built for it, without comparing documents; it makes no entry. Searchers look through it from the next refresh on.
    #[tactic(auto, using(crate::proofs::Refusing::same_published))]
    pub fn finish_merge(&mut self, alloc: Global) -> Result<bool, AllocError>
        ensures { self.new ≡ self.old }
    {
        self.held.finish_merge(alloc)
    }

    /// A write, the refresh after it, and a note of what searches show then, which is all records of the copy. A refused write has no refresh; where
    /// the refresh is refused, or memory runs out for the note, the write stands, and its receipt is in the pass.
    #[tactic(auto, using(crate::proofs::Refreshing::write_refreshed, crate::proofs::Refreshing::write_refused, crate::proofs::Refreshing::write_stands, crate::proofs::Refreshing::still_named))]
    pub fn write_refreshed<N: Name, R: Wait>(
        &mut self,
        rt: &R,
        alloc: Global,
        pass: &mut Pass<J>,
        write: Write,
    ) -> Result<(Receipt<J>, Note<N>), NodeFault>
        requires { IsOf N.named N.cell self.old.line.shown }
        ensures ok { IfOk result (λ r. IsWriteRefreshed self.old self.new pass.old pass.new write r.0 r.1) }
        ensures err { IfErr result (IsUnrefreshed self.old self.new pass.old pass.new write) }
    {
        self.is_published();
        let receipt = self.call(rt, alloc, pass, Input::Write(write))?;
        self.is_published();
        match self.refreshed(rt, alloc, pass) {
            Ok(note) => Ok((receipt, note)),
            Err(fault) => {
                drop(receipt);
                Err(fault)
            }
        }
    }

    /// A refresh, and a note of what searches show then.
    #[tactic(auto, using(crate::proofs::Refreshing::refreshed, crate::proofs::Refreshing::refresh_refused, crate::proofs::Refreshing::unnoted, crate::proofs::Refreshing::still_named))]
    fn refreshed<N: Name, R: Wait>(
        &mut self,
        rt: &R,
        alloc: Global,
        pass: &mut Pass<J>,
    ) -> Result<Note<N>, NodeFault>
        requires { IsOf N.named N.cell self.old.line.shown }
        ensures ok { IfOk result (IsRefreshed self.old self.new pass.old pass.new) }
        ensures err { IfErr result (IsUnnoted self.old self.new pass.old pass.new) }
    {
        self.is_published();
        let receipt = self.call(rt, alloc, pass, Input::Refresh)?;
        drop(receipt);
        self.is_published();
        Ok(self.note()?)
    }

    /// A note of what searches show.
    pub fn note<N: Name>(&self) -> Result<Note<N>, AllocError>
        requires { IsOf N.named N.cell self.now.line.shown }
        ensures { IfOk result (λ n. n ≡ self.now.line.shown) }
    {
        self.publisher.note()
    }

    /// What is shown begins the records of the copy.
    fn is_published(&self)
        ensures { IsPublished self.now.journal self.now.line }
    {
        let _ = &self.held;
    }

    /// One more reader of what is shown. It is refused where eight are given out.
    pub fn searcher<N: Name>(&mut self) -> Result<Searcher<N>, AllocError>
        requires { IsOf N.named N.cell self.old.line.shown }
        ensures same { self.new ≡ self.old }
        ensures knows { IfOk result (λ s. s ≡ self.old.line.shown ∷ []) }
    {
        self.publisher.searcher()
    }

    /// One more reader of what is shown, for whoever asks the copies of the cluster. It is refused where eight are given out.
    #[tactic(auto, using(crate::proofs::Pointing::shown_leads))]
    pub fn copy_searcher(&mut self) -> Result<CopySearcher<J>, AllocError>
        ensures same { self.new ≡ self.old }
        ensures knows { IfOk result (λ s. s ≡ searcher_of self.old.journal.opening.id (self.old.line.shown ∷ [])) }
    {
        let searcher = self.publisher.searcher::<Unnamed>()?;
        Ok(CopySearcher::of(self.held.node(), searcher))
    }

    /// The journal where memory has it, for which the copy is given up. Searches show nothing any more, which waits for those that are just taking
    /// what is shown.
    pub fn close<R: Wait>(self, rt: &R) -> Option<EndedCopy<J>>
        ensures kept { is_some result ≡ self.journal.kept }
        ensures same { IfSome result (λ j. j ≡ OfCopy self.journal.opening self.journal.deeds) }
        ensures legal { IsLegal (open_at self.journal.opening) 0 self.journal.deeds }
    {
        let CopyCell { held, publisher } = self;
        publisher.take(rt);
        held.into_journal()
    }
}
