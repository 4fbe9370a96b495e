//! What an audit proves. The functions do nothing: each has laws as its contract.

ghost use Rattle.std.specs.Prelude.{◌≡◌, ℕ, suc, List, map, slice_get, Some, Ok, Err};
ghost use Rattle.doc.specs.Mapping.{MappingData};
ghost use Rattle.replica.specs.Copy.{Copy};
ghost use Rattle.master.specs.declared.state.State.{State};
ghost use Rattle.world.specs.declared.event.Event.{Event};
ghost use Rattle.world.specs.World.{copy_in, new_world, world_of, World};
ghost use Rattle.world.specs.Held.{Held};
ghost use Rattle.audit.specs.declared.fault.AuditFault.TheVariants.{Uncaused};
ghost use Rattle.journal.specs.declared.journal.Deed.{Deed};
ghost use Rattle.journal.specs.declared.journal.Journal.{Journal};
ghost use Rattle.journal.specs.declared.journal.Journal.TheVariants.{OfMaster, OfCopy};
ghost use Rattle.journal.specs.declared.journal.Ruling.{Ruling};
ghost use Rattle.journal.specs.Journal.{open_at, after};
ghost use Rattle.journal.specs.Rulings.{ruler_after};
ghost use Rattle.audit.specs.Audit.{placed_in, IsAudited, IsDiffering, IsMadeOf, IsMissing, IsSize, IsUncaused, Pass};
ghost use Rattle.audit.specs.Given.{AreAll};
ghost use Rattle.journal.specs.Lawful.{begins_open};
ghost use Rattle.audit.specs.Merge.{HaltsAt, IsMerged};
ghost use Rattle.audit.specs.Rows.{Row_audit};

/// Of journals for which an audit answers that one differs or is missing, or that a move isn't caused, no list of events is made; and the node and
/// the place of a move that isn't caused are one.
pub fn refused_journals_are_of_no_run()
    ensures differs { (mapping : MappingData) (js : List Journal) (node place : ℕ) → IsDiffering mapping js node place → (n : ℕ) (es : List Event) → IsMadeOf mapping n js es → ⊥ }
    ensures missing { (mapping : MappingData) (js : List Journal) (node place : ℕ) → IsMissing mapping js node place → (n : ℕ) (es : List Event) → IsMadeOf mapping n js es → ⊥ }
    ensures uncaused { (mapping : MappingData) (js : List Journal) (node place : ℕ) → IsUncaused mapping js node place → (n : ℕ) (es : List Event) → IsMadeOf mapping n js es → ⊥ }
    ensures one_place { (mapping : MappingData) (js : List Journal) (node place other at : ℕ) → IsUncaused mapping js node place → IsUncaused mapping js other at → (node ≡ other) × (place ≡ at) }
{}

/// Of events that are made of journals, each acknowledged operation is in every in-sync copy.
pub fn an_audited_run_is_held()
    ensures { (mapping : MappingData) (n : ℕ) (js : List Journal) (es : List Event) → IsMadeOf mapping n js es → Held (world_of mapping n es) }
{
    world::laws::what_is_acknowledged_is_held();
}

/// Of events that are made of journals, the copies and the master are what their journals say.
pub fn nodes_are_what_journals_say()
    ensures copies { (mapping : MappingData) (n : ℕ) (js : List Journal) (es : List Event) → IsMadeOf mapping n js es → (i : ℕ) (c : Copy) (ds : List Deed) (x : Copy) → slice_get js (suc i) ≡ Some (OfCopy c ds) → copy_in (world_of mapping n es).copies (suc i) ≡ Some x → x ≡ (after (open_at c) 0 ds).copy }
    ensures master { (mapping : MappingData) (n : ℕ) (js : List Journal) (es : List Event) → IsMadeOf mapping n js es → (s : State) (rs : List Ruling) → slice_get js 0 ≡ Some (OfMaster s rs) → (world_of mapping n es).master ≡ (ruler_after (begins_open s) rs).state }
{}

/// Where each node has a journal, and they begin as the nodes of a new index do and are legal, the merge of their moves gives what an audit of them answers.
pub fn a_merge_of_moves_audits()
    ensures made { (mapping : MappingData) (n : ℕ) (js : List Journal) (w : World) → IsSize n → Pass mapping n js → AreAll js → IsMerged (new_world mapping n) (map placed_in js) w → IsAudited mapping js (Ok w) }
    ensures halted { (mapping : MappingData) (n : ℕ) (js : List Journal) (node place : ℕ) → IsSize n → Pass mapping n js → AreAll js → HaltsAt (new_world mapping n) (map placed_in js) node place → IsAudited mapping js (Err (Uncaused node place)) }
{}

/// The worked rows: a run of two copies, that run without the last entry, with another document in a message, and with another answer.
pub fn rows()
    ensures { Row_audit }
{}
