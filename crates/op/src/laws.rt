//! Laws of operations and documents. The functions do nothing: each has a law as its contract.

ghost use Rattle.std.specs.Prelude.{◌≡◌, ◌≢◌, ℕ, ◌<◌, Bool, true, not, ◌&&◌, ◌↔◌, ◌^◌, List, None, Ok, length, is_some, IsTrue, if◌then◌else◌};
ghost use Rattle.std.specs.FinMap.Entries.{is_sorted};
ghost use Rattle.std.specs.List.{AllByRecursion};
ghost use Rattle.doc.specs.Id.{Id, id_cmp};
ghost use Rattle.op.specs.declared.operation.Op.{Op};
ghost use Rattle.op.specs.declared.record.Record.{Record};
ghost use Rattle.op.specs.Operations.{IsAscending, op_at, add, is_on, is_newer, last_on, local_count};
ghost use Rattle.op.specs.Documents.{document_at, document_of, documents, left_by};
ghost use Rattle.op.specs.Records.{AreOfOneFrame, IsGroup, IsRecord};
ghost use Rattle.op.specs.Rules.{is_record};
ghost use Rattle.op.specs.Format.{AreBytes, frame_spelling, group_spelling, spelling, record_length, IsTyped};
ghost use Rattle.op.specs.Reading.{record_of, records_of};

/// The document at an id is what the last operation on it leaves.
pub fn last_operation_decides()
    ensures { (os : List Op) (id : Id) → document_at (documents os) id ≡ document_of (last_on os id) }
{}

/// Newer number wins: an operation at a free number changes the documents only at its id, and there only where no greater one is.
pub fn newer_number_wins()
    ensures { (os : List Op) (o : Op) (id : Id) → op_at os o.seq ≡ None → IsAscending os →
        document_at (documents (add os o)) id ≡ (if is_on id o && not (is_newer (last_on os id) o.seq) then left_by o o.body else document_at (documents os) id) }
{}

/// Two operations with different numbers may come in either order.
pub fn either_order()
    ensures { (os : List Op) (o p : Op) → o.seq ≢ p.seq → add (add os o) p ≡ add (add os p) o }
{}

/// Documents stand in byte order of their ids, no id twice.
pub fn documents_are_sorted()
    ensures { (os : List Op) → IsTrue (is_sorted id_cmp (documents os)) }
{}

/// Each number that the local checkpoint counts is there, and the next one isn't.
pub fn checkpoint_counts_what_is_there()
    ensures counted { (os : List Op) → IsAscending os → (n : ℕ) → n < local_count os → is_some (op_at os n) ≡ true }
    ensures no_more { (os : List Op) → IsAscending os → op_at os (local_count os) ≡ None }
{}

/// The test of the rules is yes exactly for a record that keeps them.
pub fn rules_are_tested()
    ensures { (r : Record) → IsTrue (is_record r) ↔ IsRecord r }
{}

/// What is read is spelt so, each byte of it, and keeps the rules: each record has one spelling.
pub fn read_is_spelt()
    ensures { (bytes : List ℕ) (r : Record) → AreBytes bytes → record_of bytes ≡ Ok r → (spelling r ≡ bytes) × IsRecord r × IsTyped r × (length bytes < 2 ^ 32) }
{}

/// What is spelt is read as the record that it was, where that keeps the rules.
pub fn spelt_is_read()
    ensures { (r : Record) → IsRecord r → IsTyped r → length (spelling r) < 2 ^ 32 → record_of (spelling r) ≡ Ok r }
{}

/// The length of a record's spelling.
pub fn length_of_a_spelling()
    ensures { (r : Record) → length (spelling r) ≡ record_length r }
{}

/// What is read of a frame is spelt so, each byte of it: one record that keeps the rules, or a group of them.
pub fn read_frame_is_spelt()
    ensures { (bytes : List ℕ) (rs : List Record) → AreBytes bytes → records_of bytes ≡ Ok rs → (frame_spelling rs ≡ bytes) × AreOfOneFrame rs × AllByRecursion IsTyped rs × (length bytes < 2 ^ 32) }
{}

/// What is spelt in one frame is read as the records that it was, where those keep the rules.
pub fn spelt_frame_is_read()
    ensures { (rs : List Record) → AreOfOneFrame rs → AllByRecursion IsTyped rs → length (frame_spelling rs) < 2 ^ 32 → records_of (frame_spelling rs) ≡ Ok rs }
{}

/// A group is never too large.
pub fn group_is_small()
    ensures { (rs : List Record) → IsGroup rs → AllByRecursion IsTyped rs → length (group_spelling rs) < 2 ^ 32 }
{}
