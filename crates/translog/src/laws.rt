//! Laws of translogs. The functions do nothing: each has a law as its contract.

ghost use Rattle.std.specs.Prelude.{◌≡◌, ◌⊎◌, ◌||◌, Bool, false, ℕ, List, ◌++◌, length, take, Ok};
ghost use Rattle.op.specs.declared.record.Record.{Record};
ghost use Rattle.translog.specs.Frames.{IsLog, LosesNothing};
ghost use Rattle.translog.specs.Kept.{frames_of, has_upgrade, kept, IsFirstLog, IsTranslog};
ghost use Rattle.translog.specs.Pieces.{own_header, some_records, IsSpeltPiece};

/// A translog of whole frames keeps the records that it was made of.
pub fn whole_frames_are_kept()
    ensures { (bytes : List ℕ) (rs : List Record) (groups : Bool) → IsTranslog bytes rs groups → kept bytes ≡ Ok rs }
{}

/// What was written in the first form, one record a frame, keeps its records.
pub fn the_first_form_is_kept()
    ensures { (bytes : List ℕ) (rs : List Record) → IsFirstLog bytes rs → IsTranslog bytes rs false }
{}

/// The frames that were added for some records, a group's with an upgrade before it where none may stand yet, are those records more.
pub fn records_more()
    ensures { (bytes : List ℕ) (rs : List Record) (groups : Bool) (new : List Record) → IsTranslog bytes rs groups → IsSpeltPiece (some_records new)
        → IsTranslog (bytes ++ frames_of groups new) (rs ++ new) (groups || has_upgrade (frames_of groups new)) }
{}

/// After an append that failed, the next opening gives the records without the new ones or with all of them.
pub fn torn_append()
    ensures { (bytes : List ℕ) (rs : List Record) (groups : Bool) (new : List Record) (k : ℕ) → IsTranslog bytes rs groups → IsSpeltPiece (some_records new)
        → (kept (bytes ++ take k (frames_of groups new)) ≡ Ok rs) ⊎ (kept (bytes ++ take k (frames_of groups new)) ≡ Ok (rs ++ new)) }
{}

/// What an opening leaves is a beginning of what was held, or of the header.
pub fn an_opening_leaves_a_beginning()
    ensures { (header old new : List ℕ) → LosesNothing header old new → ((rest : List ℕ) × (old ≡ new ++ rest)) ⊎ ((n : ℕ) × (new ≡ take n header)) }
{}

/// An opening leaves a log of whole frames as it is.
pub fn an_opening_leaves_whole_frames()
    ensures { (header old new : List ℕ) (contents : List (List ℕ)) → length header ≡ 4 → IsLog header old contents → LosesNothing header old new → new ≡ old }
{}

/// What an opening leaves keeps the same records, or is refused for the same fault.
pub fn an_opening_keeps_the_records()
    ensures { (old new : List ℕ) → LosesNothing (own_header old) old new → kept new ≡ kept old }
{}
