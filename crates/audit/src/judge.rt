//! The judging of a copy's journal.
ghost use Rattle.std.specs.Prelude.{◌≡◌, IfOk, IfErr};
ghost use Rattle.journal.specs.Journal.{Standing};
ghost use Rattle.audit.specs.Judge.{IsFollowed, IsRefused, IsJudged, IsMisjudged};

use journal::{Deed, Part, Placed};
use std::alloc::{AllocError, AllocFailed, Global};

/// Why a journal isn't judged legal: the place of an entry that isn't legal, or that memory ran out.
#[derive(Clone, Copy, Debug, PartialEq, Eq)]
pub enum Wrong {
    At(u64),
    NoMemory,
}

impl From<AllocError> for Wrong {
    ghost use Rattle.std.specs.Prelude.{◌≡◌};
    ghost use Rattle.audit.specs.declared.judge.Wrong.TheVariants.{NoMemory};

    ghost from_gives = { λ _ e. e ≡ NoMemory };

    fn from(_refused: AllocError) -> Wrong {
        Wrong::NoMemory
    }
}

impl<T: Drop> From<AllocFailed<T>> for Wrong {
    ghost use Rattle.std.specs.Prelude.{◌≡◌};
    ghost use Rattle.audit.specs.declared.judge.Wrong.TheVariants.{NoMemory};

    ghost from_gives = { λ _ e. e ≡ NoMemory };

    fn from(_refused: AllocFailed<T>) -> Wrong {
        Wrong::NoMemory
    }
}

/// A copy that follows its journal.
pub trait Follower: Drop {
    /// What the journal says of it so far.
    ghost standing: { Self → Standing };

    /// Judges the entry at a place, follows it, and says what the copy did.
    fn follow(&mut self, alloc: Global, place: u64, deed: &Deed) -> Result<Option<Placed>, Wrong>
        ensures ok { IfOk result (λ o. IsFollowed (standing self.old) (standing self.new) place deed.now o) }
        ensures err { IfErr result (λ e. IsRefused (standing self.old) place deed.now e) };
}

/// Judges entries in order: what the copy did, or the first that isn't legal.
pub fn judge<F: Follower>(alloc: Global, follower: &mut F, deeds: &[Deed]) -> Result<Part, Wrong>
    ensures ok { IfOk result (λ part. IsJudged (F.standing follower.old) deeds.now part) }
    ensures err { IfErr result (λ e. IsMisjudged (F.standing follower.old) deeds.now e) }
{
    let mut items = Vec::new(alloc);
    for place in 0..deeds.len() {
        match follower.follow(alloc, place as u64, &deeds[place]) {
            Ok(Some(placed)) => items.push(placed)?,
            Ok(None) => {}
            Err(wrong) => return Err(wrong),
        }
    }
    Ok(Part::from_vec(items))
}
