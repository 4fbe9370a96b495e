//! Why a line can't be read.
ghost use Rattle.std.specs.Prelude.{◌≡◌, IfOk, Ok};

use std::alloc::{AllocError, AllocFailed};

/// Why a line can't be read.
#[derive(Debug, Drop)]
pub(crate) enum Wrong {
    NoMemory,
    /// What is wanted.
    Wanted(&'static str),
}

/// What was read, with what was to be read after it. Where that can't be read, the first is dropped.
pub(crate) fn both<T: Drop, U>(first: T, second: Result<U, Wrong>) -> Result<(T, U), Wrong>
    ensures { IfOk result (λ both. (both.0 ≡ first) × (second ≡ Ok both.1)) }
{
    match second {
        Ok(second) => Ok((first, second)),
        Err(wrong) => {
            drop(first);
            Err(wrong)
        }
    }
}

impl From<AllocError> for Wrong {
    ghost use Rattle.std.specs.Prelude.{◌≡◌};
    ghost use Rattle.journals.specs.declared.reading.wrong.Wrong.TheVariants.{NoMemory};

    ghost from_gives = { λ _ e. e ≡ NoMemory };

    fn from(_refused: AllocError) -> Wrong {
        Wrong::NoMemory
    }
}

impl<T: Drop> From<AllocFailed<T>> for Wrong {
    ghost use Rattle.std.specs.Prelude.{◌≡◌};
    ghost use Rattle.journals.specs.declared.reading.wrong.Wrong.TheVariants.{NoMemory};

    ghost from_gives = { λ _ e. e ≡ NoMemory };

    fn from(_refused: AllocFailed<T>) -> Wrong {
        Wrong::NoMemory
    }
}
