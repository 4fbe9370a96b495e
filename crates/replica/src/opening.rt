//! What records say of a copy.
ghost use Rattle.std.specs.Prelude.{◌≡◌, ◌<◌, ◌≤◌, ◌^◌, All, fold};
ghost use Rattle.op.specs.Records.{IsRecord};
ghost use Rattle.replica.specs.Copy as spec;

use crate::role::{Birth, Role};
use op::{Record, checkpoint};

/// The term of a copy with these records.
pub(crate) fn term_of(birth: Birth, records: &[Record]) -> u64
    requires { All IsRecord records.now }
    ensures value { result ≡ fold spec.term_after (spec.first_term birth) records.now }
    ensures small { result < 2 ^ 63 }
{
    let mut term = first_term(birth);
    for kept in records {
        term = term_after(term, kept);
    }
    term
}

fn first_term(birth: Birth) -> u64
    ensures { result ≡ spec.first_term birth }
{
    match birth {
        Birth::First => 1,
        Birth::Added => 0,
    }
}

/// The term that a record gives, over the one before.
fn term_after(term: u64, kept: &Record) -> u64
    requires is { IsRecord kept.now }
    requires small { term < 2 ^ 63 }
    ensures value { result ≡ spec.term_after term kept.now }
    ensures small { result < 2 ^ 63 }
{
    match kept {
        Record::Op(_, _) => term,
        Record::Resync(new, _, _) => term.max(*new),
        Record::Recover(new, _) => term.max(*new),
    }
}

/// How many operations are known to be everywhere, by these records.
pub(crate) fn known_of(records: &[Record]) -> u64
    ensures value { result ≡ fold spec.known_after 0 records.now }
    ensures small { result ≤ 2 ^ 63 }
{
    let mut known = 0;
    for kept in records {
        known = known_after(known, kept);
    }
    known
}

/// The checkpoint that a record gives, over the one before.
fn known_after(known: u64, kept: &Record) -> u64
    requires { known ≤ 2 ^ 63 }
    ensures value { result ≡ spec.known_after known kept.now }
    ensures small { result ≤ 2 ^ 63 }
{
    match kept {
        Record::Op(new, _) => known.max(checkpoint::count(*new)),
        Record::Resync(_, new, _) => known.max(checkpoint::count(*new)),
        Record::Recover(_, _) => known,
    }
}

/// What a copy with these records does until it hears of more.
pub(crate) fn opened_role(birth: Birth, records: &[Record]) -> Role
    ensures { result ≡ spec.opened_role birth records.now }
{
    match birth {
        Birth::First => Role::Replica,
        Birth::Added => match records {
            [] => Role::Empty,
            [..] => Role::Replica,
        },
    }
}
