//! What a worker passes before each of its steps.

/// A place where the program may hold a worker back: it is passed before each step of a copy's worker.
pub trait Gate: Drop {
    fn pass(&self, copy: u32);
}

/// A gate that holds nobody.
#[derive(Drop)]
pub struct Open;

impl Gate for Open {
    fn pass(&self, _copy: u32) {}
}
