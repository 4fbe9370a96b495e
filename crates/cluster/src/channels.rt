//! Sending to those who may be gone.

use crossbeam_channel::Sender;
use std::alloc::Global;
use std::sync::Wait;

/// Sends something, and says whether it is on its way. Nothing but that depends on its type, so this is proved once for all.
pub(crate) fn sent<R: Wait, T: Drop>(rt: &R, to: &Sender<T, Global>, item: T) -> bool {
    to.send(rt, item).is_ok()
}

/// Sends something to one who is sent nothing more.
pub(crate) fn give<R: Wait, T: Drop>(rt: &R, to: Sender<T, Global>, item: T) {
    sent(rt, &to, item);
}
