//! The end of a server in order, when its standard input ends.

use std::alloc::Global;
use std::fs::File;
use std::io::Read;
use std::rt::Files;
use std::sync::Arc;
use std::sync::atomic::{AtomicBool, Ordering};
use std::thread::Threads;
use std::{io, thread};

/// The path by which a program sees its own standard input (Linux).
const STANDARD_INPUT: &str = "/proc/self/fd/0";

/// Whether standard input has ended. If nobody wants to know, nothing is read of it.
#[derive(Drop)]
pub struct InputEnd {
    is_there: Arc<AtomicBool, Global>,
}

impl InputEnd {
    /// A thread of its own waits for the end, if that is wanted.
    pub(crate) fn watched<R: Files<File = File> + AllocGlobal + Threads>(
        rt: &R,
        is_wanted: bool,
    ) -> io::Result<InputEnd> {
        let is_there = Arc::new(rt.alloc(), AtomicBool::new(false))?;
        if is_wanted {
            let input = File::open(rt, STANDARD_INPUT)?;
            let told = Arc::try_clone(&is_there)?;
            let _watch = thread::spawn(rt, move || wait_for_end(input, told))?;
        }
        Ok(InputEnd { is_there })
    }

    pub(crate) fn is_there(&self) -> bool {
        self.is_there.load(Ordering::SeqCst)
    }
}

/// Reads on until nothing comes any more.
fn wait_for_end(input: File, is_there: Arc<AtomicBool, Global>) {
    let mut input = input;
    let mut room = [0u8; 512];
    for _ in 0..u64::MAX {
        match input.read(&mut room) {
            Ok(0) | Err(_) => break,
            Ok(_) => {}
        }
    }
    is_there.store(true, Ordering::SeqCst);
}
