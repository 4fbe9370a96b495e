//! The file that refused lines are written to.

use crate::fault::LoadFault;
use crate::item::Refusal;
use reasons::escaped;
use serde_json::Value;
use std::alloc::{AllocError, Global};
use std::fs;
use std::fs::File;
use std::io::{ErrorKind, Write};
use std::rt::Files;

/// The file, which is there while documents are loaded.
#[derive(Drop)]
pub(crate) struct Refusals<'a> {
    path: &'a str,
    file: File,
    /// Whether the load made it.
    is_made: bool,
    pub(crate) count: u64,
}

impl<'a> Refusals<'a> {
    /// Makes the file, or opens one that is empty.
    pub(crate) fn new<R: Files<File = File> + AllocGlobal>(
        rt: &R,
        path: &'a str,
    ) -> Result<Refusals<'a>, LoadFault> {
        let name = escaped(rt.alloc(), path)?;
        let is_made = match fs::metadata(rt, path) {
            Ok(found) if found.len() > 0 => return Err(LoadFault::Taken(name)),
            Ok(_) => false,
            Err(error) => error.kind() == ErrorKind::NotFound,
        };
        match fs::create(rt, path) {
            Ok(file) => Ok(Refusals {
                path,
                file,
                is_made,
                count: 0,
            }),
            Err(error) => Err(LoadFault::Refused(name, error)),
        }
    }

    pub(crate) fn write(&mut self, alloc: Global, refusal: &Refusal<'_>) -> Result<(), LoadFault> {
        let line = line_of(alloc, refusal)?;
        self.count = self.count.saturating_add(1);
        match self.file.write_all(line.as_bytes()) {
            Ok(()) => Ok(()),
            Err(error) => {
                let name = escaped(alloc, self.path)?;
                Err(LoadFault::Refused(name, error))
            }
        }
    }

    /// Removes the file, if the load made it and nothing was refused.
    pub(crate) fn close<R: Files>(self, rt: &R) {
        if self.is_made && self.count == 0 {
            let _ = fs::remove_file(rt, self.path);
        }
    }
}

fn line_of(alloc: Global, refusal: &Refusal<'_>) -> Result<String, AllocError> {
    let file = quoted(alloc, refusal.place.file)?;
    let line = refusal.place.line;
    let reason = quoted(alloc, &refusal.reason)?;
    let text = quoted(alloc, &refusal.lines)?;
    format!(in alloc; "{{\"file\":{file},\"line\":{line},\"reason\":{reason},\"text\":{text}}}\n")
}

fn quoted(alloc: Global, text: &str) -> Result<String, AllocError> {
    Value::try_from_str(alloc, text)?.to_string(alloc)
}
