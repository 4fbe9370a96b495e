//! Dumps that are written as numbered files.
ghost use Rattle.std.specs.Prelude.{◌≡◌, ◌≤◌, ◌+◌, ◌⊎◌, ◌++◌, [], length, IsTrue, IfOk};
ghost use Rattle.std.specs.Option.{option_map_or};

use crate::dumping::{DumpFault, write_operation};
use engine::Engine;
use std::alloc::AllocError;
use std::fs::File;
use std::io::Write;
use std::rt::Files;
use std::{fs, io, mem};

/// The numbered files that a dump is written to.
#[derive(Clone, Copy)]
pub struct Parts<'a> {
    /// Their folder, which is new or empty.
    pub folder: &'a str,
    /// How many bytes each of them has at most; one document that has more stands alone.
    pub bytes: u64,
}

/// Writes the documents of an engine to parts, none of which cuts the two lines of a document apart.
pub(crate) fn write_parts<R, E>(
    rt: &R,
    engine: &Engine,
    parts: Parts<'_>,
    errors: &mut E,
) -> Result<(), DumpFault>
where
    R: Files<File = File> + AllocGlobal + Clone + Drop,
    E: Write,
{
    let alloc = rt.alloc();
    make_empty(rt, parts.folder)?;
    let mut number: u64 = 1;
    let mut part = Vec::new(alloc);
    for op in &engine.last_ops(alloc)? {
        let mut lines = Vec::new(alloc);
        write_operation(alloc, engine, op, &mut lines)?;
        if let Some(full) = filled(&mut part, lines, parts.bytes)? {
            write_part(rt, parts, number, &full, errors)?;
            number = number.saturating_add(1);
        }
    }
    if !part.is_empty() {
        write_part(rt, parts, number, &part, errors)?;
    }
    Ok(())
}

/// Puts the lines of a document behind those of a part. Where there is no room for them the part is full and is handed out, and they begin the next one.
fn filled(part: &mut Vec<u8>, lines: Vec<u8>, most: u64) -> Result<Option<Vec<u8>>, AllocError>
    ensures nothing_lost { IfOk result (λ full. option_map_or (λ f. f.items) full [] ++ part.new.items ≡ part.old.items ++ lines.items) }
    ensures small { IfOk result (λ full. (length part.new.items ≤ most) ⊎ (part.new.items ≡ lines.items)) }
{
    if part.is_empty() || has_room(part, &lines, most) {
        part.extend_from_slice(&lines)?;
        return Ok(None);
    }
    Ok(Some(mem::replace(part, lines)))
}

/// Whether lines fit behind those of a part.
fn has_room(part: &[u8], lines: &[u8], most: u64) -> bool
    ensures { IsTrue result → length part.now + length lines.now ≤ most }
{
    let room = most.saturating_sub(part.len() as u64);
    lines.len() as u64 <= room && part.len() as u64 <= most
}

/// Makes a folder, or finds that it is empty.
fn make_empty<R>(rt: &R, folder: &str) -> Result<(), DumpFault>
where
    R: Files + AllocGlobal + Clone + Drop,
{
    let made = match fs::exists(rt, folder) {
        Ok(true) => first_name(rt, folder),
        Ok(false) => fs::create_dir(rt, folder).map(|()| None),
        Err(error) => Err(error),
    };
    let name = String::from_str(rt.alloc(), folder)?;
    match made {
        Ok(None) => Ok(()),
        Ok(Some(found)) => Err(DumpFault::NotEmpty(name, found)),
        Err(error) => Err(DumpFault::Folder(name, error)),
    }
}

/// A name in a folder, none where it is empty.
fn first_name<R>(rt: &R, folder: &str) -> io::Result<Option<String>>
where
    R: Files + AllocGlobal + Clone + Drop,
{
    match fs::read_dir(rt, folder)?.next() {
        Some(Ok(entry)) => Ok(Some(String::from_str(rt.alloc(), entry.file_name())?)),
        Some(Err(error)) => Err(error),
        None => Ok(None),
    }
}

/// Writes a part, and says so where it is one document that has more bytes than a part.
fn write_part<R, E>(
    rt: &R,
    parts: Parts<'_>,
    number: u64,
    part: &[u8],
    errors: &mut E,
) -> Result<(), DumpFault>
where
    R: Files<File = File> + AllocGlobal,
    E: Write,
{
    let Parts { folder, bytes } = parts;
    let path = format!(in rt.alloc(); "{folder}/part-{number:06}.ndjson")?;
    let length = part.len() as u64;
    if length > bytes {
        let _ = writeln!(
            errors,
            "indexd: {path}: its one document takes {length} bytes, more than the {bytes} of --bytes"
        );
    }
    match write_file(rt, path.as_str(), part) {
        Ok(()) => Ok(()),
        Err(error) => Err(DumpFault::Part(path, error)),
    }
}

fn write_file<R: Files<File = File>>(rt: &R, path: &str, bytes: &[u8]) -> io::Result<()> {
    let mut file = fs::create(rt, path)?;
    file.write_all(bytes)
}
