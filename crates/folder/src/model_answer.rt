//! What the model answers to what an entry of a journal was asked.

use doc::Mapping;
use journal::{Deed, Journal, Ruling};
use journals::{copies_of, copy_answer_value, master_answer_value};
use master::Master;
use replica::{Birth, Copy};
use serde_json::Value;
use std::alloc::{AllocError, Global};
use translog::MemDevice;

/// The model's answer at a place of a node's journal. None where a log failed before it, or where the entries before it aren't the model's.
pub fn model_answer(
    alloc: Global,
    mapping: &Mapping,
    journals: &[Journal],
    node: usize,
    place: usize,
) -> Result<Option<Value>, AllocError> {
    let Ok(copies) = copies_of(journals) else {
        return Ok(None);
    };
    match journals.get(node) {
        Some(Journal::OfMaster(_, rulings)) => { ruled(alloc, copies, rulings.as_slice(), place) }
        Some(Journal::OfCopy(_, deeds)) => {
            let Some(mut copy) = new_copy(alloc, mapping, copies, node)? else {
                return Ok(None);
            };
            let answer = answered(alloc, &mut copy, deeds.as_slice(), place);
            drop(copy);
            answer
        }
        None => Ok(None),
    }
}

/// A copy as it is when its id is given; none where it isn't to be had.
fn new_copy(
    alloc: Global,
    mapping: &Mapping,
    copies: u32,
    node: usize,
) -> Result<Option<Copy<MemDevice>>, AllocError> {
    let Ok(id) = u32::try_from(node) else {
        return Ok(None);
    };
    let mapping = mapping.copy(alloc)?;
    let device = MemDevice::new(Vec::new(alloc));
    let opened = if id <= copies && copies > 0 {
        Copy::begin(alloc, id, copies, mapping, device)
    } else {
        Copy::open(alloc, id, Birth::Added, mapping, device)
    };
    Ok(opened.ok())
}

/// What a copy that is new answers at a place of its journal.
fn answered(
    alloc: Global,
    copy: &mut Copy<MemDevice>,
    deeds: &[Deed],
    place: usize,
) -> Result<Option<Value>, AllocError> {
    let Some(asked) = deeds.get(place) else {
        return Ok(None);
    };
    for deed in deeds.iter().take(place) {
        if !is_played(alloc, copy, deed)? {
            return Ok(None);
        }
    }
    let answer = copy.step(alloc, asked.input.copy(alloc)?);
    let value = copy_answer_value(alloc, &answer);
    drop(answer);
    Ok(Some(value?))
}

/// Has the copy do what an entry says that it did. What was refused changed nothing, but for a fault of the log.
fn is_played(alloc: Global, copy: &mut Copy<MemDevice>, deed: &Deed) -> Result<bool, AllocError> {
    match &deed.answer {
        Ok(_) => Ok(copy.step(alloc, deed.input.copy(alloc)?).is_ok()),
        Err(fault) => Ok(!fault.is_log()),
    }
}

/// What the master answers at a place of its journal.
fn ruled(
    alloc: Global,
    copies: u32,
    rulings: &[Ruling],
    place: usize,
) -> Result<Option<Value>, AllocError> {
    if copies < 1 || copies > 5 {
        return Ok(None);
    }
    match Master::begin(alloc, copies as u8, MemDevice::new(Vec::new(alloc))) {
        Ok(mut master) => {
            let answer = ruled_by(alloc, &mut master, rulings, place);
            drop(master);
            answer
        }
        Err(_) => Ok(None),
    }
}

/// What a master that is new answers at a place of its journal.
fn ruled_by(
    alloc: Global,
    master: &mut Master<MemDevice>,
    rulings: &[Ruling],
    place: usize,
) -> Result<Option<Value>, AllocError> {
    let Some(asked) = rulings.get(place) else {
        return Ok(None);
    };
    for ruling in rulings.iter().take(place) {
        if ruling.answer.is_ok() && master.step(alloc, ruling.request).is_err() {
            return Ok(None);
        }
    }
    let answer = master.step(alloc, asked.request);
    let value = master_answer_value(alloc, &answer);
    drop(answer);
    Ok(Some(value?))
}
