//! Journals as text: the first line says whose it is, and each further one is an entry.
mod answered;
mod asked;
pub mod entries;
mod items;

use crate::heading::{HeadFault, copies_of};
use crate::writing::entries::{deed_value, head_value, ruling_value};
use journal::Journal;
use serde_json::Value;
use std::alloc::{AllocError, Global};

/// The text of each journal of a new index, the master's first. `mapping` is the JSON of the index's mapping. Refused where a journal doesn't
/// begin as that of its node of a new index.
pub fn write(
    alloc: Global,
    mapping: &Value,
    journals: &[Journal],
) -> Result<Vec<String>, HeadFault> {
    let copies = copies_of(journals)?;
    let mut texts = Vec::new(alloc);
    let mut node: u32 = 0;
    for journal in journals {
        if !is_born(journal, copies, node) {
            return Err(HeadFault::NotNew(node));
        }
        texts.push(text_of(alloc, mapping, copies, node, journal)?)?;
        node = node.saturating_add(1);
    }
    Ok(texts)
}

/// Whether the journal of a node begins as in a new index.
fn is_born(journal: &Journal, copies: u32, node: u32) -> bool {
    match journal {
        Journal::OfMaster(state, _) => {
            node == 0 && state.term == 1 && state.primary == 1 && state.gone.len() == 0
        }
        Journal::OfCopy(opening, _) => node != 0 && opening.is_born(copies, node),
    }
}

fn text_of(
    alloc: Global,
    mapping: &Value,
    copies: u32,
    node: u32,
    journal: &Journal,
) -> Result<String, AllocError> {
    let mut text = String::new(alloc);
    add_line(alloc, &mut text, &head_value(alloc, mapping, copies, node)?)?;
    match journal {
        Journal::OfMaster(_, rulings) => {
            for ruling in rulings.as_slice() {
                add_line(alloc, &mut text, &ruling_value(alloc, ruling)?)?;
            }
        }
        Journal::OfCopy(_, deeds) => {
            for deed in deeds.as_slice() {
                add_line(alloc, &mut text, &deed_value(alloc, deed)?)?;
            }
        }
    }
    Ok(text)
}

fn add_line(alloc: Global, text: &mut String, value: &Value) -> Result<(), AllocError> {
    let line = value.to_string(alloc)?;
    text.push_str(line.as_str())?;
    text.push_str("\n")
}
