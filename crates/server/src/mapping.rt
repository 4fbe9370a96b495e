//! The mapping that an index is served with.

use crate::fault::{ServeFault, refused};
use doc::Mapping;
use folder::MappingFile;
use seed::Seed;
use serde_json::Value;
use shard::Shard;
use std::alloc::Global;
use std::fs;
use std::io::Read;
use std::random::RandomSource;
use std::rt::Files;
use translog::MemDevice;

/// The greatest mapping file that is read, in bytes.
const MAX_MAPPING: u64 = 1_048_576;

/// The mapping of a file, where one is named; it is one that an index may have.
pub(crate) fn mapping_of<R: Files + AllocGlobal>(
    rt: &R,
    file: Option<&str>,
) -> Result<Option<MappingFile>, ServeFault> {
    let Some(file) = file else {
        return Ok(None);
    };
    let text = text_of(rt, file)?;
    Ok(Some(MappingFile::read(rt.alloc(), text)?))
}

fn json_of(alloc: Global, text: &str) -> Result<Value, ServeFault> {
    match Value::from_str(alloc, text) {
        Ok(value) => Ok(value),
        Err(error) => if error.is_memory() {
            Err(ServeFault::NoMemory)
        } else {
            Err(ServeFault::NotJson(error))
        },
    }
}

fn text_of<R: Files + AllocGlobal>(rt: &R, file: &str) -> Result<String, ServeFault> {
    let opened = fs::open(rt, file).map_err(ServeFault::Unread)?;
    let mut text = String::new(rt.alloc());
    let length = opened
        .take(MAX_MAPPING + 1)
        .read_to_string(&mut text)
        .map_err(ServeFault::Unread)?;
    if length as u64 > MAX_MAPPING {
        return Err(ServeFault::TooLarge);
    }
    Ok(text)
}

/// The mapping of a new index: that of a file, or an empty one. Hash tables of the index begin with a seed that nobody knows.
pub(crate) fn fields_of<R: RandomSource + AllocGlobal>(
    rt: &R,
    mapping: Option<&MappingFile>,
) -> Result<Mapping, ServeFault> {
    let seed = Seed::random(rt).map_err(ServeFault::Seed)?;
    Ok(unseeded_fields(rt.alloc(), mapping)?.seeded(seed))
}

fn unseeded_fields(alloc: Global, mapping: Option<&MappingFile>) -> Result<Mapping, ServeFault> {
    match mapping {
        Some(mapping) => fields_in(alloc, &mapping.value),
        None => {
            let empty = json_of(alloc, "{}")?;
            let fields = fields_in(alloc, &empty);
            drop(empty);
            fields
        }
    }
}

fn fields_in(alloc: Global, value: &Value) -> Result<Mapping, ServeFault> {
    Mapping::from_value(alloc, value).map_err(refused)
}

/// A new index in memory under a mapping, or under an empty one.
pub(crate) fn in_memory<R: RandomSource + AllocGlobal>(
    rt: &R,
    name: &str,
    mapping: Option<&MappingFile>,
) -> Result<Shard<MemDevice>, ServeFault> {
    let alloc = rt.alloc();
    let seed = Seed::random(rt).map_err(ServeFault::Seed)?;
    match mapping {
        Some(mapping) => begun(alloc, name, &mapping.value, seed),
        None => {
            let empty = json_of(alloc, "{}")?;
            let shard = begun(alloc, name, &empty, seed);
            drop(empty);
            shard
        }
    }
}

fn begun(
    alloc: Global,
    name: &str,
    value: &Value,
    seed: Seed,
) -> Result<Shard<MemDevice>, ServeFault> {
    let name = String::from_str(alloc, name)?;
    Shard::new(alloc, name, value, seed).map_err(refused)
}
