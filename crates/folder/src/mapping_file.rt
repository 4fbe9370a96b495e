//! Files of mappings.
ghost use Rattle.std.specs.Prelude.{◌≡◌, ◌⊎◌, Some, codes, string_bytes, option_and_then, IfOk, IfSome};
ghost use Rattle.serde_json.specs.Find.{get};
ghost use Rattle.serde_json.specs.Read.{read};
ghost use Rattle.serde_json.specs.View.{view};

use doc::{DocFault, Mapping};
use serde_json::Value;
use std::alloc::{AllocError, Global};

/// A mapping that was handed in or kept: its text, and what that is as JSON.
#[derive(Drop)]
pub struct MappingFile {
    pub text: String,
    pub value: Value,
}

/// Why a text isn't that of a mapping.
#[derive(Debug, Drop)]
pub enum MappingFault {
    NotJson(serde_json::Error),
    Mapping(DocFault),
    NoMemory,
}

impl From<AllocError> for MappingFault {
    fn from(_refused: AllocError) -> MappingFault {
        MappingFault::NoMemory
    }
}

impl From<DocFault> for MappingFault {
    fn from(fault: DocFault) -> MappingFault {
        match fault {
            DocFault::NoMemory => MappingFault::NoMemory,
            fault => MappingFault::Mapping(fault),
        }
    }
}

impl MappingFile {
    /// The mapping of a text. Of the form `{"mappings":{..}}` it is the mapping inside, with a text on one line.
    pub fn read(alloc: Global, text: String) -> Result<MappingFile, MappingFault>
        ensures { IfOk result (λ m. (read (string_bytes text) ≡ Some (view m.value))
            ⊎ (option_and_then (get (codes "mappings")) (read (string_bytes text)) ≡ Some (view m.value))) }
    {
        let value = value_of(alloc, text.as_str())?;
        drop(Mapping::from_value(alloc, &value)?);
        let Some(inside) = inside(&value) else {
            return Ok(MappingFile { text, value });
        };
        Ok(MappingFile {
            text: inside.to_string(alloc)?,
            value: inside.clone()?,
        })
    }
}

fn value_of(alloc: Global, text: &str) -> Result<Value, MappingFault>
    ensures { IfOk result (λ v. read text.now ≡ Some (view v)) }
{
    match Value::from_str(alloc, text) {
        Ok(value) => Ok(value),
        Err(error) => if error.is_memory() {
            Err(MappingFault::NoMemory)
        } else {
            Err(MappingFault::NotJson(error))
        },
    }
}

/// What stands under the one key `mappings`.
fn inside(value: &Value) -> Option<&Value>
    ensures { IfSome result (λ v. get (codes "mappings") (view value.now) ≡ Some (view v.now)) }
{
    match value {
        Value::Object(members) if members.len() == 1 => value.get("mappings"),
        _ => None,
    }
}
