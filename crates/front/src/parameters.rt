//! The parameters of a request, as a query string has them.
ghost use Rattle.std.specs.Prelude.{◌≡◌};
ghost use Rattle.doc.specs.Outcome.{Gives};
ghost use Rattle.front.specs.Fault.{fault_of};
ghost use Rattle.front.specs.Target as spec;

use crate::request_fault::RequestFault;
use crate::target::Parameters;
use form_urlencoded::parse;
use std::alloc::Global;
use wire::number_of;

fn refresh_of(value: &str) -> Option<bool>
    ensures { result ≡ spec.refresh_of value.now }
{
    if value.is_empty() || value == "true" {
        Some(true)
    } else if value == "false" {
        Some(false)
    } else {
        None
    }
}

fn create_of(value: &str) -> Option<bool>
    ensures { result ≡ spec.create_of value.now }
{
    match value {
        "create" => Some(true),
        "index" => Some(false),
        _ => None,
    }
}

fn once_flag(old: Option<bool>, new: Option<bool>) -> Result<Option<bool>, RequestFault>
    ensures { Gives fault_of (λ x. x) result (spec.once old new) }
{
    if old.is_some() || new.is_none() {
        return Err(RequestFault::BadParameter);
    }
    Ok(new)
}

fn once_number(old: Option<u64>, new: Option<u64>) -> Result<Option<u64>, RequestFault>
    ensures { Gives fault_of (λ x. x) result (spec.once old new) }
{
    if old.is_some() || new.is_none() {
        return Err(RequestFault::BadParameter);
    }
    Ok(new)
}

/// The parameters with one more.
pub(crate) fn with_parameter(
    parameters: Parameters,
    name: &str,
    value: &str,
) -> Result<Parameters, RequestFault>
    ensures { Gives fault_of (λ q. q) result (spec.with_parameter parameters name.now value.now) }
{
    match name {
        "pretty" => {
            let pretty = once_flag(parameters.pretty, Some(true))?;
            Ok(Parameters {
                pretty,
                ..parameters
            })
        }
        "refresh" => {
            let refresh = once_flag(parameters.refresh, refresh_of(value))?;
            Ok(Parameters {
                refresh,
                ..parameters
            })
        }
        "op_type" => {
            let create = once_flag(parameters.create, create_of(value))?;
            Ok(Parameters {
                create,
                ..parameters
            })
        }
        _ => with_number(parameters, name, number_of(value)),
    }
}

fn with_number(
    parameters: Parameters,
    name: &str,
    number: Option<u64>,
) -> Result<Parameters, RequestFault>
    ensures { Gives fault_of (λ q. q) result (spec.with_number parameters name.now number) }
{
    match name {
        "if_seq_no" => {
            let seq = once_number(parameters.seq, number)?;
            Ok(Parameters { seq, ..parameters })
        }
        "if_primary_term" => {
            let term = once_number(parameters.term, number)?;
            Ok(Parameters { term, ..parameters })
        }
        "size" => {
            let size = once_number(parameters.size, number)?;
            Ok(Parameters { size, ..parameters })
        }
        "from" => {
            let from = once_number(parameters.from, number)?;
            Ok(Parameters { from, ..parameters })
        }
        _ => Err(RequestFault::BadParameter),
    }
}

/// No parameter.
pub(crate) const NONE: Parameters = Parameters {
    pretty: None,
    refresh: None,
    create: None,
    seq: None,
    term: None,
    size: None,
    from: None,
};

/// Whether there is a parameter of this name.
pub(crate) fn is_known(name: &str) -> bool {
    matches!(
        name,
        "pretty" | "refresh" | "op_type" | "if_seq_no" | "if_primary_term" | "size" | "from"
    )
}

/// The parameters of a query string. An unknown parameter, one that comes twice and a bad value are `BadParameter`.
pub(crate) fn parameters_of(alloc: Global, text: &[u8]) -> Result<Parameters, RequestFault>
    ensures { Gives fault_of (λ p. p) result (spec.parameters_of text.now) }
{
    let mut found = NONE;
    for pair in parse(alloc, text) {
        let (name, value) = pair?;
        let next = with_parameter(found, &name, &value);
        drop(name);
        drop(value);
        found = next?;
    }
    Ok(found)
}
