//! Who may ask, as the command line says it.

use crate::fault::ServeFault;
use front::Admission;
use reasons::escaped;
use std::alloc::Global;

/// Whether requests can name these origins and names.
pub(crate) fn check_admission(alloc: Global, admission: &Admission) -> Result<(), ServeFault> {
    if let Some(text) = admission.origins.iter().find(|it| !is_origin(it)) {
        return Err(ServeFault::Origin(escaped(alloc, text)?));
    }
    if let Some(text) = admission.names.iter().find(|it| !is_host_name(it)) {
        return Err(ServeFault::HostName(escaped(alloc, text)?));
    }
    Ok(())
}

/// Whether a text is an origin as browsers send it (RFC 6454, section 6.2), or stands for all of them.
fn is_origin(text: &str) -> bool {
    match text.split_once("://") {
        Some((scheme, authority)) => is_scheme(scheme) && is_authority(authority),
        None => text == "*" || text == "null",
    }
}

fn is_scheme(text: &str) -> bool {
    !text.is_empty()
        && text.bytes().all(|byte| {
            byte.is_ascii_lowercase() || byte.is_ascii_digit() || matches!(byte, b'+' | b'-' | b'.')
        })
}

/// Whether a text is a host, or one and its port.
fn is_authority(text: &str) -> bool {
    !text.is_empty()
        && text.bytes().all(|byte| {
            byte.is_ascii_graphic()
                && !byte.is_ascii_uppercase()
                && !matches!(byte, b'/' | b'?' | b'#' | b'@' | b'*')
        })
}

fn is_host_name(text: &str) -> bool {
    !text.is_empty()
        && text.bytes().all(|byte| byte.is_ascii_alphanumeric()
            || matches!(byte, b'-' | b'.' | b'_'))
}
