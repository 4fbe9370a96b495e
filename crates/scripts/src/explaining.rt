//! Why a line is refused, in words: what stands next to the name of the refusal for whoever wrote the line.

use crate::command::{Command, LineWrite, command_of};
use crate::index::Index;
use crate::refusal::Refusal;
use doc::{DocFault, DocId};
use engine::Last;
use master::MasterFault;
use query::QueryFault;
use reasons::{cut, document_reason, escaped};
use replica::CopyFault;
use serde_json::Value;
use std::alloc::{AllocError, Global};
use std::str;

/// The lines of a script, by their first word.
const FORMS: [(&str, &str); 20] = [
    ("open", "open COPIES MAPPING"),
    ("put", "put COPY ID JSON"),
    ("create", "create COPY ID JSON"),
    ("del", "del COPY ID"),
    ("putif", "putif COPY SEQ TERM ID JSON"),
    ("delif", "delif COPY SEQ TERM ID"),
    ("bulk", "bulk COPY ID ..` with 1 to 100 ids, as `bulk 1 a b"),
    ("get", "get COPY ID"),
    ("refresh", "refresh COPY"),
    ("restart", "restart COPY"),
    ("merge", "merge COPY"),
    ("swap", "swap COPY"),
    ("search", "search COPY JSON"),
    ("deliver", "deliver MESSAGE"),
    ("promote", "promote COPY"),
    ("allocate", "allocate"),
    ("fail", "fail COPY"),
    ("torn", "torn MESSAGE 0` or `torn MESSAGE 1"),
    (
        "tornput",
        "tornput COPY 0 ID JSON` or `tornput COPY 1 ID JSON",
    ),
    (
        "tornbulk",
        "tornbulk COPY 0 ID ..` or `tornbulk COPY 1 ID ..` with 1 to 100 ids, as `tornbulk 1 0 a b",
    ),
];

/// What is wrong with a line that was refused, in one line; the index is as it was before it.
pub(crate) fn reason(
    alloc: Global,
    refusal: &Refusal,
    line: &[u8],
    index: Option<&Index>,
) -> Result<String, AllocError> {
    let why = refused_for(alloc, refusal, line, index)?;
    escaped(alloc, &why)
}

fn refused_for(
    alloc: Global,
    refusal: &Refusal,
    line: &[u8],
    index: Option<&Index>,
) -> Result<String, AllocError> {
    match refusal {
        Refusal::BadLine => bad_line(alloc, line),
        Refusal::NotOpen => text(alloc, "no index is open yet; `open 1 MAPPING` comes first"),
        Refusal::AlreadyOpen => text(alloc, "an index is open already"),
        Refusal::BadCount => text(alloc, "an index begins with 1 to 5 copies"),
        Refusal::NoSuchCopy => text(alloc, "there is no such copy"),
        Refusal::NoSuchMessage => text(alloc, "no message has that number yet"),
        Refusal::Doc(fault) => doc_reason(alloc, fault, line, index),
        Refusal::Query(fault) => query_reason(alloc, fault, line),
        Refusal::Copy(fault) => copy_reason(alloc, fault, line, index),
        Refusal::Master(fault) => master_reason(alloc, fault, line),
        Refusal::NoMemory => text(alloc, "out of memory"),
    }
}

fn text(alloc: Global, words: &str) -> Result<String, AllocError> {
    String::from_str(alloc, words)
}

// ---- lines that can't be read

fn bad_line(alloc: Global, line: &[u8]) -> Result<String, AllocError> {
    if line.starts_with(&[0xef, 0xbb, 0xbf]) {
        return text(
            alloc,
            "the line begins with a byte order mark; save the file as UTF-8 without one",
        );
    }
    let read = match str::from_utf8(line) {
        Ok(read) => read,
        Err(error) => {
            let at = error.valid_up_to();
            return format!(in alloc; "byte {at} of the line isn't UTF-8");
        }
    };
    if read.ends_with('\r') {
        return text(
            alloc,
            "the line ends in a carriage return; save the file with line ends of Unix",
        );
    }
    let word = match read.split_once(' ') {
        Some((word, _)) => word,
        None => read,
    };
    match form_of(word) {
        Some(form) => format!(in alloc;
            "the line isn't of the form `{form}`, with one space between words"
        ),
        None => {
            let word = cut(alloc, word)?;
            format!(in alloc;
                "{word:?} is no word of a script; a line begins with open, put, create, del, putif, delif, bulk, get, refresh, restart, merge, swap, search, deliver, promote, allocate, fail, torn, tornput or tornbulk"
            )
        }
    }
}

fn form_of(word: &str) -> Option<&'static str> {
    for (name, form) in FORMS.iter() {
        if *name == word {
            return Some(*form);
        }
    }
    None
}

// ---- documents, mappings and ids

fn doc_reason(
    alloc: Global,
    fault: &DocFault,
    line: &[u8],
    index: Option<&Index>,
) -> Result<String, AllocError> {
    let mapping = match index {
        Some(world) => Some(world.mapping()),
        None => None,
    };
    document_reason(alloc, fault, mapping, json_of(line))
}

// ---- searches and steps

fn query_reason(alloc: Global, fault: &QueryFault, line: &[u8]) -> Result<String, AllocError> {
    if let QueryFault::Parsing(_) = fault {
        if let Err(error) = Value::from_str(alloc, json_of(line)) {
            let at = error.column();
            return format!(in alloc; "the body isn't JSON: {error} (byte {at} of it)");
        }
    }
    format!(in alloc; "{fault}")
}

fn copy_reason(
    alloc: Global,
    fault: &CopyFault,
    line: &[u8],
    index: Option<&Index>,
) -> Result<String, AllocError> {
    match fault {
        CopyFault::VersionConflict => conflict(alloc, line, index),
        CopyFault::NotPrimary => text(
            alloc,
            "the copy isn't the primary; a copy that was restarted has to be promoted again",
        ),
        CopyFault::WindowFull => text(
            alloc,
            "1,024 writes wait for the acknowledgements of other copies; `deliver` their messages first",
        ),
        CopyFault::Mismatch => if line.starts_with(b"fail") {
            text(
                alloc,
                "the primary doesn't wait for that copy; it reports another copy that it waits for",
            )
        } else {
            format!(in alloc; "{fault}")
        },
        CopyFault::WrongAddress => text(alloc, "the message is to the master, which tears nothing"),
        _ => format!(in alloc; "{fault}"),
    }
}

/// What a condition met: the numbers of the document's last change.
fn conflict(alloc: Global, line: &[u8], index: Option<&Index>) -> Result<String, AllocError> {
    let Some(Command::Write(copy, id, change)) = command_of(line) else {
        return text(alloc, "the document's last change has other numbers");
    };
    let Some(Last { seq, term, .. }) = live_at(alloc, index, copy, id) else {
        return text(alloc, "the document isn't there");
    };
    match change {
        LineWrite::Index(_, Some(wanted)) | LineWrite::Delete(Some(wanted)) => {
            let (wanted_seq, wanted_term) = (wanted.seq, wanted.term);
            format!(in alloc;
                "the document's last change has number {seq} of term {term}, and not {wanted_seq} of term {wanted_term}"
            )
        }
        _ => format!(in alloc;
            "the document is there already; its last change has number {seq} of term {term}"
        ),
    }
}

/// The last change of a document that a copy has.
fn live_at(alloc: Global, index: Option<&Index>, copy: u64, id: &str) -> Option<Last> {
    let copy = index?.copy(u32::try_from(copy).ok()?)?;
    let id = DocId::new(alloc, id).ok()?;
    copy.last(&id).filter(|last| last.live)
}

fn master_reason(alloc: Global, fault: &MasterFault, line: &[u8]) -> Result<String, AllocError> {
    match fault {
        MasterFault::Full => if line.starts_with(b"allocate") {
            text(
                alloc,
                "five copies aren't gone yet, and an index has no more",
            )
        } else {
            format!(in alloc; "{fault}")
        },
        _ => format!(in alloc; "{fault}"),
    }
}

// ---- parts of a line

/// The JSON of a line: what stands from its first brace, bracket or quote on; else its last word.
fn json_of(line: &[u8]) -> &str {
    let read = match str::from_utf8(line) {
        Ok(read) => read,
        Err(_) => return "",
    };
    match read.find(['{', '[', '"']) {
        Some(at) => match read.get(at..) {
            Some(json) => json,
            None => "",
        },
        None => "",
    }
}
