//! What standard error says while connections are served.

use crate::ending::InputEnd;
use crate::lines::Lines;
use clients::Watcher;
use doc::Mapping;
use front::{Rule, reasons_of};
use reasons::{cut, escaped};
use std::alloc::{AllocError, Global};
use std::sync::Wait;
use wire::{Request, Whole, text_of};

/// Says why requests are refused, by default or where that is wanted, and once that no connection more can be had.
#[derive(Drop)]
pub(crate) struct Telling<'a, R: Wait> {
    pub(crate) rt: &'a R,
    pub(crate) alloc: Global,
    pub(crate) index: &'a str,
    pub(crate) mapping: &'a Mapping,
    /// Whether it says why requests are refused.
    pub(crate) explains: bool,
    pub(crate) input_end: Option<&'a InputEnd>,
    pub(crate) lines: &'a Lines,
}

impl<'a, R: Wait> Telling<'a, R> {
    /// Says each reason in a line of its own, in which what comes from a client is escaped.
    fn tell(&self, rule: &Rule, connection: u64, whole: &Whole) -> Result<(), AllocError> {
        let reasons = reasons_of(self.alloc, rule, self.index, self.mapping, whole)?;
        for reason in &reasons {
            self.say(connection, whole, reason)?;
        }
        Ok(())
    }

    fn say(&self, connection: u64, whole: &Whole, reason: &str) -> Result<(), AllocError> {
        let asked = asked(self.alloc, whole)?;
        let line = format!(in self.alloc; "connection {connection}: {asked}: {reason}")?;
        self.lines.push(self.rt, escaped(self.alloc, &line)?);
        Ok(())
    }
}

impl<'a, R: Wait + Sync> Watcher for Telling<'a, R> {
    fn answered(&self, rule: &Rule, connection: u64, whole: &Whole, page: &str) {
        if self.explains && is_refusal(whole, page) {
            let _ = self.tell(rule, connection, whole);
        }
    }

    fn is_to_end(&self) -> bool {
        match self.input_end {
            Some(end) => end.is_there(),
            None => false,
        }
    }

    fn is_full(&self) {
        let told = String::from_str(
            self.alloc,
            "the limit of open files is reached: connections that come wait until others end",
        );
        if let Ok(line) = told {
            self.lines.push(self.rt, line);
        }
    }
}

/// Whether a page refuses the whole of a request, or an item of a bulk.
fn is_refusal(whole: &Whole, page: &str) -> bool {
    if !page.starts_with("HTTP/1.1 2") {
        return true;
    }
    match whole {
        Whole::Broken(_) => true,
        Whole::Asked(request) => is_bulk(request) && page.contains("\r\n\r\n{\"errors\":true,"),
    }
}

fn is_bulk(request: &Request) -> bool {
    match text_of(&request.target) {
        Some(target) => target.contains("/_bulk"),
        None => false,
    }
}

/// The method and the target of a request, the beginning of them where they are long.
fn asked(alloc: Global, whole: &Whole) -> Result<String, AllocError> {
    let Whole::Asked(request) = whole else {
        return String::from_str(alloc, "no request");
    };
    let method = text_of(&request.method).unwrap_or("?");
    let target = text_of(&request.target).unwrap_or("?");
    let (method, target) = (cut(alloc, method)?, cut(alloc, target)?);
    format!(in alloc; "{method} {target}")
}
