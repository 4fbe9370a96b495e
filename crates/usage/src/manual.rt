//! The manual page, made of what `--help` says.

use crate::words::command;
use clap::error::ErrorKind;
use std::alloc::{AllocError, Global};

const PROGRAM: &str = "indexd";

/// The manual page, as `man` reads it.
pub fn manual_page(alloc: Global) -> Result<String, AllocError> {
    let mut page = String::new(alloc);
    let whole = help_of(alloc, None)?;
    let about = whole.lines().next().unwrap_or("");
    page.push_str(".TH INDEXD 1 \"\" \"indexd\" \"indexd\"\n.SH NAME\nindexd \\- ")?;
    push_text(&mut page, about)?;
    page.push_str("\n.SH SYNOPSIS\n.B indexd\n.I COMMAND\n")?;
    page.push_str(".SH COMMANDS\n")?;
    push_commands(alloc, &mut page)?;
    for name in &names_of(alloc)? {
        let help = help_of(alloc, Some(name.as_str()))?;
        push_section(&mut page, name.as_str(), help.as_str())?;
    }
    Ok(page)
}

/// The names of the commands.
fn names_of(alloc: Global) -> Result<Vec<String>, AllocError> {
    let all = command(alloc)?;
    let mut names = Vec::new(alloc);
    for command in all.get_subcommands() {
        names.push(String::from_str(alloc, command.get_name())?)?;
    }
    Ok(names)
}

/// What `--help` says, of a command or of all.
fn help_of(alloc: Global, name: Option<&str>) -> Result<String, AllocError> {
    let mut words = Vec::new(alloc);
    words.push(String::from_str(alloc, PROGRAM)?)?;
    if let Some(name) = name {
        words.push(String::from_str(alloc, name)?)?;
    }
    words.push(String::from_str(alloc, "--help")?)?;
    match command(alloc)?.try_get_matches_from(&words) {
        Ok(_matches) => Ok(String::new(alloc)),
        Err(told) => {
            if told.kind() == ErrorKind::OutOfMemory {
                return Err(AllocError);
            }
            format!(in alloc; "{told}")
        }
    }
}

/// The commands, each with what it does.
fn push_commands(alloc: Global, page: &mut String) -> Result<(), AllocError> {
    let all = command(alloc)?;
    for command in all.get_subcommands() {
        page.push_str(".TP\n.B ")?;
        push_text(page, command.get_name())?;
        page.push_str("\n")?;
        push_text(page, command.get_about().unwrap_or(""))?;
        page.push_str("\n")?;
    }
    Ok(())
}

/// How a line of a help stands on the page.
#[derive(Clone, Copy, PartialEq, Eq)]
enum Form {
    /// The line is text that is filled.
    Filled,
    /// The line has the name of an option or an argument, and says what it does.
    Named,
    /// The line stands as it is.
    Kept,
}

/// The section of a command: its help, whose options are named in bold, and whose other lines stand as they are.
fn push_section(page: &mut String, name: &str, help: &str) -> Result<(), AllocError> {
    page.push_str(".SH \"indexd ")?;
    push_text(page, name)?;
    page.push_str("\"\n")?;
    let mut form = Form::Filled;
    for line in help.lines() {
        let next = form_of(line, form);
        if next == Form::Kept && form != Form::Kept {
            page.push_str(".PP\n.nf\n")?;
        }
        form = next;
        push_line(page, line, form)?;
    }
    if form == Form::Kept {
        page.push_str(".fi\n")?;
    }
    Ok(())
}

/// The form of a line, after one of a form: what follows the options stands as it is.
fn form_of(line: &str, before: Form) -> Form {
    match before {
        Form::Kept => Form::Kept,
        Form::Filled => if line == "Options:" || line == "Arguments:" {
            Form::Named
        } else {
            Form::Filled
        },
        Form::Named => if line.is_empty() || line.starts_with(' ') || line == "Options:" {
            Form::Named
        } else {
            Form::Kept
        },
    }
}

fn push_line(page: &mut String, line: &str, form: Form) -> Result<(), AllocError> {
    if form == Form::Kept {
        push_text(page, line)?;
        return page.push_str("\n");
    }
    if line.is_empty() || line == "Options:" || line == "Arguments:" {
        return Ok(());
    }
    if form == Form::Named {
        let (name, about) = line.trim().split_once("  ").unwrap_or((line.trim(), ""));
        page.push_str(".TP\n.B ")?;
        push_text(page, name)?;
        page.push_str("\n")?;
        push_text(page, about.trim())?;
        return page.push_str("\n");
    }
    page.push_str(".PP\n")?;
    push_text(page, line)?;
    page.push_str("\n")
}

/// Adds a text that `man` shows as it is.
fn push_text(page: &mut String, text: &str) -> Result<(), AllocError> {
    if text.starts_with('.') || text.starts_with('\'') {
        page.push_str("\\&")?;
    }
    for c in text.chars() {
        match c {
            '\\' => page.push_str("\\e")?,
            '-' => page.push_str("\\-")?,
            c => page.push(c)?,
        }
    }
    Ok(())
}
