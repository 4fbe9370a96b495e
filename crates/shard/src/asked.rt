//! Commands, made ready for the copy that takes them. Making them ready needs nothing from the copy.
ghost use Rattle.front.specs.CommandView.{command_view};
ghost use Rattle.shard.specs.Asked.{AreTaken, IsTakenAs};

use crate::answering::writes_of;
use chronicle::{Chronicle, Mark};
use doc::DocId;
use front::command::{Command, Write};
use query::{Query, SearchBody};
use replica::Writes;
use std::alloc::{AllocError, Global};
use std::marker::Model;

/// A command, with the writes of a bulk as a copy takes them.
#[derive(Drop)]
pub(crate) enum Form {
    Write(Write),
    /// `None` unless there are 1 to 1,024 writes. If memory runs out for them, the error is kept until the command is carried out.
    Bulk(Result<Option<Writes>, AllocError>),
    Get(DocId),
    Search(SearchBody),
    Count(Query),
    Refresh,
    Promote(u32),
}

impl Form {
    fn of(alloc: Global, command: Command) -> Form
        ensures { IsTakenAs (command_view command) result }
    {
        match command {
            Command::Write(write) => Form::Write(write),
            Command::Bulk(writes) => Form::Bulk(bulk_of(alloc, writes)),
            Command::Get(id) => Form::Get(id),
            Command::Search(body) => Form::Search(body),
            Command::Count(query) => Form::Count(query),
            Command::Refresh => Form::Refresh,
            Command::Promote(copy) => Form::Promote(copy),
        }
    }
}

/// The writes of a bulk, as a copy takes them; `None` unless there are 1 to 1,024 of them.
fn bulk_of(alloc: Global, writes: Vec<Write>) -> Result<Option<Writes>, AllocError>
    ensures { AreTaken writes.items result }
{
    Ok(Writes::of(writes_of(alloc, writes)?))
}

/// A command as a copy takes it. Contracts see the command.
#[derive(Drop)]
pub(crate) struct Asked {
    form: Form,
    /// Marks the command itself, for contracts alone.
    mark: Mark<Command>,
}

impl Model for Asked {
    ghost use Rattle.front.specs.CommandView.{command_view};
    ghost use Rattle.front.specs.declared.command.Command.{Command};
    ghost use Rattle.shard.specs.Asked.{command_in, IsTakenAs};
    ghost use Rattle.front.specs.contracts.command.Command as contract;

    ghost Value = { Command };

    ghost coded = { contract.the_row.coded };

    ghost view = { λ a. command_in a.mark.entries };

    ghost invariant = { λ a. IsTakenAs (command_view (command_in a.mark.entries)) a.form };
}

impl Asked {
    ghost use Rattle.std.specs.Prelude.{◌≡◌};
    ghost use Rattle.front.specs.CommandView.{command_view};
    ghost use Rattle.shard.specs.Asked.{IsTakenAs};
    ghost use Rattle.shard.specs.Ready as spec;

    /// Makes a command ready for the copy.
    pub(crate) fn of(alloc: Global, command: Command) -> Asked
        ensures { result ≡ command }
    {
        let chronicle = Chronicle::new();
        let mut writer = chronicle.writer();
        let mark = writer.append(&chronicle, &command);
        Asked {
            form: Form::of(alloc, command),
            mark,
        }
    }

    /// Whether it is a write or a bulk.
    pub(crate) fn is_write(&self) -> bool
        ensures { result ≡ spec.is_write (command_view self.now) }
    {
        match &self.form {
            Form::Write(_) | Form::Bulk(_) => true,
            Form::Get(_) | Form::Search(_) | Form::Count(_) | Form::Refresh | Form::Promote(_) =>
                false,
        }
    }

    pub(crate) fn into_form(self) -> Form
        ensures { IsTakenAs (command_view self) result }
    {
        let Asked { form, mark: _mark } = self;
        form
    }
}
