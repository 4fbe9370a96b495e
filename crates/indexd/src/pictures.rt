//! Drawing a script, or the journals of a folder.
ghost use Rattle.std.specs.Prelude.{◌<◌};

use drawing::{DrawFault, draw_journals, draw_script};
use folder::{AuditingFault, journals_in};
use reasons::escaped;
use std::fmt::Display;
use std::fs::File;
use std::io::{BufRead, BufReader, Write};
use std::rt::Files;
use std::{fmt, fs, io};

/// Why nothing is drawn.
#[derive(Debug, Drop)]
enum PictureFault {
    Open(io::Error),
    Journals(AuditingFault),
    Draw(DrawFault),
}

impl Display for PictureFault {
    fn fmt<W: fmt::Write>(&self, f: &mut fmt::Formatter<W>) -> fmt::Result {
        match self {
            PictureFault::Open(error) => write!(f, "indexd: the file can't be opened: {error}"),
            PictureFault::Journals(fault) => write!(f, "{fault}"),
            PictureFault::Draw(fault) => write!(f, "indexd: {fault}"),
        }
    }
}

/// Draws a script or the journals of a folder, and answers the exit status: 0, or 1 with one line on `errors`.
pub(crate) fn run_draw<R: Files<File = File> + AllocGlobal, I: BufRead, O: Write, E: Write>(
    rt: &R,
    file: &str,
    input: &mut I,
    output: &mut O,
    errors: &mut E,
) -> u8
    ensures { result < 2 }
{
    match draw_file(rt, file, input, output) {
        Ok(()) => 0,
        Err(fault) => {
            let _ = writeln!(errors, "{fault}");
            1
        }
    }
}

fn draw_file<R: Files<File = File> + AllocGlobal, I: BufRead, O: Write>(
    rt: &R,
    file: &str,
    input: &mut I,
    output: &mut O,
) -> Result<(), PictureFault> {
    let alloc = rt.alloc();
    let title = match escaped(alloc, file) {
        Ok(title) => title,
        Err(_) => return Err(PictureFault::Draw(DrawFault::NoMemory)),
    };
    if file == "-" {
        return draw_script(alloc, "", input, output).map_err(PictureFault::Draw);
    }
    let found = fs::metadata(rt, file).map_err(PictureFault::Open)?;
    if found.is_dir() {
        let (mapping, journals) = journals_in(rt, file).map_err(PictureFault::Journals)?;
        let drawn = draw_journals(alloc, title.as_str(), &mapping, &journals, output);
        return drawn.map_err(PictureFault::Draw);
    }
    let opened = fs::open(rt, file).map_err(PictureFault::Open)?;
    let mut reader = BufReader::new(alloc, opened).map_err(PictureFault::Open)?;
    draw_script(alloc, title.as_str(), &mut reader, output).map_err(PictureFault::Draw)
}
