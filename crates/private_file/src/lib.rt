//! Files and folders that their owner alone may read and write. What is opened for writing is a plain file: a link, a FIFO or a device in its place is refused
//! as `InvalidInput`.
#![tactic(auto)]

use std::fs::{DirBuilder, File, OpenOptions};
use std::io::ErrorKind;
use std::os::unix::fs::{DirBuilderExt, OpenOptionsExt};
use std::rt::Files;
use std::{fs, io};

/// What a new file allows: its owner reads and writes it.
const FILE: u32 = 0o600;

/// What a new folder allows: its owner reads, writes and enters it.
const FOLDER: u32 = 0o700;

/// Opens a file for reading and for appending, and makes it where it is missing.
pub fn open_to_append<R: Files<File = File>>(rt: &R, path: &str) -> io::Result<File> {
    check_plain(rt, path)?;
    OpenOptions::new()
        .read(true)
        .append(true)
        .create(true)
        .mode(FILE)
        .open(rt, path)
}

/// Makes a file, or empties the one that is there.
pub fn create<R: Files<File = File>>(rt: &R, path: &str) -> io::Result<File> {
    check_plain(rt, path)?;
    OpenOptions::new()
        .write(true)
        .create(true)
        .truncate(true)
        .mode(FILE)
        .open(rt, path)
}

/// Opens a file for writing as it is, and makes it where it is missing.
pub fn open_to_write<R: Files<File = File>>(rt: &R, path: &str) -> io::Result<File> {
    check_plain(rt, path)?;
    OpenOptions::new()
        .write(true)
        .create(true)
        .mode(FILE)
        .open(rt, path)
}

/// Makes a folder.
pub fn create_folder<R: Files>(rt: &R, path: &str) -> io::Result<()> {
    DirBuilder::new().mode(FOLDER).create(rt, path)
}

/// Refuses what isn't a plain file, where there is something.
pub fn check_plain<R: Files>(rt: &R, path: &str) -> io::Result<()> {
    match fs::symlink_metadata(rt, path) {
        Ok(found) => if found.is_file() {
            Ok(())
        } else {
            Err(ErrorKind::InvalidInput.into())
        },
        Err(error) => if error.kind() == ErrorKind::NotFound {
            Ok(())
        } else {
            Err(error)
        },
    }
}
