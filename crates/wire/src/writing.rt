//! Writing all of some bytes.
ghost use Rattle.std.specs.Prelude.{◌≡◌, IfErr, OnOk, OnErr};
ghost use Rattle.std.specs.Io.KnownBytes.{Appends};
ghost use Rattle.wire.specs.Bytes.{AppendsFront};
ghost use Rattle.wire.specs.declared.fault.StreamFault.TheVariants.{Write as Unwritten};

use crate::fault::StreamFault;
use std::io;
use std::io::{ErrorKind, Write};

/// Writes all of the bytes, by as many calls as the writer needs. After a refusal, which is the writer's own, or `WriteZero` where it takes nothing
/// more, a beginning of them was written.
pub fn write_all<W: Write>(writer: &mut W, bytes: &[u8]) -> io::Result<()>
    ensures ok { OnOk result (Appends (W.contents writer.old) (W.contents writer.new) bytes.now) }
    ensures err { OnErr result (AppendsFront (W.contents writer.old) (W.contents writer.new) bytes.now) }
{
    let mut rest = bytes;
    while !rest.is_empty() {
        match writer.write(rest) {
            Ok(0) => return Err(ErrorKind::WriteZero.into()),
            Ok(n) => rest = &rest[n..],
            Err(error) => return Err(error),
        }
    }
    Ok(())
}

/// Writes all of the bytes as `write_all` does. A refusal is always `Write`.
pub fn write_whole<W: Write>(writer: &mut W, bytes: &[u8]) -> Result<(), StreamFault>
    ensures ok { OnOk result (Appends (W.contents writer.old) (W.contents writer.new) bytes.now) }
    ensures err { OnErr result (AppendsFront (W.contents writer.old) (W.contents writer.new) bytes.now) }
    ensures cause { IfErr result (λ e. e ≡ Unwritten) }
{
    match write_all(writer, bytes) {
        Ok(()) => Ok(()),
        Err(_) => Err(StreamFault::Write),
    }
}

/// Writes all of the bytes as `write_whole` does, and hands them on to somebody who waits for them.
pub fn write_flushed<W: Write>(writer: &mut W, bytes: &[u8]) -> Result<(), StreamFault>
    ensures ok { OnOk result (Appends (W.contents writer.old) (W.contents writer.new) bytes.now) }
    ensures err { OnErr result (AppendsFront (W.contents writer.old) (W.contents writer.new) bytes.now) }
    ensures cause { IfErr result (λ e. e ≡ Unwritten) }
{
    write_whole(writer, bytes)?;
    if writer.flush().is_err() {
        return Err(StreamFault::Write);
    }
    Ok(())
}
