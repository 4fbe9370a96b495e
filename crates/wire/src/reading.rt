//! Reading a request: its head byte by byte, then its body, and no byte after that.
ghost use Rattle.std.specs.Prelude.{◌≡◌, ◌&&◌, nat_lt, ℕ, ◌∷◌, [], false, length, IfErr, IfOk, IfSome, IfNone, MatchResult, Some, option_map};
ghost use Rattle.wire.specs.Cut as spec;
ghost use Rattle.wire.specs.Fault.{fault_of, is_write};
ghost use Rattle.wire.specs.Framing as framing;
ghost use Rattle.wire.specs.FrameView.{framed_view};
ghost use Rattle.wire.specs.Reading as request;
ghost use Rattle.doc.specs.Outcome.{Gives};

use crate::fault::StreamFault;
use crate::framing::{Frame, framing};
use crate::head::head_of;
use crate::head_fault::HeadFault;
use crate::place::Place;
use crate::sender::Sender;
use std::alloc::{AllocError, Global};
use std::io::{Error, ErrorKind, Read};

/// The bytes of a head: too few, too many, or a whole head.
#[derive(Drop)]
pub(crate) enum HeadBytes {
    Short,
    Long,
    Whole(Vec<u8>),
}

/// The next byte, or none at the end.
fn next_byte<R: Read>(reader: &mut R) -> Result<Option<u8>, StreamFault>
    ensures byte { IfOk result (λ byte. IfSome (R.remaining reader.old) (λ bytes. spec.IsFirst bytes byte (R.remaining reader.new))) }
    ensures cause { IfErr result (λ e. is_write e ≡ false) }
{
    let mut room = [0u8];
    match reader.read(&mut room) {
        Ok(0) => Ok(None),
        Ok(_) => Ok(Some(room[0])),
        Err(e) => Err(read_fault(&e)),
    }
}

/// The fault of a failed read. A reader with a buffer of its own may run out of memory.
fn read_fault(error: &Error) -> StreamFault
    ensures { is_write result ≡ false }
{
    if error.kind() == ErrorKind::OutOfMemory {
        StreamFault::NoMemory
    } else {
        StreamFault::Read
    }
}

/// The bytes of the next head, up to and with the empty line that ends it, of at most 16,384.
pub(crate) fn read_head<R: Read>(alloc: Global, reader: &mut R) -> Result<HeadBytes, StreamFault>
    ensures head { IfOk result (λ head. IfSome (R.remaining reader.old) (λ bytes. spec.IsCut bytes head (R.remaining reader.new))) }
    ensures cause { IfErr result (λ e. is_write e ≡ false) }
{
    let mut bytes = Vec::new(alloc);
    let mut place = Place::Blank;
    for _ in 0..16_384_u64 {
        let Some(byte) = next_byte(reader)? else {
            return Ok(HeadBytes::Short);
        };
        bytes.push(byte)?;
        match place.next(byte) {
            Some(next) => place = next,
            None => return Ok(HeadBytes::Whole(bytes)),
        }
    }
    Ok(HeadBytes::Long)
}

/// A request as its bytes say it: the method, the target and the body (RFC 9112, section 3), and whether the connection ends after it
/// (section 9.6, and each request of HTTP/1.0).
#[derive(Drop)]
pub struct Request {
    pub method: Vec<u8>,
    pub target: Vec<u8>,
    pub body: Vec<u8>,
    pub closes: bool,
    /// Whether a field names a coding of the body. The body is as it came.
    pub encoded: bool,
    pub sender: Sender,
}

/// A request that stands whole, or the fault of its head, after which the stream ends.
#[derive(Drop)]
pub enum Whole {
    Broken(HeadFault),
    Asked(Request),
}

impl Whole {
    /// Whether the stream ends after it.
    pub fn ends(&self) -> bool
        ensures { result ≡ request.ends self.now }
    {
        match self {
            Whole::Broken(_) => true,
            Whole::Asked(request) => request.closes,
        }
    }
}

/// What a head says of its request.
#[derive(Drop)]
pub(crate) struct Framed {
    pub(crate) method: Vec<u8>,
    pub(crate) target: Vec<u8>,
    pub(crate) sender: Sender,
    pub(crate) frame: Frame,
}

/// What the bytes of a head say of its request, whose body may have so many bytes at most, or its first fault.
#[tactic(auto, unfolding(crate::specs::Framing::framed))]
fn frame_head(alloc: Global, most: u32, bytes: &[u8]) -> Result<Framed, HeadFault>
    ensures { Gives fault_of framed_view result (framing.framed most bytes.now) }
{
    let Some(head) = head_of(alloc, bytes)? else {
        return Err(HeadFault::BadHead);
    };
    let frame = framing(most, &head)?;
    Ok(Framed {
        method: head.method.to_vec(alloc)?,
        target: head.target.to_vec(alloc)?,
        sender: Sender::of(alloc, &head.fields)?,
        frame,
    })
}

/// The next request, whose body may have so many bytes at most, or none where the input ends before another whole one. No byte after the request is read, so
/// one request is in memory at most, and a reader whose calls are costly needs a buffer. A read that fails is `Read`, or `NoMemory` where the reader is out of
/// memory.
pub fn read_request<R: Read>(
    alloc: Global,
    most: u32,
    reader: &mut R,
) -> Result<Option<Whole>, StreamFault>
    ensures { MatchResult result (λ whole. IfSome (R.remaining reader.old) (λ bytes.
        request.IsRead (framing.first most bytes) whole (R.remaining reader.new))) (λ e. is_write e ≡ false) }
{
    let bytes = match read_head(alloc, reader)? {
        HeadBytes::Short => return Ok(None),
        HeadBytes::Long => return Ok(Some(Whole::Broken(HeadFault::BadHead))),
        HeadBytes::Whole(bytes) => bytes,
    };
    match frame_head(alloc, most, &bytes) {
        Ok(framed) => read_framed(alloc, reader, framed),
        Err(fault) => if fault.is_memory() {
            Err(StreamFault::NoMemory)
        } else {
            Ok(Some(Whole::Broken(fault)))
        },
    }
}

/// The request whose head says this, with its body.
fn read_framed<R: Read>(
    alloc: Global,
    reader: &mut R,
    framed: Framed,
) -> Result<Option<Whole>, StreamFault>
    ensures whole { IfOk result (λ whole. IfSome (R.remaining reader.old) (λ bytes.
        request.IsRead (framing.with_body bytes (Ok (framed_view framed))) whole (R.remaining reader.new))) }
    ensures cause { IfErr result (λ e. is_write e ≡ false) }
{
    let Framed {
        method,
        target,
        sender,
        frame,
    } = framed;
    let Some(body) = read_body(alloc, reader, frame.length)? else {
        return Ok(None);
    };
    Ok(Some(Whole::Asked(Request {
        method,
        target,
        body,
        closes: frame.closes,
        encoded: frame.encoded,
        sender,
    })))
}

/// Whether the sender of the first request of some bytes waits until it is asked for the request's body, of which a part is missing.
#[tactic(auto, unfolding(crate::specs::Framing::is_expected))]
pub fn is_expected(alloc: Global, most: u32, bytes: &[u8]) -> Result<bool, AllocError>
    ensures { IfOk result (λ b. b ≡ framing.is_expected most bytes.now) }
{
    let mut rest = bytes;
    match read_head(alloc, &mut rest) {
        Ok(HeadBytes::Whole(head)) => is_body_expected(alloc, most, &head, rest),
        Ok(HeadBytes::Short | HeadBytes::Long) => Ok(false),
        Err(_) => Err(AllocError),
    }
}

fn is_body_expected(alloc: Global, most: u32, head: &[u8], rest: &[u8]) -> Result<bool, AllocError>
    ensures { IfOk result (λ b. b ≡ framing.body_is_expected rest.now (framing.framed most head.now)) }
{
    match frame_head(alloc, most, head) {
        Ok(framed) => Ok(is_missing(framed.frame, rest)),
        Err(fault) => if fault.is_memory() {
            Err(AllocError)
        } else {
            Ok(false)
        },
    }
}

/// Whether a body is to be asked for, of which so much has come.
fn is_missing(frame: Frame, come: &[u8]) -> bool
    ensures { result ≡ (frame.expects && nat_lt (length come.now) frame.length) }
{
    frame.expects && come.len() < frame.length
}

/// So many bytes, or none where fewer are left. Room is made as they come, not by what the head says.
pub(crate) fn read_body<R: Read>(
    alloc: Global,
    reader: &mut R,
    length: usize,
) -> Result<Option<Vec<u8>>, StreamFault>
    ensures body { IfOk result (λ body. IfSome (R.remaining reader.old) (λ bytes.
        request.IsBody bytes length (option_map (λ b. b.items) body) (R.remaining reader.new))) }
    ensures cause { IfErr result (λ e. is_write e ≡ false) }
{
    let mut body = Vec::new(alloc);
    let mut room = [0u8; 4096];
    while body.len() < length {
        let wanted = room.len().min(length - body.len());
        match reader.read(&mut room[..wanted]) {
            Ok(0) => return Ok(None),
            Ok(n) => body.extend_from_slice(&room[..n])?,
            Err(e) => return Err(read_fault(&e)),
        }
    }
    Ok(Some(body))
}
