//! Logs of frames.
ghost use Rattle.std.specs.Prelude.{◌≡◌, ◌≤◌, ◌<◌, ◌^◌, ◌++◌, ◌+◌, ◌-◌, true, false, None, List, ℕ, take, option_map, nat_lt, Err, Ok, if◌then◌else◌, IfSome, map, length, is_err, IfOk, IsOk, IfErr, OnOk, OnErr};
ghost use Rattle.doc.specs.Outcome.{Gives};
ghost use Rattle.translog.specs.declared.fault.LogFault.TheVariants.{Device};
ghost use Rattle.translog.specs.declared.frames.Torn.TheVariants.{Nothing, End};
ghost use Rattle.translog.specs.Device.{AddsFront, count_after};
ghost use Rattle.translog.specs.Fault.{errs_with, fault_of, is_device, too_large};
ghost use Rattle.std.specs.List.{flat_map};
ghost use Rattle.std.specs.Str.{bytes_eq};
ghost use Rattle.translog.specs.Frames.{contents_in, first_frame, frame_of, framed, mended, AreContents, IsLog, IsOpened, IsTorn, IsUnopened};

use crate::device::LogDevice;
use crate::fault::LogFault;
use crate::refused::Refused;
use crate::synced::Synced;
use std::alloc::{AllocError, Global};
use std::marker::Model;

/// How many bytes a header has.
const HEADER: usize = 4;

/// How many bytes the length of a frame has.
const LENGTH: usize = 4;

/// The greatest length of a content.
const MAX_CONTENT: usize = 4_294_967_295;

/// The bytes of one frame: a length and a content.
pub struct Frame {
    bytes: Vec<u8>,
}

impl Drop for Frame {
    fn drop(self) {
        let Frame { bytes: _bytes } = self;
    }
}

impl Model for Frame {
    ghost use Rattle.std.specs.Prelude.{List, ℕ};

    ghost Value = { List ℕ };

    ghost view = { λ f. f.bytes.items };
}

impl Frame {
    /// The frame of a content.
    pub(crate) fn of(alloc: Global, content: &[u8]) -> Result<Frame, LogFault>
        ensures frame { Gives fault_of (λ f. f) result (frame_of content.now) }
        ensures no_failure { IfErr result (λ e. is_device e ≡ false) }
    {
        if content.len() > MAX_CONTENT {
            return Err(LogFault::TooLarge);
        }
        let mut bytes = Vec::with_capacity(alloc, content.len().saturating_add(LENGTH))?;
        bytes.extend_from_slice(&(content.len() as u32).to_le_bytes())?;
        bytes.extend_from_slice(content)?;
        Ok(Frame { bytes })
    }

    /// The frames of two contents, one after the other, for one append.
    pub(crate) fn behind(alloc: Global, front: &[u8], content: &[u8]) -> Result<Frame, LogFault>
        requires { length front.now < 2 ^ 32 }
        ensures frame { Gives fault_of (λ f. f) result (if nat_lt 4294967295 (length content.now) then Err too_large else Ok (framed front.now ++ framed content.now)) }
        ensures no_failure { IfErr result (λ e. is_device e ≡ false) }
    {
        if content.len() > MAX_CONTENT {
            return Err(LogFault::TooLarge);
        }
        let mut bytes = Vec::with_capacity(alloc, content.len().saturating_add(2 * LENGTH + 1))?;
        put_frame(&mut bytes, front)?;
        put_frame(&mut bytes, content)?;
        Ok(Frame { bytes })
    }

    /// Its bytes.
    pub(crate) fn as_slice(&self) -> &[u8]
        ensures { result.now ≡ self.now }
    {
        &self.bytes
    }
}

/// Adds the frame of a content to some bytes.
fn put_frame(bytes: &mut Vec<u8>, content: &[u8]) -> Result<(), AllocError>
    requires { length content.now < 2 ^ 32 }
    ensures { OnOk result (bytes.new.items ≡ bytes.old.items ++ framed content.now) }
{
    bytes.extend_from_slice(&(content.len() as u32).to_le_bytes())?;
    bytes.extend_from_slice(content)
}

/// What is torn of a log, as a crash leaves it.
#[derive(Clone, Copy, Debug, PartialEq, Eq)]
pub enum Torn {
    /// Nothing: it is a header and whole frames.
    Nothing,
    /// The end: after so many bytes there is less than a frame.
    End(usize),
    /// The header: less than that is there.
    Header,
}

/// A log of frames with any contents, after a header of its own.
pub struct Frames<D: LogDevice> {
    header: [u8; 4],
    device: D,
}

impl<D: LogDevice> Drop for Frames<D> {
    fn drop(self) {
        let Frames {
            header: _header,
            device: _device,
        } = self;
    }
}

impl<D: LogDevice> Model for Frames<D> {
    ghost use Rattle.translog.specs.Frames.{Log};

    ghost Value = { Log D };

    ghost view = { λ f. record { header = f.header; device = f.device } };
}

impl<D: LogDevice> Frames<D> {
    /// A log that isn't open yet: nothing is read.
    pub fn over(header: [u8; 4], device: D) -> Frames<D>
        ensures header { result.header ≡ header }
        ensures device { result.device ≡ device }
    {
        Frames { header, device }
    }

    /// Opens the log that a device holds, and gives its contents: `read` and then `mend`. A refusal hands the device back.
    pub fn open(
        alloc: Global,
        header: [u8; 4],
        device: D,
    ) -> Result<(Frames<D>, Vec<Vec<u8>>), Refused<D, LogFault>>
        ensures found { Gives (λ r. fault_of r.fault) (λ x. map (λ c. c.items) x.1.items) result (contents_in header (D.bytes device)) }
        ensures opened { IfOk result (λ x. IsOpened header (D.bytes device) (D.bytes x.0.device) (map (λ c. c.items) x.1.items) (D.failures device) (D.failures x.0.device)) }
        ensures refused { IfErr result (λ r. IsUnopened (is_device r.fault) header (D.bytes device) (D.bytes r.device) (D.failures device) (D.failures r.device)) }
        ensures offsets { IfOk result (λ x. 4 + length (flat_map framed (map (λ c. c.items) x.1.items)) < 2 ^ 64) }
        ensures header { IfOk result (λ x. x.0.header ≡ header) }
        ensures in_memory { D.in_memory ≡ true → IfErr result (λ r. is_device r.fault ≡ false) }
    {
        let mut frames = Frames::over(header, device);
        match frames.reopen(alloc) {
            Ok(contents) => Ok((frames, contents)),
            Err(fault) => Err(Refused {
                device: frames.into_device(),
                fault,
            }),
        }
    }

    /// Opens the log again, as after a failed `append`: `read` and then `mend`.
    pub fn reopen(&mut self, alloc: Global) -> Result<Vec<Vec<u8>>, LogFault>
        ensures found { Gives fault_of (λ cs. map (λ c. c.items) cs.items) result (contents_in self.old.header (D.bytes self.old.device)) }
        ensures opened { IfOk result (λ cs. IsOpened self.old.header (D.bytes self.old.device) (D.bytes self.new.device) (map (λ c. c.items) cs.items) (D.failures self.old.device) (D.failures self.new.device)) }
        ensures refused { IfErr result (λ e. IsUnopened (is_device e) self.old.header (D.bytes self.old.device) (D.bytes self.new.device) (D.failures self.old.device) (D.failures self.new.device)) }
        ensures offsets { IfOk result (λ cs. 4 + length (flat_map framed (map (λ c. c.items) cs.items)) < 2 ^ 64) }
        ensures header { self.new.header ≡ self.old.header }
        ensures in_memory { D.in_memory ≡ true → IfErr result (λ e. is_device e ≡ false) }
    {
        let (contents, torn) = self.read(alloc)?;
        self.mend(torn)?;
        Ok(contents)
    }

    /// The contents of the log's whole frames, and what of the log is torn. No byte changes. A length that is damaged so that it passes the
    /// end can't be told from a torn frame.
    pub fn read(&mut self, alloc: Global) -> Result<(Vec<Vec<u8>>, Torn), LogFault>
        ensures found { Gives fault_of (λ x. map (λ c. c.items) x.0.items) result (contents_in self.old.header (D.bytes self.old.device)) }
        ensures torn { IfOk result (λ x. IsTorn self.old.header (D.bytes self.old.device) (map (λ c. c.items) x.0.items) x.1) }
        ensures offsets { IfOk result (λ x. 4 + length (flat_map framed (map (λ c. c.items) x.0.items)) < 2 ^ 64) }
        ensures header { self.new.header ≡ self.old.header }
        ensures held { D.bytes self.new.device ≡ D.bytes self.old.device }
        ensures counts { D.failures self.new.device ≡ count_after (errs_with is_device result) (D.failures self.old.device) }
        ensures in_memory { D.in_memory ≡ true → IfErr result (λ e. is_device e ≡ false) }
    {
        scanned(alloc, &self.header, &mut self.device)
    }

    /// Cuts off the torn end that `read` found, or writes the header anew. Only for the header may memory run out, before a byte changes.
    pub fn mend(&mut self, torn: Torn) -> Result<(), LogFault>
        requires { (contents : List (List ℕ)) × IsTorn self.old.header (D.bytes self.old.device) contents torn }
        ensures ok { OnOk result (D.bytes self.new.device ≡ mended self.old.header (D.bytes self.old.device) torn) }
        ensures counts { OnOk result (D.failures self.new.device ≡ D.failures self.old.device) }
        ensures refused { IfErr result (λ e. IsUnopened (is_device e) self.old.header (D.bytes self.old.device) (D.bytes self.new.device) (D.failures self.old.device) (D.failures self.new.device)) }
        ensures cause { IfErr result (λ e. fault_of e ≡ None) }
        ensures header { self.new.header ≡ self.old.header }
        ensures in_memory { D.in_memory ≡ true → IfErr result (λ e. is_device e ≡ false) }
    {
        mend(&self.header, &mut self.device, torn)
    }

    /// Spells the frame of a content, and makes room for it. No byte changes.
    pub fn prepare(&mut self, alloc: Global, content: &[u8]) -> Result<Frame, LogFault>
        ensures frame { Gives fault_of (λ f. f) result (frame_of content.now) }
        ensures room { IfOk result (λ f. length f ≤ D.room self.new.device) }
        ensures header { self.new.header ≡ self.old.header }
        ensures held { D.bytes self.new.device ≡ D.bytes self.old.device }
        ensures failures { D.failures self.new.device ≡ D.failures self.old.device }
        ensures no_failure { IfErr result (λ e. is_device e ≡ false) }
    {
        let frame = Frame::of(alloc, content)?;
        self.device.reserve(frame.bytes.len())?;
        Ok(frame)
    }

    /// Adds the frame that was prepared last. It takes no memory. At `Err` the log is to be opened again.
    pub fn append(&mut self, frame: Frame) -> Result<(), LogFault>
        ensures ok { OnOk result (D.bytes self.new.device ≡ D.bytes self.old.device ++ frame) }
        ensures err { OnErr result (AddsFront (D.bytes self.old.device) frame (D.bytes self.new.device)) }
        ensures cause { IfErr result (λ e. e ≡ Device) }
        ensures counts { D.failures self.new.device ≡ count_after (is_err result) (D.failures self.old.device) }
        ensures in_memory { D.in_memory ≡ true → length frame ≤ D.room self.old.device → IsOk result }
        ensures header { self.new.header ≡ self.old.header }
    {
        self.device.append(&frame.bytes)?;
        Ok(())
    }

    /// Waits until the whole log is there after a crash too. One that failed isn't tried again: until the log is opened again, or read, it is refused,
    /// and so is an append.
    pub fn sync(&mut self) -> Result<Synced, LogFault>
        ensures held { D.bytes self.new.device ≡ D.bytes self.old.device }
        ensures room { D.room self.new.device ≡ D.room self.old.device }
        ensures all { IfOk result (λ s. s ≡ length (D.bytes self.new.device)) }
        ensures synced { OnOk result (D.synced self.new.device ≡ length (D.bytes self.new.device)) }
        ensures doubt { OnErr result (D.is_doubtful self.new.device ≡ true) }
        ensures refused { D.is_doubtful self.old.device ≡ true → is_err result ≡ true }
        ensures cause { IfErr result (λ e. e ≡ Device) }
        ensures counts { D.failures self.new.device ≡ count_after (is_err result) (D.failures self.old.device) }
        ensures in_memory { D.in_memory ≡ true → IsOk result }
        ensures header { self.new.header ≡ self.old.header }
    {
        let bytes = self.device.sync()?;
        Ok(Synced::of(bytes))
    }

    /// Whether the whole log is there after a crash too.
    pub fn is_synced(&self) -> bool
        ensures synced { result ≡ true → D.synced self.now.device ≡ length (D.bytes self.now.device) }
        ensures in_memory { D.in_memory ≡ true → result ≡ true }
    {
        self.device.is_synced()
    }

    /// The device.
    pub fn device(&self) -> &D
        ensures { result.now ≡ self.now.device }
    {
        &self.device
    }

    /// The device alone.
    pub fn into_device(self) -> D
        ensures { result ≡ self.device }
    {
        let Frames { header: _, device } = self;
        device
    }
}

// ---- what a device holds

/// The contents that a device holds, and what of its log is torn.
fn scanned<D: LogDevice>(
    alloc: Global,
    header: &[u8; 4],
    device: &mut D,
) -> Result<(Vec<Vec<u8>>, Torn), LogFault>
    ensures found { Gives fault_of (λ x. map (λ c. c.items) x.0.items) result (contents_in header.now (D.bytes device.old)) }
    ensures torn { IfOk result (λ x. IsTorn header.now (D.bytes device.old) (map (λ c. c.items) x.0.items) x.1) }
    ensures offsets { IfOk result (λ x. 4 + length (flat_map framed (map (λ c. c.items) x.0.items)) < 2 ^ 64) }
    ensures held { D.bytes device.new ≡ D.bytes device.old }
    ensures counts { D.failures device.new ≡ count_after (errs_with is_device result) (D.failures device.old) }
    ensures in_memory { D.in_memory ≡ true → IfErr result (λ e. is_device e ≡ false) }
{
    let bytes = read(alloc, device)?;
    let (contents, torn) = found(alloc, header, bytes.as_slice())?;
    let copies = copied(alloc, contents.as_slice())?;
    Ok((copies, torn))
}

/// All the bytes of a device.
pub(crate) fn read<D: LogDevice>(alloc: Global, device: &mut D) -> Result<Vec<u8>, LogFault>
    ensures bytes { IfOk result (λ bytes. bytes.items ≡ D.bytes device.old) }
    ensures held { D.bytes device.new ≡ D.bytes device.old }
    ensures cause { IfErr result (λ e. fault_of e ≡ None) }
    ensures counts { D.failures device.new ≡ count_after (errs_with is_device result) (D.failures device.old) }
    ensures in_memory { D.in_memory ≡ true → IfErr result (λ e. is_device e ≡ false) }
{
    match device.read_all(alloc) {
        Ok(bytes) => Ok(bytes),
        Err(fault) => Err(LogFault::from(fault)),
    }
}

/// The contents that some bytes hold, where they stand, and what of the bytes is torn.
pub(crate) fn found<'a>(
    alloc: Global,
    header: &[u8; 4],
    held: &'a [u8],
) -> Result<(Vec<&'a [u8]>, Torn), LogFault>
    ensures found { Gives fault_of (λ x. map (λ c. c.now) x.0.items) result (contents_in header.now held.now) }
    ensures torn { IfOk result (λ x. IsTorn header.now held.now (map (λ c. c.now) x.0.items) x.1) }
    ensures offsets { IfOk result (λ x. 4 + length (flat_map framed (map (λ c. c.now) x.0.items)) < 2 ^ 64) }
    ensures no_failure { IfErr result (λ e. is_device e ≡ false) }
{
    if !begins(held, header) {
        return Err(LogFault::BadMagic);
    }
    if held.len() < HEADER {
        return Ok((Vec::new(alloc), Torn::Header));
    }
    let (_, frames) = held.split_at(HEADER);
    let (contents, rest) = split(alloc, frames)?;
    Ok((contents, torn_end(rest, held.len())))
}

/// What is torn of a log of so many bytes where these stand after the last whole frame.
fn torn_end(rest: &[u8], len: usize) -> Torn
    requires { length rest.now ≤ len }
    ensures nothing { length rest.now ≡ 0 → result ≡ Nothing }
    ensures end { 0 < length rest.now → result ≡ End (len - length rest.now) }
{
    if rest.is_empty() {
        return Torn::Nothing;
    }
    Torn::End(len - rest.len())
}

/// Whether the first bytes, as far as they are there, begin the header.
fn begins(bytes: &[u8], header: &[u8; 4]) -> bool
    ensures { result ≡ bytes_eq (take 4 bytes.now) (take (length bytes.now) header.now) }
{
    let front = if bytes.len() < HEADER {
        bytes.len()
    } else {
        HEADER
    };
    bytes[..front] == header[..front]
}

/// The frame in front, as its content, and the bytes after it.
fn first(bytes: &[u8]) -> Option<(&[u8], &[u8])>
    ensures frame { option_map (λ x. (x.0.now, x.1.now)) result ≡ first_frame bytes.now }
    ensures parts { IfSome result (λ x. bytes.now ≡ framed x.0.now ++ x.1.now) }
    ensures small { IfSome result (λ x. length x.0.now < 2 ^ 32) }
    ensures shorter { IfSome result (λ x. length x.1.now < length bytes.now) }
{
    if bytes.len() < LENGTH {
        return None;
    }
    let (front, rest) = bytes.split_at(LENGTH);
    let len = u32::from_le_bytes([front[0], front[1], front[2], front[3]]) as usize;
    if rest.len() < len {
        return None;
    }
    Some(rest.split_at(len))
}

/// The contents of the whole frames in front, where they stand, and the bytes after them.
fn split(alloc: Global, bytes: &[u8]) -> Result<(Vec<&[u8]>, &[u8]), AllocError>
    ensures parts { IfOk result (λ x. bytes.now ≡ flat_map framed (map (λ c. c.now) x.0.items) ++ x.1.now) }
    ensures small { IfOk result (λ x. AreContents (map (λ c. c.now) x.0.items)) }
    ensures rest { IfOk result (λ x. first_frame x.1.now ≡ None) }
{
    let mut contents = Vec::new(alloc);
    let mut rest = bytes;
    while let Some((content, after)) = first(rest) {
        contents.push(content)?;
        rest = after;
    }
    Ok((contents, rest))
}

/// Copies contents, each into bytes of its own.
fn copied(alloc: Global, contents: &[&[u8]]) -> Result<Vec<Vec<u8>>, AllocError>
    ensures { IfOk result (λ v. map (λ c. c.items) v.items ≡ map (λ c. c.now) contents.entry.now) }
{
    let mut copies = Vec::with_capacity(alloc, contents.len())?;
    for content in contents {
        copies.push(Vec::from_slice(alloc, *content)?)?;
    }
    Ok(copies)
}

// ---- what is torn

/// Cuts off a torn end, or writes a torn header anew.
fn mend<D: LogDevice>(header: &[u8; 4], device: &mut D, torn: Torn) -> Result<(), LogFault>
    requires { (contents : List (List ℕ)) × IsTorn header.now (D.bytes device.old) contents torn }
    ensures ok { OnOk result (D.bytes device.new ≡ mended header.now (D.bytes device.old) torn) }
    ensures counts { OnOk result (D.failures device.new ≡ D.failures device.old) }
    ensures refused { IfErr result (λ e. IsUnopened (is_device e) header.now (D.bytes device.old) (D.bytes device.new) (D.failures device.old) (D.failures device.new)) }
    ensures cause { IfErr result (λ e. fault_of e ≡ None) }
    ensures in_memory { D.in_memory ≡ true → IfErr result (λ e. is_device e ≡ false) }
{
    match torn {
        Torn::Nothing => Ok(()),
        Torn::End(whole) => match device.cut(whole) {
            Ok(()) => Ok(()),
            Err(_) => Err(LogFault::Device),
        },
        Torn::Header => write_header(header, device),
    }
}

/// Writes the header of a log that has none, or a part of it.
pub(crate) fn write_header<D: LogDevice>(header: &[u8; 4], device: &mut D) -> Result<(), LogFault>
    requires { (m : ℕ) × (m < 4) × (D.bytes device.old ≡ take m header.now) }
    ensures ok { OnOk result (D.bytes device.new ≡ header.now) }
    ensures counts { OnOk result (D.failures device.new ≡ D.failures device.old) }
    ensures refused { IfErr result (λ e. IsUnopened (is_device e) header.now (D.bytes device.old) (D.bytes device.new) (D.failures device.old) (D.failures device.new)) }
    ensures cause { IfErr result (λ e. fault_of e ≡ None) }
    ensures in_memory { D.in_memory ≡ true → IfErr result (λ e. is_device e ≡ false) }
{
    device.reserve(HEADER)?;
    device.cut(0)?;
    device.append(header)?;
    Ok(())
}
