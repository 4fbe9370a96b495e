//! The connection to a server, over which requests go out while pages come in.

use crate::fault::Broken;
use crate::page::{Beginning, Page, first_page};
use percent_encoding::{NON_ALPHANUMERIC, percent_encode};
use std::alloc::{AllocError, Global};
use std::io::{ErrorKind, Read, Write};
use std::net::{Ipv4Addr, Net, OpenStream, SocketAddr, SocketAddrV4, TcpStream};
use std::time::{Clock, Duration, Instant};

/// How many milliseconds a read or a write waits.
const MOMENT: u64 = 10;

/// After how many moments without a byte the connection counts as lost: two minutes.
const MOST_MOMENTS: u64 = 12_000;

/// After how many milliseconds a connection counts as rested. A server ends one that rests for long.
const MOST_REST: u128 = 500;

/// How many bytes are read at once.
const ROOM: usize = 262_144;

/// A connection that is kept.
#[derive(Drop)]
pub(crate) struct Connection {
    alloc: Global,
    stream: TcpStream,
    /// The head of a request up to the length of its body.
    head: String,
    /// What came, from the first page on that wasn't read.
    came: Vec<u8>,
    room: Vec<u8>,
    moments: u64,
    used: Option<Instant>,
}

impl Connection {
    pub(crate) fn open<R: Net<Stream = TcpStream> + Clock + AllocGlobal>(
        rt: &R,
        port: u16,
        index: &str,
    ) -> Result<Connection, Broken> {
        let alloc = rt.alloc();
        Ok(Connection {
            alloc,
            stream: connected(rt, port)?,
            head: head_of(alloc, port, index)?,
            came: Vec::new(alloc),
            room: vec![in alloc; 0; ROOM]?,
            moments: 0,
            used: Instant::now(rt).ok(),
        })
    }

    /// Whether it has rested, so that the server may have ended it.
    pub(crate) fn has_rested<R: Clock>(&self, rt: &R) -> bool {
        match (self.used, Instant::now(rt)) {
            (Some(used), Ok(now)) => now.duration_since(used).as_millis() > MOST_REST,
            _ => false,
        }
    }

    /// Whether the server has ended it. No page is to come.
    pub(crate) fn has_ended(&mut self) -> bool {
        match self.stream.read(&mut self.room) {
            Ok(length) => length == 0,
            Err(error) => !matches!(error.kind(), ErrorKind::WouldBlock | ErrorKind::Interrupted),
        }
    }

    /// Begins another connection, which has no page to come.
    pub(crate) fn begin_again<R: Net<Stream = TcpStream> + Clock>(
        &mut self,
        rt: &R,
        port: u16,
    ) -> Result<(), Broken> {
        self.stream = connected(rt, port)?;
        self.came.clear();
        self.moments = 0;
        self.used = Instant::now(rt).ok();
        Ok(())
    }

    /// Sends a bulk.
    pub(crate) fn send<R: Clock>(&mut self, rt: &R, body: &[u8]) -> Result<(), Broken> {
        let (head, length) = (&self.head, body.len());
        let head = format!(in self.alloc; "{head}{length}\r\n\r\n")?;
        self.send_bytes(head.as_bytes())?;
        self.send_bytes(body)?;
        self.used = Instant::now(rt).ok();
        Ok(())
    }

    fn send_bytes(&mut self, bytes: &[u8]) -> Result<(), Broken> {
        let mut rest = bytes;
        for _ in 0..u64::MAX {
            if rest.is_empty() {
                return Ok(());
            }
            let sent = self.send_some(rest)?;
            rest = rest.get(sent..).unwrap_or(&[]);
        }
        Ok(())
    }

    /// Sends as much as the server takes. While it takes nothing it may wait until its page is read.
    fn send_some(&mut self, bytes: &[u8]) -> Result<usize, Broken> {
        match self.stream.write(bytes) {
            Ok(0) => Err(Broken::Ended),
            Ok(sent) => {
                self.moments = 0;
                Ok(sent)
            }
            Err(error) => {
                match error.kind() {
                    ErrorKind::Interrupted => {}
                    ErrorKind::WouldBlock => self.gather()?,
                    _ => return Err(Broken::Io(error)),
                }
                Ok(0)
            }
        }
    }

    /// The next page.
    pub(crate) fn page<R: Clock>(&mut self, rt: &R) -> Result<Page, Broken> {
        for _ in 0..u64::MAX {
            match first_page(self.alloc, &self.came)? {
                Beginning::Page(page, length) => {
                    let rest = self.came.get(length..).unwrap_or(&[]);
                    self.came = Vec::from_slice(self.alloc, rest)?;
                    self.used = Instant::now(rt).ok();
                    return Ok(page);
                }
                Beginning::Part => self.gather()?,
                Beginning::Other(what) => return Err(Broken::Unreadable(what)),
            }
        }
        Err(Broken::Silent)
    }

    /// Takes what came, and waits a moment where nothing did.
    fn gather(&mut self) -> Result<(), Broken> {
        match self.stream.read(&mut self.room) {
            Ok(0) => Err(Broken::Ended),
            Ok(length) => {
                self.moments = 0;
                let part = self.room.get(..length).unwrap_or(&[]);
                self.came.extend_from_slice(part)?;
                Ok(())
            }
            Err(error) => match error.kind() {
                ErrorKind::Interrupted => Ok(()),
                ErrorKind::WouldBlock => self.wait(),
                _ => Err(Broken::Io(error)),
            },
        }
    }

    fn wait(&mut self) -> Result<(), Broken> {
        self.moments = self.moments.saturating_add(1);
        if self.moments > MOST_MOMENTS {
            return Err(Broken::Silent);
        }
        Ok(())
    }
}

fn connected<R: Net<Stream = TcpStream>>(rt: &R, port: u16) -> Result<TcpStream, Broken> {
    let address = SocketAddr::V4(SocketAddrV4::new(Ipv4Addr::LOCALHOST, port));
    let stream = rt.connect(address).map_err(Broken::Io)?;
    let moment = Some(Duration::from_millis(MOMENT));
    stream.set_nodelay(true).map_err(Broken::Io)?;
    stream.set_read_timeout(moment).map_err(Broken::Io)?;
    stream.set_write_timeout(moment).map_err(Broken::Io)?;
    Ok(stream)
}

/// The head of a bulk's request up to the length of its body.
fn head_of(alloc: Global, port: u16, index: &str) -> Result<String, AllocError> {
    let index = percent_encode(index.as_bytes(), NON_ALPHANUMERIC);
    format!(in alloc;
        "POST /{index}/_bulk HTTP/1.1\r\nhost: 127.0.0.1:{port}\r\ncontent-type: application/x-ndjson\r\ncontent-length: "
    )
}
