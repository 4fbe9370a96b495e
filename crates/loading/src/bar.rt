//! How far a load is, on a line of a terminal that is written again and again.

use std::fmt::{self, Display};
use std::io::Write;
use std::time::{Clock, Instant};

/// How many milliseconds a line stands.
const PAUSE: u128 = 200;

/// After how many lines of a file the clock is read.
const LINES: u64 = 256;

/// The bar at the end.
const FULL: &str = "########################";

/// Draws a bar, where there is a terminal.
#[derive(Drop)]
pub(crate) struct Bar<'a, R, E: Write> {
    rt: &'a R,
    errors: &'a mut E,
    shows: bool,
    /// The bytes of all files, where they are known.
    size: Option<u64>,
    looks: u64,
    started: Option<Instant>,
    drawn: Option<Instant>,
}

/// What is done of a load.
#[derive(Clone, Copy)]
pub(crate) struct Progress {
    pub(crate) bytes: u64,
    pub(crate) documents: u64,
}

impl<'a, R: Clock, E: Write> Bar<'a, R, E> {
    pub(crate) fn new(
        rt: &'a R,
        errors: &'a mut E,
        shows: bool,
        size: Option<u64>,
    ) -> Bar<'a, R, E> {
        Bar {
            rt,
            errors,
            shows,
            size,
            looks: 0,
            started: Instant::now(rt).ok(),
            drawn: None,
        }
    }

    /// Draws the bar, where it has stood for long enough.
    pub(crate) fn look(&mut self, progress: Progress) {
        self.looks = self.looks.saturating_add(1);
        if !self.shows || self.looks % LINES != 0 {
            return;
        }
        let (Some(started), Ok(now)) = (self.started, Instant::now(self.rt)) else {
            return;
        };
        let since = self.drawn.unwrap_or(started);
        if now.duration_since(since).as_millis() >= PAUSE {
            self.drawn = Some(now);
            let passed = now.duration_since(started).as_millis();
            self.draw(progress, u64::try_from(passed).unwrap_or(u64::MAX));
        }
    }

    fn draw(&mut self, progress: Progress, passed: u64) {
        let Progress { bytes, documents } = progress;
        let rate = per(documents, 1_000, passed);
        let _ = match self.size {
            Some(size) => {
                let done = bytes.min(size);
                let (part, places) = (per(done, 100, size), per(done, FULL.len() as u64, size));
                let bar = FULL.get(..places as usize).unwrap_or(FULL);
                let left = Seconds(per(size.saturating_sub(done), passed, done) / 1_000);
                write!(
                    self.errors,
                    "\r\x1b[K[{bar:.<24}] {part}% {documents} documents, {rate} a second, {left} left"
                )
            }
            None => write!(
                self.errors,
                "\r\x1b[K{documents} documents, {rate} a second"
            ),
        };
        let _ = self.errors.flush();
    }

    /// Takes the bar away.
    pub(crate) fn erase(&mut self) {
        if self.drawn.is_some() {
            let _ = write!(self.errors, "\r\x1b[K");
            let _ = self.errors.flush();
            self.drawn = None;
        }
    }
}

/// A part of a number, `times` as many as `some` are of `all`.
fn per(some: u64, times: u64, all: u64) -> u64 {
    let product = (some as u128).saturating_mul(times as u128);
    u64::try_from(product / (all.max(1) as u128)).unwrap_or(u64::MAX)
}

/// A time as somebody who waits would say it.
#[derive(Clone, Copy)]
struct Seconds(u64);

impl Display for Seconds {
    fn fmt<W: fmt::Write>(&self, f: &mut fmt::Formatter<W>) -> fmt::Result {
        let (hours, minutes, seconds) = (self.0 / 3_600, self.0 / 60 % 60, self.0 % 60);
        if hours > 0 {
            write!(f, "{hours} h {minutes} min")
        } else if minutes > 0 {
            write!(f, "{minutes} min {seconds} s")
        } else {
            write!(f, "{seconds} s")
        }
    }
}
