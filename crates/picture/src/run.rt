//! The lines of a run.

/// One line of a run, as a script has it, and what it printed.
#[derive(Drop)]
pub struct Line {
    /// Where the line stands, as the picture shows it.
    pub place: String,
    /// The node that it was asked of, where that isn't to be seen from the line; 0 is the master.
    pub node: Option<u64>,
    /// The line; a line that begins with `#` is a note.
    pub said: String,
    /// The lines that it printed.
    pub printed: String,
    /// Whether the picture marks it as wrong.
    pub is_wrong: bool,
}

/// The word of a line at a place, from 0 on.
pub(crate) fn word_at(line: &str, place: usize) -> &str {
    let mut words = line.split(' ');
    for _ in 0..place {
        let _ = words.next();
    }
    words.next().unwrap_or("")
}

/// The number at a place of a line.
pub(crate) fn number_at(line: &str, place: usize) -> Option<u64> {
    word_at(line, place).parse::<u64>().ok()
}
