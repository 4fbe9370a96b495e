//! What a picture shows.

/// What a copy is.
#[derive(Clone, Copy, Debug, PartialEq, Eq)]
pub(crate) enum Role {
    /// It was added, and has nothing yet.
    Empty,
    Replica,
    Primary,
}

/// What a node is at one time.
#[derive(Clone, Copy, Debug, PartialEq, Eq)]
pub(crate) struct State {
    pub term: u64,
    pub role: Role,
    /// Whether the master has taken it out.
    pub is_out: bool,
}

/// The steps, from the first to the one before the last, through which a copy stays as it is.
#[derive(Clone, Copy)]
pub(crate) struct Stretch {
    pub node: u64,
    pub state: State,
    pub first: usize,
    pub end: usize,
}

/// How a message arrives.
#[derive(Clone, Copy, Debug, PartialEq, Eq)]
pub(crate) enum Arrival {
    InTime,
    /// A message that its sender sent later was there before it.
    Late,
    Again,
    Refused,
}

/// A message arrives at a step.
#[derive(Clone, Copy)]
pub(crate) struct Arrived {
    pub step: usize,
    pub how: Arrival,
}

/// A message, and all its arrivals.
#[derive(Drop)]
pub(crate) struct Message {
    pub number: u64,
    pub kind: String,
    pub from: u64,
    pub to: u64,
    pub term: u64,
    /// The copy that a report names.
    pub about: u64,
    /// The step that sends it.
    pub sent: usize,
    pub arrived: Vec<Arrived>,
}

/// How a step is marked on its node's line.
#[derive(Clone, Copy, Debug, PartialEq, Eq)]
pub(crate) enum Mark {
    /// A note, which is no step of a node.
    Note,
    Write,
    Read,
    Message,
    Decision,
    Restart,
    Torn,
    Refused,
}

/// One row of the picture.
#[derive(Drop)]
pub(crate) struct Step {
    pub place: String,
    pub said: String,
    pub answer: String,
    pub node: u64,
    pub mark: Mark,
    pub term: u64,
    pub is_acknowledged: bool,
    pub is_wrong: bool,
}

/// All that a picture shows.
#[derive(Drop)]
pub(crate) struct Scene {
    /// How many nodes there are, the master among them.
    pub nodes: u64,
    pub steps: Vec<Step>,
    pub messages: Vec<Message>,
    pub stretches: Vec<Stretch>,
}
