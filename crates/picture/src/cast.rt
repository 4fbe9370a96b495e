//! The nodes of a run while its lines are read.

use crate::run::{Line, number_at, word_at};
use crate::scene::{Arrival, Arrived, Mark, Message, Role, Scene, State, Step, Stretch};
use std::alloc::{AllocError, Global};

/// No picture has more copies.
const MOST_COPIES: u64 = 64;

/// A node, since a step.
#[derive(Clone, Copy)]
struct Node {
    state: State,
    since: usize,
    is_in_sync: bool,
}

/// The master, the copies, and what of the picture is there.
#[derive(Drop)]
struct Cast {
    nodes: Vec<Node>,
    term: u64,
    primary: u64,
    scene: Scene,
}

/// What the lines of a run show.
pub(crate) fn scene_of(alloc: Global, lines: &[Line]) -> Result<Scene, AllocError> {
    let mut cast = Cast {
        nodes: Vec::new(alloc),
        term: 1,
        primary: 1,
        scene: Scene {
            nodes: 1,
            steps: Vec::new(alloc),
            messages: Vec::new(alloc),
            stretches: Vec::new(alloc),
        },
    };
    cast.add_node(Role::Replica, false)?;
    for line in lines {
        cast.read(alloc, line)?;
    }
    cast.end()
}

impl Cast {
    /// Adds the node with the next id.
    fn add_node(&mut self, role: Role, is_in_sync: bool) -> Result<(), AllocError> {
        let term = if role == Role::Empty { 0 } else { 1 };
        self.nodes.push(Node {
            state: State {
                term,
                role,
                is_out: false,
            },
            since: self.scene.steps.len(),
            is_in_sync,
        })?;
        Ok(())
    }

    fn end(self) -> Result<Scene, AllocError> {
        let Cast {
            nodes,
            term: _,
            primary: _,
            mut scene,
        } = self;
        scene.nodes = nodes.len() as u64;
        let end = scene.steps.len();
        for (id, node) in nodes.iter().enumerate() {
            scene.stretches.push(Stretch {
                node: id as u64,
                state: node.state,
                first: node.since,
                end,
            })?;
        }
        Ok(scene)
    }

    /// Reads a line: its step, what arrives by it, what it changes and what it sends.
    fn read(&mut self, alloc: Global, line: &Line) -> Result<(), AllocError> {
        let said = line.said.as_str();
        if said.starts_with('#') {
            return self.push_step(alloc, line, 0, Mark::Note);
        }
        // A bulk prints more, where its first write is refused.
        let is_refused = line.printed.starts_with("refused ") && line.printed.lines().count() == 1;
        let first = word_at(said, 0);
        if first == "open" && !is_refused {
            self.open(number_at(said, 1).unwrap_or(1))?;
        }
        let node = self.node_of(line);
        self.push_step(alloc, line, node, mark_of(first, is_refused))?;
        if first == "deliver" || first == "torn" {
            self.arrive(number_at(said, 1).unwrap_or(0), is_refused)?;
        }
        if !is_refused {
            self.change(line, node)?;
        }
        for printed in line.printed.lines() {
            self.send(alloc, said, printed)?;
        }
        Ok(())
    }

    fn push_step(
        &mut self,
        alloc: Global,
        line: &Line,
        node: u64,
        mark: Mark,
    ) -> Result<(), AllocError> {
        let mut answer = String::new(alloc);
        let mut is_acknowledged = false;
        for printed in line.printed.lines() {
            if !answer.is_empty() {
                answer.push_str(", ")?;
            }
            add_printed(&mut answer, printed)?;
            is_acknowledged = is_acknowledged || printed.starts_with("ack ");
        }
        let term = self.state_of(node).term;
        let place = String::from_str(alloc, line.place.as_str())?;
        let said = String::from_str(alloc, line.said.as_str())?;
        let step = Step {
            place,
            said,
            answer,
            node,
            mark,
            term,
            is_acknowledged,
            is_wrong: line.is_wrong,
        };
        self.scene.steps.push(step)?;
        Ok(())
    }

    /// The step that was pushed last.
    fn step(&self) -> usize {
        self.scene.steps.len().saturating_sub(1)
    }

    fn open(&mut self, copies: u64) -> Result<(), AllocError> {
        for id in 1..copies.min(MOST_COPIES).saturating_add(1) {
            let role = if id == 1 {
                Role::Primary
            } else {
                Role::Replica
            };
            self.add_node(role, true)?;
        }
        Ok(())
    }

    /// The node that a line is asked of.
    fn node_of(&self, line: &Line) -> u64 {
        if let Some(node) = line.node {
            return node;
        }
        let number = number_at(line.said.as_str(), 1).unwrap_or(0);
        match word_at(line.said.as_str(), 0) {
            "deliver" | "torn" => match self.message(number) {
                Some(message) => message.to,
                None => 0,
            },
            "open" | "promote" | "allocate" => 0,
            "fail" => self.primary,
            _ => number,
        }
    }

    fn message(&self, number: u64) -> Option<&Message> {
        self.scene.messages.get(number.checked_sub(1)? as usize)
    }

    fn state_of(&self, node: u64) -> State {
        match self.nodes.get(node as usize) {
            Some(node) => node.state,
            None => State {
                term: 0,
                role: Role::Empty,
                is_out: false,
            },
        }
    }

    /// A message arrives at the step.
    fn arrive(&mut self, number: u64, is_refused: bool) -> Result<(), AllocError> {
        let step = self.step();
        let how = self.arrival_of(number, is_refused);
        let Some(place) = number.checked_sub(1) else {
            return Ok(());
        };
        if let Some(message) = self.scene.messages.get_mut(place as usize) {
            message.arrived.push(Arrived { step, how })?;
        }
        Ok(())
    }

    fn arrival_of(&self, number: u64, is_refused: bool) -> Arrival {
        let Some(message) = self.message(number) else {
            return Arrival::InTime;
        };
        if is_refused {
            return Arrival::Refused;
        }
        if !message.arrived.is_empty() {
            return Arrival::Again;
        }
        let is_late = self.scene.messages.iter().any(|other| {
            other.number > number
                && other.from == message.from
                && other.to == message.to
                && !other.arrived.is_empty()
        });
        if is_late {
            Arrival::Late
        } else {
            Arrival::InTime
        }
    }

    /// Notes a message that a line of an answer says is sent.
    fn send(&mut self, alloc: Global, said: &str, printed: &str) -> Result<(), AllocError> {
        if word_at(printed, 0) != "msg" {
            return Ok(());
        }
        let from = number_at(printed, 3).unwrap_or(0);
        let term = if from == 0 {
            self.term
        } else {
            self.state_of(from).term
        };
        let message = Message {
            number: number_at(printed, 1).unwrap_or(0),
            kind: String::from_str(alloc, word_at(printed, 2))?,
            from,
            to: number_at(printed, 4).unwrap_or(0),
            term,
            about: number_at(said, 1).unwrap_or(0),
            sent: self.step(),
            arrived: Vec::new(alloc),
        };
        self.scene.messages.push(message)?;
        Ok(())
    }

    /// What an accepted line changes.
    fn change(&mut self, line: &Line, node: u64) -> Result<(), AllocError> {
        let said = line.said.as_str();
        match word_at(said, 0) {
            "restart" | "tornput" | "tornbulk" => self.restart(node),
            "promote" => self.promote(number_at(said, 1).unwrap_or(0)),
            "allocate" => self.add_node(Role::Empty, false),
            "deliver" => self.take(number_at(said, 1).unwrap_or(0), line.printed.as_str()),
            "torn" => {
                if word_at(said, 2) == "1" {
                    self.take(number_at(said, 1).unwrap_or(0), line.printed.as_str())?;
                }
                self.restart(node)
            }
            _ => Ok(()),
        }
    }

    /// Gives a node another state from this step on.
    fn set(&mut self, id: u64, state: State) -> Result<(), AllocError> {
        let step = self.step();
        let Some(node) = self.nodes.get_mut(id as usize) else {
            return Ok(());
        };
        if node.state == state {
            return Ok(());
        }
        let ended = Stretch {
            node: id,
            state: node.state,
            first: node.since,
            end: step,
        };
        node.state = state;
        node.since = step;
        self.scene.stretches.push(ended)?;
        Ok(())
    }

    fn restart(&mut self, node: u64) -> Result<(), AllocError> {
        let state = self.state_of(node);
        let role = if state.role == Role::Empty {
            Role::Empty
        } else {
            Role::Replica
        };
        self.set(node, State { role, ..state })
    }

    /// The master begins a term: whatever isn't in sync then is out.
    fn promote(&mut self, copy: u64) -> Result<(), AllocError> {
        self.term = self.term.saturating_add(1);
        let old = self.primary;
        self.primary = copy;
        for id in 1..self.nodes.len() as u64 {
            if id != copy && (id == old || !self.is_in_sync(id)) {
                self.take_out(id)?;
            }
        }
        Ok(())
    }

    fn is_in_sync(&self, id: u64) -> bool {
        match self.nodes.get(id as usize) {
            Some(node) => node.is_in_sync,
            None => false,
        }
    }

    fn take_out(&mut self, id: u64) -> Result<(), AllocError> {
        let state = self.state_of(id);
        if let Some(node) = self.nodes.get_mut(id as usize) {
            node.is_in_sync = false;
        }
        self.set(
            id,
            State {
                is_out: true,
                ..state
            },
        )
    }

    /// What a message changes that is taken.
    fn take(&mut self, number: u64, printed: &str) -> Result<(), AllocError> {
        if printed.starts_with("repeated") {
            return Ok(());
        }
        let Some(message) = self.message(number) else {
            return Ok(());
        };
        let (from, to, about, term) = (message.from, message.to, message.about, message.term);
        let effect = effect_of(message.kind.as_str());
        let state = self.state_of(to);
        match effect {
            Effect::Leads => self.set(
                to,
                State {
                    term,
                    role: Role::Primary,
                    ..state
                },
            ),
            Effect::Follows => self.set(
                to,
                State {
                    term,
                    role: Role::Replica,
                    ..state
                },
            ),
            Effect::Joins => {
                if let Some(node) = self.nodes.get_mut(from as usize) {
                    node.is_in_sync = true;
                }
                Ok(())
            }
            Effect::TakesOut => self.take_out(about),
            Effect::Stays => Ok(()),
        }
    }
}

/// What a message does to a state once it is taken.
#[derive(Clone, Copy)]
enum Effect {
    Leads,
    Follows,
    Joins,
    TakesOut,
    Stays,
}

fn effect_of(kind: &str) -> Effect {
    match kind {
        "promoted" => Effect::Leads,
        "resync" | "recover" => Effect::Follows,
        "synced" => Effect::Joins,
        "fail" => Effect::TakesOut,
        _ => Effect::Stays,
    }
}

/// Adds a line that was printed. One of a message isn't broken.
fn add_printed(answer: &mut String, printed: &str) -> Result<(), AllocError> {
    if !printed.starts_with("msg ") {
        return answer.push_str(printed);
    }
    for c in printed.chars() {
        answer.push(if c == ' ' { '\u{a0}' } else { c })?;
    }
    Ok(())
}

fn mark_of(first: &str, is_refused: bool) -> Mark {
    if is_refused {
        return Mark::Refused;
    }
    match first {
        "put" | "create" | "del" | "putif" | "delif" | "bulk" => Mark::Write,
        "deliver" => Mark::Message,
        "promote" | "allocate" | "fail" | "open" => Mark::Decision,
        "restart" => Mark::Restart,
        "torn" | "tornput" | "tornbulk" => Mark::Torn,
        _ => Mark::Read,
    }
}
