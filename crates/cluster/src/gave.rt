//! Which devices were given out, for clauses alone.
ghost use Rattle.std.specs.Prelude.{◌≡◌, ◌++◌, ◌∷◌, []};
ghost use Rattle.cluster.specs.Given.{given};

use chronicle::{Chronicle, Means, Writer};
use std::marker::Model;
use translog::LogDevice;

/// A device that was given out: of which node, and the bytes that it held then. No value of it is made.
pub struct Given {
    node: u32,
    bytes: Vec<u8>,
}

impl Model for Given {
    ghost use Rattle.cluster.specs.Given.{given, given_coded, GivenData};

    ghost Value = { GivenData };

    ghost coded = { given_coded };

    ghost view = { λ g. given g.node g.bytes.items };
}

/// A device of a node.
#[derive(Drop)]
struct Giving<D> {
    node: u32,
    device: D,
}

/// How it is noted.
struct Gives;

impl<D: LogDevice> Means<Giving<D>, Given> for Gives {
    ghost means = { λ g. given g.node (D.bytes g.device) };
}

/// The devices that were given out, in order. Contracts see them; it takes no memory.
pub struct Gave {
    chronicle: Chronicle<Given>,
    writer: Writer<Given>,
}

impl Drop for Gave {
    fn drop(self) {
        let Gave {
            chronicle: _chronicle,
            writer: _writer,
        } = self;
    }
}

impl Model for Gave {
    ghost use Rattle.std.specs.Prelude.{◌≡◌, List};
    ghost use base.Stored.{coded_list};
    ghost use Rattle.cluster.specs.Given.{given_coded, GivenData};

    ghost Value = { List GivenData };

    ghost coded = { coded_list given_coded };

    ghost view = { λ g. g.writer.entries };

    ghost invariant = { λ g. g.writer.line.book ≡ g.chronicle };
}

impl Gave {
    /// None yet.
    pub fn new() -> Gave
        ensures { result ≡ [] }
    {
        let chronicle = Chronicle::new();
        let writer = chronicle.writer();
        Gave { chronicle, writer }
    }

    /// One more, which is given back.
    pub fn note<D: LogDevice>(&mut self, node: u32, device: D) -> D
        ensures gave { self.new ≡ self.old ++ given node (D.bytes device) ∷ [] }
        ensures same { result ≡ device }
    {
        let giving = Giving { node, device };
        self.writer
            .append_as::<Giving<D>, Gives>(&self.chronicle, &giving);
        let Giving { node: _, device } = giving;
        device
    }
}
