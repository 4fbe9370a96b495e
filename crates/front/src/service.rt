//! What answers the requests of one index.
ghost use Rattle.std.specs.Prelude.{◌≡◌, List, ℕ, IfSome};
ghost use Rattle.doc.specs.Mapping.{MappingData};
ghost use Rattle.front.specs.Command as asked;
ghost use Rattle.front.specs.Reply as given;
ghost use Rattle.front.specs.CommandView.{command_view};
ghost use Rattle.front.specs.ReplyView.{reply_view};

use crate::command::Command;
use crate::reply::Reply;
use crate::stats::Stats;
use doc::Mapping;

/// A service of one index. Its relation `answers` says which replies a command may have. The pages are proved for every service.
pub trait Service {
    /// The name of the index.
    ghost name: { Self → List ℕ };

    /// Its mapping.
    ghost fields: { Self → MappingData };

    /// Which replies a command may have, and the state of the service after each.
    ghost answers: { Self → asked.Command → given.Reply → Self → Type 0 };

    /// The name of the index.
    fn index(&self) -> &str
        ensures { result.now ≡ name self.now };

    /// The mapping of the index.
    fn mapping(&self) -> &Mapping
        ensures { result.now ≡ fields self.now };

    /// How the index stands, or `None` if memory ran out.
    fn stats(&self) -> Option<Stats>;

    /// Does a command. A page reports a reply of another kind than its command as the refusal `Mismatch`. It also reports `Mismatch` for each of many writes of
    /// which the reply says nothing. If the reply refuses all writes, the page reports that refusal for each.
    fn call(&mut self, command: Command) -> Reply
        ensures answers { answers self.old (command_view command) (reply_view result) self.new }
        ensures name { name self.new ≡ name self.old }
        ensures fields { fields self.new ≡ fields self.old };
}

/// A service that many clients call in turn, through any of several threads. What a client knows of the service stays with that client, and the thread that
/// answers it next starts from that knowledge.
pub trait Resumable: Service {
    /// What a client knows of the service.
    type Known: Drop;

    /// What the client that is served now knows.
    ghost knows: { Self → Self.Known };

    /// What the client that is served now knows.
    fn known(&self) -> Self::Known
        ensures { result ≡ knows self.now };

    /// From now on serves a client that knows this. With `None` the client has got no reply yet.
    fn resume(&mut self, known: &Option<Self::Known>)
        ensures knows { IfSome known.now (λ k. knows self.new ≡ k) }
        ensures name { Self.name self.new ≡ Self.name self.old }
        ensures fields { Self.fields self.new ≡ Self.fields self.old };
}
