//! What the steps of a conversation add up to.
ghost use Rattle.clients.specs.Conversation.{IsKept};
ghost use Rattle.front.specs.Rule.{Rule};

use front::Resumable;

/// Whatever steps a conversation took, in whatever pieces its bytes came: what was sent and what waits to be sent are the pages of the first requests of all
/// bytes that were received, in order. Each was answered once, by a service that went on from what the client knew after the reply before. The requests that
/// aren't answered yet are exactly the requests of the bytes that wait. After a request that ends the stream there are none. This is so for every rule that
/// doesn't change meanwhile.
pub fn conversation_is_kept<S: Resumable>()
    ensures { (rule : Rule) → IsKept rule S.answers S.knows }
{}
