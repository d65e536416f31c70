// A law about messages, carried by a function that does nothing for its caller.
ghost use Rattle.cite_conversation.specs.Conversations.{ComeFirst};

/// Where a response is cut, the messages that were answered are the first ones of all messages of the text. A law: the call
/// does nothing.
pub fn answered_messages_come_first()
    ensures { ComeFirst }
{}
