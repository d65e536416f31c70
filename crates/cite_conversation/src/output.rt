// The output of a conversation.
ghost use Rattle.std.specs.Prelude.{◌≡◌, ◌≤◌, OnOk, OnErr};
ghost use Rattle.cite_ports.specs.Ports.{Holds, Rose};
ghost use Rattle.cite_conversation.specs.Streams.{PutsFront};
ghost use Rattle.cite_conversation.specs.declared.end.LinkEnd.TheVariants as ends;

use crate::end::LinkEnd;
use cite_http::memory_reply;
use cite_ports::{Failed, Sink};

/// Puts all the bytes into the sink. Each turn puts a byte or ends, and the cost is linear in the bytes.
pub fn put_all<K: Sink>(sink: &mut K, bytes: &[u8]) -> Result<(), Failed>
    ensures all { OnOk result (Holds bytes.now (K.written sink.old) (K.written sink.new)) }
    ensures never_falls { K.faults_of sink.old ≤ K.faults_of sink.new }
    ensures cause { OnErr result (Rose (K.faults_of sink.old) (K.faults_of sink.new)) }
    ensures front { OnErr result (PutsFront bytes.now (K.written sink.old) (K.written sink.new)) }
{
    let mut at = 0;
    while at < bytes.len() {
        at += sink.put(&bytes[at..])?;
    }
    Ok(())
}

// Tells the caller that memory is wanting, where the sink takes it.
pub(crate) fn give_up<K: Sink>(sink: &mut K) -> LinkEnd
    ensures end { result ≡ ends.NoMemory }
    ensures never_falls { K.faults_of sink.old ≤ K.faults_of sink.new }
{
    let _ = put_all(sink, memory_reply(true));
    LinkEnd::NoMemory
}
