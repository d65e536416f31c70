// One message.
ghost use Rattle.std.specs.Prelude.{◌≡◌, Some, IfOk};
ghost use Rattle.httparse.specs.Spans.{span_bytes};
ghost use Rattle.cite_http.specs.Messages.{message_of};
ghost use Rattle.cite_http.specs.Offsets.{meant_by};
ghost use Rattle.cite_http.specs.Waiting.{IsFrame};
ghost use Rattle.cite_http.specs.RouterRows.{route_rows};
ghost use Rattle.cite_http.specs.declared.found.Found.TheVariants as found;

use crate::ask::{Ask, read_ask};
use crate::found::Frame;
use crate::route::Route;
use cite_schema::NoMemory;
use matchit::Router;
use std::alloc::Global;

/// What a message asks for, and whether nothing is read after it.
#[derive(Debug, Drop)]
pub struct Message {
    pub ask: Ask,
    pub closing: bool,
}

// The target, which is UTF-8 in each request head.
fn target_of(text: &[u8], frame: Frame) -> &str
    requires { IsFrame text.now frame }
    ensures { result.now ≡ span_bytes text.now frame.target }
{
    match str::from_utf8(frame.target.of(text)) {
        Ok(target) => target,
        Err(_) => unreachable!(),
    }
}

/// A message out of its text.
pub fn read_message(
    alloc: Global,
    router: &Router<Route>,
    text: &[u8],
    frame: Frame,
) -> Result<Message, NoMemory>
    requires routes { router.now ≡ route_rows }
    requires frame { IsFrame text.now frame }
    ensures { IfOk result (λ message. message_of (meant_by text.now (found.Whole frame)) ≡ Some message) }
{
    let method = frame.method.of(text);
    let target = target_of(text, frame);
    let body = &text[frame.body..frame.end];
    let ask = read_ask(alloc, router, method, target, body)?;
    Ok(Message {
        ask,
        closing: frame.closing,
    })
}
