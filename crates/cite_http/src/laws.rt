// Laws about messages, each carried by a function that does nothing for its caller.
ghost use Rattle.cite_http.specs.Messages.{whole};
ghost use Rattle.cite_http.specs.Pieces.{StepsStand, GivenAreFirst, OneIsGiven, AtMostOne, HasMessages};

use crate::cuts::rest_from;
use crate::first::find_first;
use crate::found::{Found, UNSEARCHED};

/// A reader stands for all bytes that it was fed, less the messages that it gave: so however bytes are cut into
/// pieces, the messages that were given are the first ones of all bytes together. What a reader gives next is fixed by its
/// rest, and a text has at most one list of messages. A law: the call does nothing.
pub fn messages_come_through_pieces()
    ensures steps { StepsStand }
    ensures first { GivenAreFirst }
    ensures step { OneIsGiven }
    ensures once { AtMostOne }
{}

/// Each text of bytes has messages. A law: the call changes nothing.
pub fn texts_have_messages(text: &[u8])
    ensures { HasMessages (whole text.now) }
{
    let mut start = 0;
    loop {
        let first = find_first(rest_from(text, start), UNSEARCHED);
        match first.found {
            Found::Unfinished(_) => return,
            Found::Refused(_, _) => return,
            Found::Whole(frame) => {
                if frame.closing {
                    return;
                }
                start += first.skipped + frame.end;
            }
        }
    }
}
