// The words that the program was started with.
ghost use Rattle.std.specs.Prelude.{◌≡◌, ◌≢◌, IfErr, IfOk, IfSome, map, string_bytes};
ghost use Rattle.std.specs.IoError.{error_kind};
ghost use Rattle.std.specs.Vec.Iter.{into_iter_items};
ghost use Rattle.cite_prog.specs.Program.{Says};

use std::alloc::Global;
use std::env::Args;
use std::io::{self, ErrorKind};

/// What the program was asked.
#[derive(Drop)]
pub enum Words {
    /// The words behind FILE.
    Command(Vec<String>),
    /// There is no FILE.
    NoFile,
    /// A word is no UTF-8 text, or the system gave none.
    Unreadable,
    /// Want of memory.
    NoMemory,
}

/// What the program was started with: FILE, or the empty text where there is none, and what it was asked.
#[derive(Drop)]
pub struct Started {
    pub file: String,
    pub words: Words,
}

impl Started {
    /// FILE and the words behind it, as the arguments tell them behind the program's name. It moves them, in time linear
    /// in their number.
    pub fn of(alloc: Global, args: io::Result<Args>) -> Started
        ensures said { IfOk args (λ args. Says (map string_bytes (into_iter_items args)) (string_bytes result.file) result.words) }
        ensures unreadable { IfErr args (λ error. error_kind error ≢ ErrorKind.OutOfMemory → result.words ≡ Words.Unreadable) }
    {
        let file = String::new(alloc);
        match args {
            Ok(args) => said(alloc, args),
            Err(error) if error.kind() == ErrorKind::OutOfMemory => Started {
                file,
                words: Words::NoMemory,
            },
            Err(_) => Started {
                file,
                words: Words::Unreadable,
            },
        }
    }
}

// What the arguments say.
fn said(alloc: Global, mut args: Args) -> Started
    ensures { Says (map string_bytes (into_iter_items args)) (string_bytes result.file) result.words }
{
    let _program = args.next();
    let Some(file) = args.next() else {
        return Started {
            file: String::new(alloc),
            words: Words::NoFile,
        };
    };
    let words = match all_left(alloc, args) {
        Some(words) => Words::Command(words),
        None => Words::NoMemory,
    };
    Started { file, words }
}

// The words that are left, or `None` where memory is wanting.
fn all_left(alloc: Global, args: Args) -> Option<Vec<String>>
    ensures { IfSome result (λ words. words.items ≡ into_iter_items args) }
{
    let mut words = Vec::new(alloc);
    for word in args {
        if words.push(word).is_err() {
            return None;
        }
    }
    Some(words)
}
