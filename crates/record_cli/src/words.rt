//! The words of the command line.

ghost use Rattle.std.specs.Prelude.{◌≡◌, drop, map, string_bytes, IfOk};

use rec_base::{Memory, Word};
use std::alloc::Global;
use std::env::{self, Env};
use std::io;

/// The words of the command line, without the program's name.
pub(crate) fn command_words(rt: &(impl Env + AllocGlobal)) -> io::Result<Vec<Word>> {
    let alloc = rt.alloc();
    let mut args = Vec::new(alloc);
    for arg in env::args(rt)? {
        args.push(arg)?;
    }
    match words_of(alloc, &args) {
        Ok(words) => Ok(words),
        Err(Memory) => Err(io::Error::from(io::ErrorKind::OutOfMemory)),
    }
}

// The words behind the first of these arguments, in order.
fn words_of(alloc: Global, args: &[String]) -> Result<Vec<Word>, Memory>
    ensures { IfOk result (λ words. words.items ≡ drop 1 (map string_bytes args.now)) }
{
    let mut words = Vec::new(alloc);
    let mut i = 1;
    while i < args.len() {
        match Word::from_bytes(alloc, args[i].as_str().as_bytes()) {
            Ok(word) => words.push(word)?,
            Err(_) => return Err(Memory),
        }
        i += 1;
    }
    Ok(words)
}
