ghost use Rattle.std.specs.Prelude.{◌≡◌, [], Some, IfOk, IfSome};
ghost use Rattle.rec_base.specs.Asked.{Asks};
ghost use Rattle.rec_base.specs.declared.asked.Asked.TheVariants.{Opening, Creation};

use crate::{Asked, Blob, Memory, Name, Word};
use std::alloc::Global;
use std::marker::Model;

// What was asked for, in order. Where there is no memory for one more, nothing is told any more.
#[derive(Debug, Drop)]
pub(crate) struct AskLog {
    alloc: Global,
    asked: Vec<Asked>,
    is_lost: bool,
}

impl Model for AskLog {
    ghost use Rattle.std.specs.Prelude.{List, Option, None, Some, if◌then◌else◌};
    ghost use Rattle.rec_base.specs.declared.asked.Asked.{Asked};

    ghost Value = { Option (List Asked) };

    ghost view = { λ l. if l.is_lost then None else Some l.asked.items };
}

impl AskLog {
    pub(crate) fn new(alloc: Global) -> AskLog
        ensures { result ≡ Some [] }
    {
        AskLog {
            alloc,
            asked: Vec::new(alloc),
            is_lost: false,
        }
    }

    pub(crate) fn asked(&self) -> Option<&[Asked]>
        ensures { IfSome result (λ asked. self.now ≡ Some asked.now) }
    {
        if self.is_lost {
            None
        } else {
            Some(&self.asked)
        }
    }

    pub(crate) fn open(&mut self, name: &Name)
        ensures { Asks self.old self.new (Opening name.now) }
    {
        match copy_name(self.alloc, name) {
            Ok(name) => self.add(Asked::Opening(name)),
            Err(_) => self.is_lost = true,
        }
    }

    pub(crate) fn create(&mut self, name: &Word)
        ensures { Asks self.old self.new (Creation name.now) }
    {
        match Word::from_bytes(self.alloc, name.bytes()) {
            Ok(name) => self.add(Asked::Creation(name)),
            Err(_) => self.is_lost = true,
        }
    }

    fn add(&mut self, asked: Asked)
        ensures { Asks self.old self.new asked }
    {
        if self.asked.push(asked).is_err() {
            self.is_lost = true;
        }
    }
}

fn copy_name(alloc: Global, name: &Name) -> Result<Name, Memory>
    ensures { IfOk result (λ copy. copy ≡ name.now) }
{
    match name {
        Name::File(path) => Ok(Name::File(Word::from_bytes(alloc, path.bytes())?)),
        Name::Peer {
            host,
            port,
            request,
        } => Ok(Name::Peer {
            host: Word::from_bytes(alloc, host.bytes())?,
            port: *port,
            request: Blob::from_bytes(alloc, request.bytes())?,
        }),
    }
}
