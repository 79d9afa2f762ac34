// The replies to the frames of a packet.
ghost use Rattle.std.specs.Prelude.{◌≡◌, ◌<◌, ◌≤◌, ◌∷◌, ◌++◌, [], length, slice_get, Some};

use arrayvec::ArrayVec;
use playout::FileReply;
use std::marker::Model;

/// The replies to the frames of a packet in their order, one to ten.
#[derive(Drop, Debug)]
pub struct Replies {
    kept: ArrayVec<FileReply, 10>,
}

impl Model for Replies {
    ghost use Rattle.std.specs.Prelude.{List};
    ghost use Rattle.playout.specs.declared.reply.FileReply.{FileReply};

    ghost Value = { List FileReply };

    ghost view = { λ r. r.kept.items };
}

impl Replies {
    pub(crate) fn new() -> Self
        ensures { result ≡ [] }
    {
        Replies {
            kept: ArrayVec::new(),
        }
    }

    pub(crate) fn push(&mut self, reply: FileReply)
        requires { length self.old < 10 }
        ensures { self.new ≡ self.old ++ reply ∷ [] }
    {
        self.kept.push(reply);
    }

    pub(crate) fn as_slice(&self) -> &[FileReply]
        ensures { result.now ≡ self.now }
    {
        self.kept.as_slice()
    }

    /// How many replies there are.
    pub fn len(&self) -> usize
        ensures count { result ≡ length self.now }
        ensures few { length self.now ≤ 10 }
    {
        self.kept.len()
    }

    /// The reply to the frame at a place, counted from 0.
    pub fn get(&self, i: usize) -> &FileReply
        requires { i < length self.now }
        ensures { slice_get self.now i ≡ Some result.now }
    {
        &self.kept.as_slice()[i]
    }
}
