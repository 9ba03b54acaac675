//! The replies that a CPU gives by itself.
ghost use Rattle.std.specs.Prelude.{◌≡◌};
ghost use Rattle.kz_cpu.specs.OwnReply.{reply_meant};

use kz_model::{Block, Reply};

/// A reply that a CPU gives from what it has itself. None has bytes, so it is far smaller than a `Reply`.
#[derive(Clone, Copy, Debug)]
pub enum OwnReply {
    Block { block: Block },
    Done,
    NoName,
    NameBusy,
    WrongZone { asked: u32, owner: u32 },
    NotHeld,
    OutOfBlock,
}

impl OwnReply {
    #[inline(always)]
    pub fn reply(self) -> Reply
        ensures { result ≡ reply_meant self }
    {
        match self {
            OwnReply::Block { block } => Reply::Block { block },
            OwnReply::Done => Reply::Done,
            OwnReply::NoName => Reply::NoName,
            OwnReply::NameBusy => Reply::NameBusy,
            OwnReply::WrongZone { asked, owner } => Reply::WrongZone { asked, owner },
            OwnReply::NotHeld => Reply::NotHeld,
            OwnReply::OutOfBlock => Reply::OutOfBlock,
        }
    }
}
