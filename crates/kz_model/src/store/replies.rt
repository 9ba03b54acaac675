//! The replies to a CPU's lines as they are kept. The bytes of a read stand apart, so that no other reply takes room
//! for them.
ghost use Rattle.std.specs.Prelude.{◌≡◌, ℕ, ◌+◌, ◌<◌, ◌≤◌, ◌^◌, ◌++◌, [], ◌∷◌, List, length, IfOk, slice_index_or, vec_len, vec_capacity};
ghost use Rattle.kz_model.specs.Store.Replies.{reply_meant, no_reply, HasBytes};

use crate::{Block, Piece, Reply};
use std::alloc::{AllocError, Global};
use std::marker::Model;

/// A reply, with the place of its bytes.
#[derive(Clone, Copy, Debug)]
enum BriefReply {
    Block { block: Block },
    Done,
    NoName,
    NameBusy,
    WrongZone { asked: u32, owner: u32 },
    NotHeld,
    NotGiven,
    OutOfBlock,
    Unmapped,
    Bytes { piece: u32 },
    Trimmed { pages: u32 },
    NoSpace { left: u32 },
    NoFrames { free: u32 },
}

/// Replies, in the order of their lines.
#[derive(Debug, Drop)]
pub struct Replies {
    replies: Vec<BriefReply>,
    pieces: Vec<Piece>,
}

impl Model for Replies {
    ghost use Rattle.std.specs.Prelude.{List, length, map, All};
    ghost use Rattle.kz_model.specs.declared.step.Reply.{Reply};
    ghost use Rattle.kz_model.specs.Store.Replies.{reply_meant, HasBytes};

    ghost Value = { List Reply };

    ghost view = { λ r. map (reply_meant r.pieces.items) r.replies.items };

    ghost invariant = { λ r. All (HasBytes (length r.pieces.items)) r.replies.items };
}

/// The reply that is kept so, beside these bytes.
fn reply_of(pieces: &[Piece], reply: BriefReply) -> Reply
    requires { HasBytes (length pieces.now) reply }
    ensures { result ≡ reply_meant pieces.now reply }
{
    match reply {
        BriefReply::Block { block } => Reply::Block { block },
        BriefReply::Done => Reply::Done,
        BriefReply::NoName => Reply::NoName,
        BriefReply::NameBusy => Reply::NameBusy,
        BriefReply::WrongZone { asked, owner } => Reply::WrongZone { asked, owner },
        BriefReply::NotHeld => Reply::NotHeld,
        BriefReply::NotGiven => Reply::NotGiven,
        BriefReply::OutOfBlock => Reply::OutOfBlock,
        BriefReply::Unmapped => Reply::Unmapped,
        BriefReply::Bytes { piece } => Reply::Bytes {
            bytes: pieces[piece as usize].copy(),
        },
        BriefReply::Trimmed { pages } => Reply::Trimmed { pages },
        BriefReply::NoSpace { left } => Reply::NoSpace { left },
        BriefReply::NoFrames { free } => Reply::NoFrames { free },
    }
}

impl Replies {
    pub fn len(&self) -> usize
        ensures { result ≡ length self.now }
    {
        self.replies.len()
    }

    /// The reply at this place.
    pub fn reply(&self, at: usize) -> Reply
        requires { at < length self.now }
        ensures { result ≡ slice_index_or self.now at no_reply }
    {
        reply_of(&self.pieces, self.replies[at])
    }
}

/// Replies so far, with room for so many.
///
/// It takes all its memory when it is made.
#[derive(Drop)]
pub struct RepliesSoFar {
    room: u32,
    replies: Vec<BriefReply>,
    pieces: Vec<Piece>,
}

impl Model for RepliesSoFar {
    ghost use Rattle.std.specs.Prelude.{map, vec_capacity};
    ghost use Rattle.kz_model.specs.Store.Replies.{RepliesSoFar as Seen, reply_meant, IsRoomFor};

    ghost Value = { Seen };

    ghost view = { λ s. record { room = s.room; items = map (reply_meant s.pieces.items) s.replies.items } };

    ghost invariant = { λ s. IsRoomFor s.room (vec_capacity s.replies)
        (vec_capacity s.pieces) s.pieces.items s.replies.items };
}

/// The reply as it is kept, with its bytes behind the others.
fn brief_of(pieces: &mut Vec<Piece>, reply: &Reply) -> BriefReply
    requires few { vec_len pieces.old + 1 < 2 ^ 32 }
    requires room { vec_len pieces.old < vec_capacity pieces.old }
    ensures meant { reply_meant pieces.new.items result ≡ reply.now }
    ensures has_bytes { HasBytes (length pieces.new.items) result }
    ensures more { (more : List (List ℕ)) × (pieces.new.items ≡ pieces.old.items ++ more) }
    ensures few { length pieces.new.items ≤ length pieces.old.items + 1 }
    ensures capacity { vec_capacity pieces.new ≡ vec_capacity pieces.old }
{
    match reply {
        Reply::Block { block } => BriefReply::Block { block: *block },
        Reply::Done => BriefReply::Done,
        Reply::NoName => BriefReply::NoName,
        Reply::NameBusy => BriefReply::NameBusy,
        Reply::WrongZone { asked, owner } => BriefReply::WrongZone {
            asked: *asked,
            owner: *owner,
        },
        Reply::NotHeld => BriefReply::NotHeld,
        Reply::NotGiven => BriefReply::NotGiven,
        Reply::OutOfBlock => BriefReply::OutOfBlock,
        Reply::Unmapped => BriefReply::Unmapped,
        Reply::Bytes { bytes } => {
            let piece = pieces.len() as u32;
            pieces.push_reserved(bytes.copy());
            BriefReply::Bytes { piece }
        }
        Reply::Trimmed { pages } => BriefReply::Trimmed { pages: *pages },
        Reply::NoSpace { left } => BriefReply::NoSpace { left: *left },
        Reply::NoFrames { free } => BriefReply::NoFrames { free: *free },
    }
}

impl RepliesSoFar {
    /// No reply, and room for so many.
    pub fn new(alloc: Global, room: u32) -> Result<RepliesSoFar, AllocError>
        ensures { IfOk result (λ sheet. sheet ≡ record { room = room; items = [] }) }
    {
        Ok(RepliesSoFar {
            room,
            replies: Vec::with_capacity(alloc, room as usize)?,
            pieces: Vec::with_capacity(alloc, room as usize)?,
        })
    }

    pub fn len(&self) -> usize
        ensures { result ≡ length self.now.items }
    {
        self.replies.len()
    }

    /// One more reply.
    pub fn push(&mut self, reply: &Reply)
        requires { length self.old.items < self.old.room }
        ensures items { self.new.items ≡ self.old.items ++ reply.now ∷ [] }
        ensures room { self.new.room ≡ self.old.room }
    {
        let brief = brief_of(&mut self.pieces, reply);
        self.replies.push_reserved(brief);
    }

    /// The replies.
    pub fn finish(self) -> Replies
        ensures { result ≡ self.items }
    {
        let RepliesSoFar {
            room: _,
            replies,
            pieces,
        } = self;
        Replies { replies, pieces }
    }
}
