//! What one zone sees of the supply.
ghost use Rattle.std.specs.Prelude.{◌≡◌, ◌+◌, ◌<◌, [], ◌∷◌, ℕ, length, if◌then◌else◌, is_ok, IfOk, IfErr, IsTrue};
ghost use Rattle.kz_model.specs.declared.supply.Ask.TheVariants.{Back};
ghost use Rattle.kz_model.specs.declared.supply.Answer.TheVariants.{Taken};
ghost use Rattle.kz_frame.specs.Frames.{zero_frames};
ghost use Rattle.kz_supply.specs.Exchange.{ask_for_chunk, ask_for_frames, chunk_answer, denial, frames_answer};
ghost use Rattle.kz_supply.specs.Pages.{SupplyView, IsUsed};

use kz_frame::Frames;
use kz_model::Answer;

/// A chunk that the supply grants: its first page in its submap, and its frames.
#[derive(Drop)]
pub struct Grant {
    pub page: u32,
    pub frames: Frames,
}

/// Why the supply grants nothing.
#[derive(Clone, Copy, Debug, PartialEq, Eq)]
pub enum Denied {
    /// The submap has only so many pages left.
    NoSpace { left: u32 },
    /// Only so many frames are free.
    NoFrames { free: u32 },
}

impl Denied {
    /// The refusal as an answer.
    pub fn answer(&self) -> Answer
        ensures { result ≡ denial self.now }
    {
        match *self {
            Denied::NoSpace { left } => Answer::NoSpace { left },
            Denied::NoFrames { free } => Answer::NoFrames { free },
        }
    }
}

/// A chunk, or why there is none, as an answer.
pub(crate) fn answer_to_chunk(granted: &Result<Grant, Denied>) -> Answer
    ensures { result ≡ chunk_answer granted.now }
{
    match granted {
        Ok(grant) => Answer::Base { page: grant.page },
        Err(denied) => denied.answer(),
    }
}

/// Frames, or why there are none, as an answer.
pub(crate) fn answer_to_frames(given: &Result<Frames, Denied>) -> Answer
    ensures { result ≡ frames_answer given.now }
{
    match given {
        Ok(_) => Answer::Given,
        Err(denied) => denied.answer(),
    }
}

/// The grant that a visit will ask for.
#[derive(Clone, Copy, Debug, PartialEq, Eq)]
pub enum Want {
    Nothing,
    Chunk,
    Frames,
}

/// What one zone sees of the supply. No call waits.
pub trait Pages {
    // What stays the same through all calls, as the implementation tells it.
    type Base;

    // What the zone sees now.
    ghost seen: { Self → SupplyView Self.Base };

    /// Asks for a new chunk.
    fn chunk(&mut self) -> Result<Grant, Denied>
        requires { IsTrue (seen self.old).can_chunk }
        ensures used { IsUsed (seen self.old) (seen self.new)
            ((ask_for_chunk (seen self.old).params, chunk_answer result) ∷ []) 0 (if is_ok result then 1 else 0) }
        ensures zero { IfOk result (λ grant. grant.frames ≡ zero_frames (seen self.old).params.pages) };

    /// Asks for the frames of a chunk that the zone has.
    fn frames(&mut self) -> Result<Frames, Denied>
        requires { IsTrue (seen self.old).can_frames }
        ensures used { IsUsed (seen self.old) (seen self.new)
            ((ask_for_frames (seen self.old).params, frames_answer result) ∷ []) 0 0 }
        ensures space { IfErr result (λ denied. (free : ℕ) × (denied ≡ Denied.NoFrames free)) }
        ensures zero { IfOk result (λ frames. frames ≡ zero_frames (seen self.old).params.pages) };

    /// Gives the frames of a chunk back.
    fn back(&mut self, frames: Frames)
        requires room { 0 < (seen self.old).backs }
        requires whole { length frames ≡ (seen self.old).params.pages }
        ensures used { IsUsed (seen self.old) (seen self.new) ((Back (seen self.old).params.pages, Taken) ∷ []) 0 0 }
        ensures room { (seen self.old).backs ≡ (seen self.new).backs + 1 };
}
