//! The supply as a zone sees it whose answers were got before it asks.
ghost use Rattle.std.specs.Prelude.{◌≡◌, ℕ, ◌+◌, ◌<◌, ◌++◌, [], ◌∷◌, length, drop, if◌then◌else◌, is_some, IsTrue, IfOk, IfSome, IfNone};
ghost use Rattle.std.specs.Result.{ForOk, ForErr};
ghost use Rattle.kz_frame.specs.Frames.{zero_frames};
ghost use Rattle.kz_supply.specs.declared.pages.Denied.TheVariants.{NoFrames};

use crate::pages::{answer_to_chunk, answer_to_frames};
use crate::{Denied, Grant, Pages};
use kz_frame::Frames;
use kz_model::{Answer, Ask, ZoneParams};
use std::alloc::{AllocError, Global};
use std::collections::VecDeque;
use std::marker::Model;
use std::mem;

/// The answer that is ready.
#[derive(Drop)]
pub(crate) enum Readied {
    Nothing,
    Chunk(Result<Grant, Denied>),
    Frames(Result<Frames, Denied>),
}

/// For how many chunks there is room, how many of the packs given back were handed out, and the answer that was got
/// before with its ask.
///
/// Clauses alone see it: no value of it is made.
#[derive(Clone, Copy, Debug, PartialEq, Eq)]
pub struct ReadyBase {
    pub chunks: u32,
    pub handed: u32,
    pub got: Option<(Ask, Answer)>,
}

/// A zone's use of answers that were got before. It keeps what the zone gives back.
///
/// It takes all its memory when it is made.
#[derive(Drop)]
pub struct ReadyPages {
    params: ZoneParams,
    chunks: u32,
    readied: Readied,
    exchanges: Vec<(Ask, Answer)>,
    waiting: VecDeque<Frames>,
}

impl Model for ReadyPages {
    ghost use Rattle.std.specs.Prelude.{◌-◌, length, vec_capacity};
    ghost use Rattle.std.specs.VecDeque.{deque_capacity};
    ghost use Rattle.kz_supply.specs.Ready.{Ready, IsGot, backs_in, ready_of};

    ghost Value = { Ready };

    ghost view = { λ r. record {
      params = r.params;
      chunks = r.chunks;
      ready = ready_of r.readied;
      exchanges =
          r.exchanges.items;
      handed = backs_in r.exchanges.items - length r.waiting.items;
      waiting = r.waiting.items;
    } };

    ghost invariant = { λ r. IsGot r.params r.chunks (ready_of r.readied) r.exchanges.items r.waiting.items
        (vec_capacity r.exchanges) (deque_capacity r.waiting) };
}

impl ReadyPages {
    ghost use Rattle.kz_supply.specs.Ready.{NoAnswer, ForChunk, ForFrames, backs_in, has_asked};

    /// Room for the backs of so many chunks. No answer is ready.
    pub fn new(alloc: Global, params: &ZoneParams, chunks: u32) -> Result<ReadyPages, AllocError>
        ensures { IfOk result (λ pages. pages
            ≡ record {
              params = params.now;
              chunks = chunks;
              ready = NoAnswer;
              exchanges = [];
              handed =
                  0;
              waiting = [];
            }) }
    {
        let exchanges = Vec::with_capacity(alloc, chunks as usize + 1)?;
        let waiting = VecDeque::with_capacity(alloc, chunks as usize)?;
        Ok(ReadyPages {
            params: *params,
            chunks,
            readied: Readied::Nothing,
            exchanges,
            waiting,
        })
    }

    /// Begins a visit.
    pub fn start(&mut self)
        requires idle { self.old.ready ≡ NoAnswer }
        requires empty { self.old.waiting ≡ [] }
        ensures { self.new ≡ record self.old { exchanges = []; handed = 0 } }
    {
        self.exchanges.clear();
    }

    /// Readies an answer to the ask for a chunk.
    pub fn ready_chunk(&mut self, answer: Result<Grant, Denied>)
        requires idle { self.old.ready ≡ NoAnswer }
        requires fresh { self.old.exchanges ≡ [] }
        requires zero { ForOk answer (λ grant. grant.frames ≡ zero_frames self.old.params.pages) }
        ensures { self.new ≡ record self.old { ready = ForChunk answer } }
    {
        self.readied = Readied::Chunk(answer);
    }

    /// Readies an answer to the ask for the frames of a chunk.
    pub fn ready_frames(&mut self, answer: Result<Frames, Denied>)
        requires idle { self.old.ready ≡ NoAnswer }
        requires fresh { self.old.exchanges ≡ [] }
        requires zero { ForOk answer (λ frames. frames ≡ zero_frames self.old.params.pages) }
        requires space { ForErr answer (λ denied. (free : ℕ) × (denied ≡ NoFrames free)) }
        ensures { self.new ≡ record self.old { ready = ForFrames answer } }
    {
        self.readied = Readied::Frames(answer);
    }

    /// Hands out the oldest frames given back that were not yet handed out.
    pub fn next_back(&mut self) -> Option<Frames>
        ensures oldest { IfSome result (λ frames. self.old.waiting ≡ frames ∷ self.new.waiting) }
        ensures whole { IfSome result (λ frames. length frames ≡ self.old.params.pages) }
        ensures none { IfNone result (self.old.waiting ≡ []) }
        ensures rest { self.new ≡ record self.old {
          handed = self.old.handed
              + (if is_some result then 1 else 0);
          waiting = drop 1 self.old.waiting;
        } }
        ensures once { IsTrue (has_asked self.new.exchanges) → self.new.ready ≡ NoAnswer }
        ensures left { length self.new.waiting + self.new.handed ≡ backs_in self.new.exchanges }
    {
        self.waiting.pop_front()
    }

    /// The asks since the start, each with its answer.
    pub fn exchanges(&self) -> &[(Ask, Answer)]
        ensures exchanges { result.now ≡ self.now.exchanges }
        ensures once { IsTrue (has_asked self.now.exchanges) → self.now.ready ≡ NoAnswer }
        ensures left { length self.now.waiting + self.now.handed ≡ backs_in self.now.exchanges }
    {
        self.exchanges.as_slice()
    }
}

impl Pages for ReadyPages {
    ghost use Rattle.std.specs.Prelude.{◌-◌, IfErr};
    ghost use Rattle.kz_model.specs.declared.supply.Ask.TheVariants.{Back};
    ghost use Rattle.kz_model.specs.declared.supply.Answer.TheVariants.{Taken};
    ghost use Rattle.kz_supply.specs.Exchange.{ask_for_chunk, ask_for_frames, chunk_answer, frames_answer};
    ghost use Rattle.kz_supply.specs.Ready.{NoAnswer, ForChunk, ForFrames, backs_in, base_of, grants_ready, is_chunk_ready, is_frames_ready};

    type Base = ReadyBase;

    ghost seen = { λ r. record {
      params = r.params;
      exchanges = r.exchanges;
      can_chunk =
          is_chunk_ready r.ready;
      can_frames = is_frames_ready r.ready;
      backs =
          r.chunks - backs_in r.exchanges;
      grants = grants_ready r.ready;
      base = base_of r;
    } };

    fn chunk(&mut self) -> Result<Grant, Denied>
        requires { IsTrue (is_chunk_ready self.old.ready) }
        ensures ready { self.old.ready ≡ ForChunk result }
        ensures asked { self.new ≡ record self.old {
          ready = NoAnswer;
          exchanges = self.old.exchanges
              ++ (ask_for_chunk self.old.params, chunk_answer result) ∷ [];
        } }
        ensures zero { IfOk result (λ grant. grant.frames ≡ zero_frames self.old.params.pages) }
        ensures base { base_of self.new ≡ base_of self.old }
    {
        let Readied::Chunk(answer) = mem::replace(&mut self.readied, Readied::Nothing) else {
            unreachable!()
        };
        let ask = Ask::Chunk {
            submap: self.params.submap,
            pages: self.params.pages,
        };
        self.exchanges
            .push_reserved((ask, answer_to_chunk(&answer)));
        answer
    }

    fn frames(&mut self) -> Result<Frames, Denied>
        requires { IsTrue (is_frames_ready self.old.ready) }
        ensures ready { self.old.ready ≡ ForFrames result }
        ensures asked { self.new ≡ record self.old {
          ready = NoAnswer;
          exchanges = self.old.exchanges
              ++ (ask_for_frames self.old.params, frames_answer result) ∷ [];
        } }
        ensures space { IfErr result (λ denied. (free : ℕ) × (denied ≡ NoFrames free)) }
        ensures zero { IfOk result (λ frames. frames ≡ zero_frames self.old.params.pages) }
        ensures base { base_of self.new ≡ base_of self.old }
    {
        let Readied::Frames(answer) = mem::replace(&mut self.readied, Readied::Nothing) else {
            unreachable!()
        };
        let ask = Ask::Frames {
            pages: self.params.pages,
        };
        self.exchanges
            .push_reserved((ask, answer_to_frames(&answer)));
        answer
    }

    fn back(&mut self, frames: Frames)
        requires room { 0 < self.old.chunks - backs_in self.old.exchanges }
        requires whole { length frames ≡ self.old.params.pages }
        ensures kept { self.new ≡ record self.old {
          exchanges = self.old.exchanges
              ++ (Back self.old.params.pages, Taken) ∷ [];
          waiting = self.old.waiting ++ frames ∷ [];
        } }
        ensures base { base_of self.new ≡ base_of self.old }
    {
        let ask = Ask::Back {
            pages: self.params.pages,
        };
        self.exchanges.push_reserved((ask, Answer::Taken));
        self.waiting.push_back_reserved(frames);
    }
}
