//! The steps of a trace as they are kept. A write's bytes stand apart, so that no other step takes room for them.
ghost use Rattle.std.specs.Prelude.{◌≡◌, ◌<◌, ◌^◌, ℕ, List, [], ◌∷◌, ◌++◌, length, map, All, OnOk, OnErr, IfOk, slice_index_or, vec_len, vec_capacity};
ghost use Rattle.kz_model.specs.Run.Journal.{no_step};
ghost use Rattle.kz_model.specs.Store.Traces.{act_meant, HasItsBytes, AreNumbered, renumbered_short, renumbered_kept, renumbered_step};

use crate::{Act, Piece, TraceStep};
use std::alloc::{AllocError, Global};
use std::marker::Model;

/// A step line's act, with the place of a write's bytes.
#[derive(Clone, Copy, Debug)]
enum ShortAct {
    Alloc { name: u32, of: u32 },
    AllocZero { name: u32, of: u32 },
    Free { name: u32, of: Option<u32> },
    Give { name: u32, to: u32 },
    Take { name: u32 },
    Read { name: u32, off: u32, len: u32 },
    Write { name: u32, off: u32, piece: u32 },
    Flush { of: u32 },
    Trim { of: u32 },
}

#[derive(Clone, Copy, Debug)]
struct ShortStep {
    line: u32,
    round: u32,
    act: ShortAct,
}

/// The step lines of a CPU, in their order.
#[derive(Debug, Drop)]
pub struct Trace {
    steps: Vec<ShortStep>,
    pieces: Vec<Piece>,
}

impl Model for Trace {
    ghost use Rattle.std.specs.Prelude.{List, map, All, length, ◌^◌, ◌<◌};
    ghost use Rattle.kz_model.specs.declared.bundle.TraceStep.{TraceStep};
    ghost use Rattle.kz_model.specs.Store.Traces.{step_meant, HasItsBytes};

    ghost Value = { List TraceStep };

    ghost view = { λ t. map (step_meant t.pieces.items) t.steps.items };

    ghost invariant = { λ t. All (λ step. HasItsBytes (length t.pieces.items) step.act) t.steps.items ×
        (length t.pieces.items < 2 ^ 32) };
}

/// The act that is kept so, beside these bytes.
fn act_of(pieces: &[Piece], act: ShortAct) -> Act
    requires { HasItsBytes (length pieces.now) act }
    ensures { result ≡ act_meant pieces.now act }
{
    match act {
        ShortAct::Alloc { name, of } => Act::Alloc { name, of },
        ShortAct::AllocZero { name, of } => Act::AllocZero { name, of },
        ShortAct::Free { name, of } => Act::Free { name, of },
        ShortAct::Give { name, to } => Act::Give { name, to },
        ShortAct::Take { name } => Act::Take { name },
        ShortAct::Read { name, off, len } => Act::Read { name, off, len },
        ShortAct::Write { name, off, piece } => Act::Write {
            name,
            off,
            bytes: pieces[piece as usize].copy(),
        },
        ShortAct::Flush { of } => Act::Flush { of },
        ShortAct::Trim { of } => Act::Trim { of },
    }
}

/// The act as it is kept, with a write's bytes behind the others.
fn short_of(pieces: &mut Vec<Piece>, act: Act) -> Result<ShortAct, AllocError>
    requires { length pieces.old.items < 2 ^ 32 }
    ensures meant { IfOk result (λ short. act_meant pieces.new.items short ≡ act) }
    ensures within { IfOk result (λ short. HasItsBytes (length pieces.new.items) short) }
    ensures more { (more : List (List ℕ)) × (pieces.new.items ≡ pieces.old.items ++ more) }
    ensures few { length pieces.new.items < 2 ^ 32 }
    ensures err { OnErr result (pieces.new.items ≡ pieces.old.items) }
{
    match act {
        Act::Alloc { name, of } => Ok(ShortAct::Alloc { name, of }),
        Act::AllocZero { name, of } => Ok(ShortAct::AllocZero { name, of }),
        Act::Free { name, of } => Ok(ShortAct::Free { name, of }),
        Act::Give { name, to } => Ok(ShortAct::Give { name, to }),
        Act::Take { name } => Ok(ShortAct::Take { name }),
        Act::Read { name, off, len } => Ok(ShortAct::Read { name, off, len }),
        Act::Write { name, off, bytes } => {
            let piece = pieces.len();
            if piece == u32::MAX as usize {
                return Err(AllocError);
            }
            pieces.push(bytes)?;
            Ok(ShortAct::Write {
                name,
                off,
                piece: piece as u32,
            })
        }
        Act::Flush { of } => Ok(ShortAct::Flush { of }),
        Act::Trim { of } => Ok(ShortAct::Trim { of }),
    }
}

/// The act with other numbers for its name and its type.
fn renumbered(act: ShortAct, names: &[u32], types: &[u32]) -> ShortAct
    requires { (pieces : List (List ℕ)) × AreNumbered (length names.now) (length types.now) (act_meant pieces act) }
    ensures { result ≡ renumbered_short names.now types.now act }
{
    match act {
        ShortAct::Alloc { name, of } => ShortAct::Alloc {
            name: names[name as usize],
            of: types[of as usize],
        },
        ShortAct::AllocZero { name, of } => ShortAct::AllocZero {
            name: names[name as usize],
            of: types[of as usize],
        },
        ShortAct::Free { name, of: None } => ShortAct::Free {
            name: names[name as usize],
            of: None,
        },
        ShortAct::Free { name, of: Some(of) } => ShortAct::Free {
            name: names[name as usize],
            of: Some(types[of as usize]),
        },
        ShortAct::Give { name, to } => ShortAct::Give {
            name: names[name as usize],
            to,
        },
        ShortAct::Take { name } => ShortAct::Take {
            name: names[name as usize],
        },
        ShortAct::Read { name, off, len } => ShortAct::Read {
            name: names[name as usize],
            off,
            len,
        },
        ShortAct::Write { name, off, piece } => ShortAct::Write {
            name: names[name as usize],
            off,
            piece,
        },
        ShortAct::Flush { of } => ShortAct::Flush {
            of: types[of as usize],
        },
        ShortAct::Trim { of } => ShortAct::Trim {
            of: types[of as usize],
        },
    }
}

/// All steps with other numbers for their names and types.
fn renumber_all(steps: &mut Vec<ShortStep>, names: &[u32], types: &[u32])
    requires { (pieces : List (List ℕ)) ×
        All (λ step. AreNumbered (length names.now) (length types.now) (act_meant pieces step.act)) steps.old.items }
    ensures { steps.new.items ≡ map (renumbered_kept names.now types.now) steps.old.items }
{
    for at in 0..steps.len() {
        let ShortStep { line, round, act } = steps[at];
        steps[at] = ShortStep {
            line,
            round,
            act: renumbered(act, names, types),
        };
    }
}

/// Room for one more step.
fn make_room(steps: &mut Vec<ShortStep>) -> Result<(), AllocError>
    ensures kept { steps.new.items ≡ steps.old.items }
    ensures room { OnOk result (vec_len steps.new < vec_capacity steps.new) }
{
    if steps.len() < steps.capacity() {
        return Ok(());
    }
    steps.reserve(1)
}

impl Trace {
    pub fn new(alloc: Global) -> Trace
        ensures { result ≡ [] }
    {
        Trace {
            steps: Vec::new(alloc),
            pieces: Vec::new(alloc),
        }
    }

    pub fn len(&self) -> usize
        ensures { result ≡ length self.now }
    {
        self.steps.len()
    }

    /// One more step, by its parts.
    #[inline(always)]
    pub fn put(&mut self, line: u32, round: u32, act: Act) -> Result<(), AllocError>
        ensures ok { OnOk result (self.new ≡ self.old ++ record { line = line; round = round; act = act } ∷ []) }
        ensures err { OnErr result (self.new ≡ self.old) }
    {
        make_room(&mut self.steps)?;
        let act = short_of(&mut self.pieces, act)?;
        self.steps.push_reserved(ShortStep { line, round, act });
        Ok(())
    }

    /// The step at this place.
    pub fn step(&self, at: usize) -> TraceStep
        requires { at < length self.now }
        ensures { result ≡ slice_index_or self.now at no_step }
    {
        let ShortStep { line, round, act } = self.steps[at];
        TraceStep {
            line,
            round,
            act: act_of(&self.pieces, act),
        }
    }

    /// The round of the step at this place.
    pub fn round(&self, at: usize) -> u32
        requires { at < length self.now }
        ensures { result ≡ (slice_index_or self.now at no_step).round }
    {
        self.steps[at].round
    }

    /// The steps with other numbers for their names and types.
    pub fn renumber(&mut self, names: &[u32], types: &[u32])
        requires { All (λ step. AreNumbered (length names.now) (length types.now) step.act) self.old }
        ensures { self.new ≡ map (renumbered_step names.now types.now) self.old }
    {
        renumber_all(&mut self.steps, names, types);
    }
}
