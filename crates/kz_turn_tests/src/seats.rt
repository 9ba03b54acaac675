//! Turns of one seat and of two, opened and closed.
ghost use Rattle.std.specs.Prelude.{◌≡◌, ◌<◌, [], All, IfOk};
ghost use Rattle.kz_turn.specs.Journal.{entries_of};
ghost use Rattle.kz_turn.specs.Passes.{new_pass};
ghost use Rattle.kz_turn.specs.Turns.{turn_name, turn_seats};

use kz_turn::{Kept, Pass, Turn};
use std::alloc::{AllocError, Global};

pub fn open_one<T: Kept + Drop>(alloc: Global, value: T) -> Result<(Turn<T>, Pass<T>), AllocError>
    requires { T.journal value ≡ [] }
    ensures seats { IfOk result (λ r. turn_seats r.0 ≡ 1) }
    ensures pass { IfOk result (λ r. r.1 ≡ new_pass (turn_name r.0) 0 (T.base value)) }
{
    let (turn, mut passes) = Turn::open(alloc, value, 1)?;
    let pass = passes.remove(0);
    Ok((turn, pass))
}

pub fn close_one<T: Kept + Drop>(
    alloc: Global,
    turn: Turn<T>,
    pass: Pass<T>,
) -> Result<T, AllocError>
    requires seats { turn_seats turn ≡ 1 }
    requires pass { (pass.name ≡ turn_name turn) × (pass.number ≡ 0) }
    ensures base { IfOk result (λ x. T.base x ≡ pass.base) }
    ensures own { IfOk result (λ x. entries_of 0 (T.journal x) ≡ pass.own) }
    ensures numbers { IfOk result (λ x. All (λ e. e.0 ≡ 0) (T.journal x)) }
{
    let mut passes = Vec::new(alloc);
    passes.push(pass)?;
    Ok(turn.close(passes))
}

pub fn open_two<T: Kept + Drop>(
    alloc: Global,
    value: T,
) -> Result<(Turn<T>, Pass<T>, Pass<T>), AllocError>
    requires { T.journal value ≡ [] }
    ensures seats { IfOk result (λ r. turn_seats r.0 ≡ 2) }
    ensures zero { IfOk result (λ r. r.1 ≡ new_pass (turn_name r.0) 0 (T.base value)) }
    ensures one { IfOk result (λ r. r.2 ≡ new_pass (turn_name r.0) 1 (T.base value)) }
{
    let (turn, mut passes) = Turn::open(alloc, value, 2)?;
    let zero = passes.remove(0);
    let one = passes.remove(0);
    Ok((turn, zero, one))
}

// The passes need not come back in order.
pub fn close_two<T: Kept + Drop>(
    alloc: Global,
    turn: Turn<T>,
    zero: Pass<T>,
    one: Pass<T>,
) -> Result<T, AllocError>
    requires seats { turn_seats turn ≡ 2 }
    requires zero { (zero.name ≡ turn_name turn) × (zero.number ≡ 0) }
    requires one { (one.name ≡ turn_name turn) × (one.number ≡ 1) }
    ensures base { IfOk result (λ x. T.base x ≡ zero.base) }
    ensures zero { IfOk result (λ x. entries_of 0 (T.journal x) ≡ zero.own) }
    ensures one { IfOk result (λ x. entries_of 1 (T.journal x) ≡ one.own) }
    ensures numbers { IfOk result (λ x. All (λ e. e.0 < 2) (T.journal x)) }
{
    let mut passes = Vec::new(alloc);
    passes.push(one)?;
    passes.push(zero)?;
    Ok(turn.close(passes))
}
