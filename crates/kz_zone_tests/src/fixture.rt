//! A zone that the tests share.
ghost use Rattle.std.specs.Prelude.{◌≡◌, ◌<◌, IfOk};
ghost use Rattle.kz_zone.specs.Room.{AreFitParams, IsFitRoom};

use kz_model::{Items, Room, Seed, ZoneParams};
use std::alloc::{AllocError, Global};

/// A zone of blocks of 16 bytes under the plain seed, for one CPU with magazines of 2 blocks.
pub fn params() -> ZoneParams
    ensures fit { AreFitParams result }
    ensures page { result.pages ≡ 1 }
    ensures cpu { result.cpus ≡ 1 }
{
    ZoneParams {
        zone: 3,
        element: 16,
        count: 256,
        pages: 1,
        cpus: 1,
        magazine: 2,
        depot: 1,
        seed: Seed::Plain,
        submap: 1,
    }
}

/// Its room, for 8 steps.
pub fn room(alloc: Global) -> Result<Room, AllocError>
    ensures fit { IfOk result IsFitRoom }
    ensures cpu { IfOk result (λ room. 0 < room.params.cpus) }
{
    let mut steps = Vec::new(alloc);
    steps.push(8)?;
    Ok(Room {
        params: params(),
        chunks: 16,
        transit: 4,
        steps: Items::from_vec(steps),
    })
}
