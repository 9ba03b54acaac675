//! The supply with fewer frames made, as one zone sees it that has it alone.
ghost use Rattle.std.specs.Prelude.{◌≡◌, ◌<◌, ◌≤◌, length};
ghost use Rattle.kz_supply.specs.Supply.{AreAnswered};
ghost use Rattle.kz_supply.specs.Solo.{entries_since, AreOfZone};

use crate::{Denied, Grant, Pages, ThinSupply};
use kz_frame::Frames;
use kz_model::ZoneParams;
use std::marker::{Model, PhantomData};

/// Which supply a zone uses, and that supply as it was when the use began. Clauses alone see it: no value of it is
/// made.
#[derive(Drop)]
pub struct ThinBase {
    marker: PhantomData<u8>,
}

impl Model for ThinBase {
    ghost use Rattle.kz_supply.specs.ThinSolo.{ThinStart, no_thin_start};

    ghost Value = { ThinStart };

    ghost view = { λ _. no_thin_start };
}

/// A zone's use of a supply with fewer frames made, on one thread. It can answer an ask where the log has room and the
/// frames were made.
#[derive(Drop)]
pub struct ThinPages<'a> {
    pub supply: &'a mut ThinSupply,
    pub params: ZoneParams,
    /// How many entries the log had when the use began.
    pub start: usize,
    pub ghost submap: { params.submap < 5 },
    pub ghost some: { 1 ≤ params.pages },
    pub ghost few: { params.pages ≤ 8 },
    pub ghost begun: { start ≤ length supply.now.counted.log },
    pub ghost alone: { AreOfZone params.zone (entries_since start supply.now.counted) },
    pub ghost answers: { AreAnswered supply.now.counted },
}

impl<'a> ThinPages<'a> {
    /// Begins a zone's use of this supply.
    pub fn new(supply: &'a mut ThinSupply, params: &ZoneParams) -> ThinPages<'a>
        requires submap { params.now.submap < 5 }
        requires some { 1 ≤ params.now.pages }
        requires few { params.now.pages ≤ 8 }
        ensures same_reference { result.supply.ghost_name ≡ supply.entry.ghost_name }
        ensures supply { result.supply.now ≡ supply.old }
        ensures params { result.params ≡ params.now }
        ensures start { result.start ≡ length supply.old.counted.log }
    {
        let start = supply.log().len();
        ThinPages {
            supply,
            params: *params,
            start,
        }
    }
}

impl Pages for ThinPages<'_> {
    ghost use Rattle.kz_supply.specs.Supply.{backs_left, grants_left};
    ghost use Rattle.kz_supply.specs.ThinSolo.{can_give, can_place};
    ghost use Rattle.kz_supply.specs.Uses.{thin_exchanges_of, thin_base_of};

    type Base = ThinBase;

    ghost seen = { λ s. record {
      params = s.params;
      exchanges = thin_exchanges_of s;
      can_chunk =
          can_place s.start s.params s.supply.now;
      can_frames = can_give s.start s.params s.supply.now;
      backs =
          backs_left s.params.pages s.supply.now.counted;
      grants =
          grants_left s.params.submap s.params.pages s.supply.now.counted;
      base = thin_base_of s;
    } };

    fn chunk(&mut self) -> Result<Grant, Denied> {
        self.supply
            .chunk(self.params.zone, self.params.submap, self.params.pages)
    }

    fn frames(&mut self) -> Result<Frames, Denied> {
        self.supply.frames(self.params.zone, self.params.pages)
    }

    fn back(&mut self, frames: Frames) {
        self.supply.back(self.params.zone, frames);
    }
}
