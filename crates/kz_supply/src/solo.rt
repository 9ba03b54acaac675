//! The supply as one zone sees it that has it alone.
ghost use Rattle.std.specs.Prelude.{◌≡◌, ◌<◌, ◌≤◌, length};
ghost use Rattle.kz_supply.specs.Supply.{AreAnswered};
ghost use Rattle.kz_supply.specs.Solo.{entries_since, AreOfZone};

use crate::{Denied, Grant, Pages, Supply};
use kz_frame::Frames;
use kz_model::ZoneParams;
use std::marker::{Model, PhantomData};

/// Which supply a zone uses, and that supply as it was when the use began. Clauses alone see it: no value of it is
/// made.
#[derive(Drop)]
pub struct SoloBase {
    marker: PhantomData<u8>,
}

impl Model for SoloBase {
    ghost use Rattle.kz_supply.specs.Solo.{Start, no_start};

    ghost Value = { Start };

    ghost view = { λ _. no_start };
}

/// A zone's use of a supply on one thread.
#[derive(Drop)]
pub struct SoloPages<'a> {
    pub supply: &'a mut Supply,
    pub params: ZoneParams,
    /// How many entries the log had when the use began.
    pub start: usize,
    pub ghost submap: { params.submap < 5 },
    pub ghost some: { 1 ≤ params.pages },
    pub ghost few: { params.pages ≤ 8 },
    pub ghost begun: { start ≤ length supply.now.log },
    pub ghost alone: { AreOfZone params.zone (entries_since start supply.now) },
    pub ghost answers: { AreAnswered supply.now },
}

impl<'a> SoloPages<'a> {
    /// Begins a zone's use of this supply.
    pub fn new(supply: &'a mut Supply, params: &ZoneParams) -> SoloPages<'a>
        requires submap { params.now.submap < 5 }
        requires some { 1 ≤ params.now.pages }
        requires few { params.now.pages ≤ 8 }
        ensures same_reference { result.supply.ghost_name ≡ supply.entry.ghost_name }
        ensures supply { result.supply.now ≡ supply.old }
        ensures params { result.params ≡ params.now }
        ensures start { result.start ≡ length supply.old.log }
    {
        let start = supply.log().len();
        SoloPages {
            supply,
            params: *params,
            start,
        }
    }
}

impl Pages for SoloPages<'_> {
    ghost use Rattle.std.specs.Prelude.{nat_lt};
    ghost use Rattle.kz_supply.specs.Supply.{room_left, backs_left, grants_left};
    ghost use Rattle.kz_supply.specs.Uses.{exchanges_of, base_of};

    type Base = SoloBase;

    ghost seen = { λ s. record {
      params = s.params;
      exchanges = exchanges_of s;
      can_chunk =
          nat_lt 0 (room_left s.supply.now);
      can_frames = nat_lt 0 (room_left s.supply.now);
      backs =
          backs_left s.params.pages s.supply.now;
      grants =
          grants_left s.params.submap s.params.pages s.supply.now;
      base = base_of s;
    } };

    fn chunk(&mut self) -> Result<Grant, Denied> {
        self.supply
            .chunk(self.params.zone, self.params.submap, self.params.pages)
    }

    fn frames(&mut self) -> Result<Frames, Denied> {
        self.supply.frames(self.params.zone, self.params.pages)
    }

    fn back(&mut self, frames: Frames) {
        self.supply.back(self.params.zone, frames);
    }
}
