//! The first page of each chunk.
ghost use Rattle.std.specs.Prelude.{◌≡◌, ◌++◌, [], length, map, take, IfOk, OnOk, slice_index, slice_index_or};
ghost use Rattle.std.specs.List.{range_with_len, filter_map};
ghost use Rattle.kz_model.specs.Run.Journal.{answers_at};
ghost use Rattle.kz_model.specs.Run.Journal.{bases};
ghost use Rattle.kz_report.specs.Lines.{with_entry};

use kz_model::{Answer, Bundle, Plan, SupplyEntry};
use std::alloc::{AllocError, Global};
use std::marker::Model;

/// The first page of each chunk, by zone.
#[derive(Drop)]
pub struct Pages {
    of_zones: Vec<Vec<u32>>,
}

impl Model for Pages {
    ghost use Rattle.std.specs.Prelude.{List, ℕ, map};

    ghost Value = { List (List ℕ) };

    ghost view = { λ p. map (λ pages. pages.items) p.of_zones.items };
}

/// What the lines of a run are read by.
#[derive(Clone, Copy)]
pub struct Given<'a> {
    pub bundle: &'a Bundle,
    pub plan: &'a Plan,
    pub pages: &'a Pages,
}

impl Pages {
    /// The pages that the supply's log gives to so many zones.
    pub fn of_log(alloc: Global, zones: usize, log: &[SupplyEntry]) -> Result<Pages, AllocError>
        ensures { IfOk result (λ pages. pages ≡ map (λ zone. bases zone log.now) (range_with_len 0 zones)) }
    {
        let mut pages = Pages::none(alloc, zones)?;
        for entry in log {
            pages.add(*entry)?;
        }
        Ok(pages)
    }

    fn none(alloc: Global, zones: usize) -> Result<Pages, AllocError>
        ensures { IfOk result (λ pages. pages ≡ map (λ zone. bases zone []) (range_with_len 0 zones)) }
    {
        let mut of_zones = Vec::new(alloc);
        for _ in 0..zones {
            of_zones.push(Vec::new(alloc))?;
        }
        Ok(Pages { of_zones })
    }

    /// One more entry of the log.
    fn add(&mut self, entry: SupplyEntry) -> Result<(), AllocError>
        ensures { OnOk result (self.new ≡ with_entry self.old entry) }
    {
        let zone = entry.zone as usize;
        if let Answer::Base { page } = entry.answer
            && zone < self.of_zones.len()
        {
            self.of_zones[zone].push(page)?;
        }
        Ok(())
    }

    /// The pages of a zone.
    pub fn of_zone(&self, zone: u32) -> &[u32]
        ensures { result.now ≡ slice_index_or self.now zone [] }
    {
        match self.of_zones.get(zone as usize) {
            Some(pages) => pages.as_slice(),
            None => &[],
        }
    }
}

/// The first page of the chunk of this ordinal.
pub fn page_at(pages: &[u32], chunk: usize) -> u32
    ensures { result ≡ slice_index pages.now chunk }
{
    match pages.get(chunk) {
        Some(page) => *page,
        None => 0,
    }
}
