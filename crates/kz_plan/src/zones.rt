//! The zones, and the zone of each type.
ghost use Rattle.std.specs.Prelude.{◌≡◌, ℕ, ◌+◌, ◌^◌, ◌<◌, ◌≤◌, ◌==◌, ◌++◌, List, length, map, All, IfOk, OnOk};
ghost use Rattle.std.specs.List.{enumerate_from, find, position};
ghost use Rattle.std.specs.Option.{option_map};
ghost use Rattle.kz_model.specs.declared.bundle.Seed.{Seed};
ghost use Rattle.kz_model.specs.Types.Plan.{bucket_rows, data_row, general_zone, rows_among, zone_among};
ghost use Rattle.kz_model.specs.Zone.Words.{words_after};
ghost use Rattle.kz_plan.specs.Homes.{AreCounts, AreZones, HasBucket, HasZone};

use crate::dealing::Deal;
use crate::grouping::{class_at, is_data_only, shape_at};
use kz_model::{Layout, Seed, Words, ZoneRow};
use std::alloc::{AllocError, Global};

/// The submap of data zones.
const DATA_SUBMAP: u32 = 4;

/// The deal of a class.
fn deal_of<'d, 'g, 'a>(deals: &'d [Deal<'g, 'a>], class: usize) -> Option<&'d Deal<'g, 'a>>
    ensures { option_map (λ deal. deal.now) result ≡ find (λ deal. deal.class == class) deals.now }
{
    deals.iter().find(|deal| deal.class() == class)
}

/// The place of a class among some.
fn place_of(classes: &[usize], class: usize) -> Option<usize>
    ensures { result ≡ position (λ other. class == other) classes.now }
{
    classes.iter().position(|other| class == *other)
}

/// The zone of a type among the zones of its class.
fn general_zone<'a>(deals: &[Deal<'_, 'a>], layout: &'a Layout) -> u32
    requires size { layout.now.size ≤ 8192 }
    requires there { HasBucket deals.now layout.now }
    ensures { result ≡ general_zone deals.now layout.now }
{
    let deal = deal_of(deals, class_at(layout)).unwrap();
    deal.zone_of(layout.letters.as_slice())
}

/// The zone of a type; the data zones of these classes follow so many others.
fn zone_among<'a>(
    deals: &[Deal<'_, 'a>],
    general: u32,
    data_classes: &[usize],
    layout: &'a Layout,
) -> u32
    requires size { layout.now.size ≤ 8192 }
    requires room { general + length data_classes.now < 2 ^ 32 }
    requires there { HasZone deals.now data_classes.now layout.now }
    ensures { result ≡ zone_among deals.now general data_classes.now layout.now }
{
    if is_data_only(layout) {
        let place = place_of(data_classes, class_at(layout)).unwrap();
        general + place as u32
    } else {
        general_zone(deals, layout)
    }
}

/// The zone of each type.
pub(crate) fn zones_of_types<'a>(
    alloc: Global,
    layouts: &'a [Layout],
    deals: &[Deal<'_, 'a>],
    general: u32,
    data_classes: &[usize],
) -> Result<Vec<u32>, AllocError>
    requires sizes { All (λ layout. layout.size ≤ 8192) layouts.now }
    requires zones { AreZones deals.now general data_classes.now }
    requires there { All (HasZone deals.now data_classes.now) layouts.now }
    ensures { IfOk result (λ of_type. of_type.items ≡ map (zone_among deals.now general data_classes.now) layouts.now) }
{
    let mut of_type = Vec::new(alloc);
    for layout in layouts {
        of_type.push(zone_among(deals, general, data_classes, layout))?;
    }
    Ok(of_type)
}

/// How many types are in each zone.
fn counts(alloc: Global, of_type: &[u32], zones: usize) -> Result<Vec<u32>, AllocError>
    requires few { length of_type.now ≤ 1024 }
    requires there { All (λ zone. zone < zones) of_type.now }
    ensures { IfOk result (λ counts. AreCounts counts.items zones of_type.now) }
{
    let mut counts = vec![in alloc; 0; zones]?;
    for zone in of_type {
        counts[*zone as usize] += 1;
    }
    Ok(counts)
}

/// Appends the zones of a class in use.
fn push_buckets(
    zones: &mut Vec<ZoneRow>,
    deal: &Deal,
    types: &[u32],
    words: &mut Words,
) -> Result<(), AllocError>
    requires next { deal.now.first ≡ length zones.old.items }
    requires inside { deal.now.first + deal.now.zones ≤ length types.now }
    ensures rows { (seed : Seed) → (of_type : List ℕ) → words.old ≡ words_after seed 1 deal.now.first →
        AreCounts types.now (length types.now) of_type
        → OnOk result (zones.new.items ≡ zones.old.items ++ bucket_rows seed of_type deal.now) }
    ensures words { (seed : Seed) → words.old ≡ words_after seed 1 deal.now.first →
        OnOk result (words.new ≡ words_after seed 1 (deal.now.first + deal.now.zones)) }
{
    let shape = deal.shape();
    for bucket in 0..deal.zones() {
        zones.push(ZoneRow {
            bucket: Some(bucket),
            submap: words.next() % 4,
            shape,
            types: types[zones.len()],
        })?;
    }
    Ok(())
}

/// Appends the data zones of these classes.
fn push_data_zones(
    zones: &mut Vec<ZoneRow>,
    classes: &[usize],
    types: &[u32],
) -> Result<(), AllocError>
    requires classes { All (λ class. class < 32) classes.now }
    requires inside { length zones.old.items + length classes.now ≤ length types.now }
    ensures { (of_type : List ℕ) → AreCounts types.now (length types.now) of_type
        → OnOk result (zones.new.items
        ≡ zones.old.items ++ map (data_row of_type) (enumerate_from (length zones.old.items) classes.now)) }
{
    for class in classes {
        zones.push(ZoneRow {
            bucket: None,
            submap: DATA_SUBMAP,
            shape: shape_at(*class),
            types: types[zones.len()],
        })?;
    }
    Ok(())
}

/// The zones of the classes in use, then the data zones.
pub(crate) fn rows(
    alloc: Global,
    of_type: &[u32],
    deals: &[Deal],
    general: u32,
    data_classes: &[usize],
    seed: Seed,
) -> Result<Vec<ZoneRow>, AllocError>
    requires few { length of_type.now ≤ 1024 }
    requires there { All (λ zone. zone < general + length data_classes.now) of_type.now }
    requires zones { AreZones deals.now general data_classes.now }
    ensures { IfOk result (λ zones. zones.items ≡ rows_among seed of_type.now deals.now general data_classes.now) }
{
    let types = counts(alloc, of_type, general as usize + data_classes.len())?;
    let mut words = Words::new(seed, 1);
    let mut zones = Vec::new(alloc);
    for deal in deals {
        push_buckets(&mut zones, deal, &types, &mut words)?;
    }
    push_data_zones(&mut zones, data_classes, &types)?;
    Ok(zones)
}
