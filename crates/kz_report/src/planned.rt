//! The lines of a plan.
ghost use Rattle.std.specs.Prelude.{◌≡◌, ◌++◌, [], codes, map, length, Some, IfOk, OnOk};
ghost use Rattle.std.specs.List.{enumerate_from, range_with_len};
ghost use Rattle.std.specs.Str.{IsAscii};
ghost use Rattle.std.specs.String.{string_bytes};
ghost use Rattle.kz_model.specs.Run.Journal.{zone_row};
ghost use Rattle.kz_model.specs.Text.Report.{type_line, zone_line, zone_name, submap_name, plan_lines};
ghost use Rattle.kz_model.specs.Text.Lines.{text_of_lines};
ghost use Rattle.kz_report.specs.Lines.{numbered_zone_line, type_line_of, AreText};

use crate::addresses::zone_row;
use kz_model::{Bundle, Layout, Plan, ZoneRow};
use std::alloc::AllocError;
use std::fmt;
use std::str::from_utf8;

/// The type lines and the zone lines.
pub fn write_plan_lines(
    out: &mut String,
    bundle: &Bundle,
    plan: &Plan,
    layouts: &[Layout],
) -> Result<(), AllocError>
    requires { AreText bundle.now plan.now layouts.now }
    ensures { OnOk result (string_bytes out.new ≡ string_bytes out.old
        ++ text_of_lines (plan_lines bundle.now plan.now layouts.now)) }
{
    write_types(out, bundle, plan, layouts)?;
    write_zones(out, plan.zones.as_slice())
}

fn write_types(
    out: &mut String,
    bundle: &Bundle,
    plan: &Plan,
    layouts: &[Layout],
) -> Result<(), AllocError>
    requires { AreText bundle.now plan.now layouts.now }
    ensures { OnOk result (string_bytes out.new ≡ string_bytes out.old
        ++ text_of_lines (map (type_line_of bundle.now plan.now layouts.now)
        (range_with_len 0 (length bundle.now.types)))) }
{
    let zones = plan.of_type.as_slice();
    for of in 0..bundle.types.len() {
        let zone = zones[of];
        let class = zone_row(plan, zone).shape.element;
        write_type(out, bundle.types.name(of), &layouts[of], class, zone)?;
    }
    Ok(())
}

fn write_type(
    out: &mut String,
    name: &[u8],
    layout: &Layout,
    class: u32,
    zone: u32,
) -> Result<(), AllocError>
    requires name { IsAscii name.now }
    requires letters { IsAscii layout.now.letters }
    ensures { OnOk result (string_bytes out.new ≡ string_bytes out.old ++ (type_line (record { name = name.now; fields = [] }) layout.now class zone ++ codes "\n")) }
{
    let name = from_ascii(name);
    let size = layout.size;
    let align = layout.align;
    let letters = from_ascii(layout.letters.as_slice());
    write!(
        out,
        "type {name} size {size} align {align} letters {letters} class {class} zone {zone}\n"
    )
}

/// ASCII bytes as text.
pub fn from_ascii(bytes: &[u8]) -> &str
    requires { IsAscii bytes.now }
    ensures { result.now ≡ bytes.now }
{
    match from_utf8(bytes) {
        Ok(text) => text,
        Err(_) => unreachable!(),
    }
}

pub fn write_zones(out: &mut String, zones: &[ZoneRow]) -> Result<(), AllocError>
    ensures { OnOk result (string_bytes out.new ≡ string_bytes out.old
        ++ text_of_lines (map numbered_zone_line (enumerate_from 0 zones.now))) }
{
    for (zone, row) in zones.iter().enumerate() {
        write_zone(out, zone, *row)?;
    }
    Ok(())
}

/// A zone's name as it is written.
#[derive(Clone, Copy, Debug, PartialEq, Eq)]
struct ZoneName(ZoneRow);

impl fmt::Display for ZoneName {
    ghost use Rattle.std.specs.Prelude.{Some};
    ghost use Rattle.kz_model.specs.Text.Report.{zone_name};

    ghost output = { λ name. Some (zone_name name.0) };

    fn fmt<W: fmt::Write>(&self, f: &mut fmt::Formatter<W>) -> fmt::Result {
        let element = self.0.shape.element;
        match self.0.bucket {
            Some(bucket) => write!(f, "kt.{element}.{bucket}"),
            None => write!(f, "data.{element}"),
        }
    }
}

/// A submap as it is written.
#[derive(Clone, Copy, Debug, PartialEq, Eq)]
struct Submap(u32);

impl fmt::Display for Submap {
    ghost use Rattle.std.specs.Prelude.{Some};
    ghost use Rattle.kz_model.specs.Text.Report.{submap_name};

    ghost output = { λ submap. Some (submap_name submap.0) };

    fn fmt<W: fmt::Write>(&self, f: &mut fmt::Formatter<W>) -> fmt::Result {
        let submap = self.0;
        if submap == 4 {
            return f.write_str("D");
        }
        write!(f, "G{submap}")
    }
}

fn write_zone(out: &mut String, zone: usize, row: ZoneRow) -> Result<(), AllocError>
    ensures { OnOk result (string_bytes out.new ≡ string_bytes out.old ++ (zone_line zone row ++ codes "\n")) }
{
    let name = ZoneName(row);
    let element = row.shape.element;
    let count = row.shape.count;
    let pages = row.shape.pages;
    let submap = Submap(row.submap);
    let types = row.types;
    write!(
        out,
        "zone {zone} {name} element {element} count {count} pages {pages} submap {submap} types {types}\n"
    )
}
