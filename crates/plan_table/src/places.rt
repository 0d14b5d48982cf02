//! Places with coordinates.

ghost use Rattle.std.specs.Prelude.{◌≡◌, ◌≢◌, ◌*◌, ◌<◌, ◌≤◌, ◌∷◌, [], ℕ, length, map, All, IfOk, MatchOption, OnOk, unsigned_abs};
ghost use Rattle.std.specs.String.{string_bytes};
ghost use Rattle.plan_table.specs.Decimal.{max_entry};
ghost use Rattle.plan_table.specs.Places.{AreApart, AreNamedPoints, IsPlacesText, coordinates_of, point_at};

use crate::alike::check_unlike;
use crate::error::TableError;
use crate::head::check_head;
use crate::marking::mark_of_table;
use crate::names::read_first_names;
use crate::numeral::Reading;
use crate::records::read_records;
use crate::rows::{read_rows, too_large};
use crate::rules::Rules;
use crate::scale::{ScaleError, least_scale, scaled_entries};
use std::alloc::{AllocError, Global};

/// A point of the plane. In a table of places with a scale, a coordinate `c` represents `c / 10^scale`.
#[derive(Clone, Copy, Debug, PartialEq, Eq)]
pub struct Point {
    pub x: i64,
    pub y: i64,
}

/// Places, each a name with a point.
#[derive(Debug, Drop)]
pub struct PlaceTable {
    pub names: Vec<String>,
    pub scale: usize,
    pub points: Vec<Point>,
}

/// Reads places with coordinates from a text in CSV, and each number exactly, or rounded if the rules require it.
///
/// The first record is `name,x,y`, in upper or lower case; each further one has a name and two numbers. There are 1 to
/// 256 names, none empty, and no two that differ only in case and blanks. All numbers are multiplied by the least power
/// of ten that makes them whole, and are then from -10^9 to 10^9. No two places are at the same point.
pub fn read_places(alloc: Global, text: &[u8], rules: Rules) -> Result<PlaceTable, TableError>
    ensures text { IfOk result (λ t. IsPlacesText rules text.now (map string_bytes t.names.items) t.scale t.points.items) }
    ensures points { IfOk result (λ t. AreNamedPoints (map string_bytes t.names.items) t.points.items) }
{
    let records = read_records(alloc, text)?;
    let Some((head, rows)) = records.split_first() else {
        return Err(TableError::NoHead {
            head: "name,x,y",
            item: "place",
        });
    };
    check_head(alloc, text, head, "name", "x", "y", "place")?;
    let names = read_first_names(alloc, text, rows)?;
    check_unlike(alloc, &names)?;
    let mark = mark_of_table(alloc, text, rules.decimal_mark, rows, 1, 3)?;
    let reading = Reading {
        mark,
        round: rules.round,
        is_square: false,
    };
    let decimals = read_rows(alloc, text, rows, &names, 2, reading)?;
    let scale = least_scale(&decimals);
    let entries = match scaled_entries(alloc, &decimals, scale) {
        Ok(entries) => entries,
        Err(ScaleError::TooLarge(i)) => return Err(too_large(alloc, text, rows, &names, 2, i)),
        Err(ScaleError::OutOfMemory) => return Err(TableError::OutOfMemory),
    };
    let points = points_of(alloc, &entries, names.len())?;
    check_apart(&names, &points)?;
    Ok(PlaceTable {
        points,
        names,
        scale,
    })
}

/// Checks that no two places are at one point.
fn check_apart(names: &[String], points: &[Point]) -> Result<(), TableError>
    requires { length names.now ≡ length points.now }
    ensures { OnOk result (AreApart points.now) }
{
    for k in 0..points.len() {
        if let Some(j) = same_before(points, k) {
            return Err(TableError::SamePoint {
                first: names[j].clone()?,
                second: names[k].clone()?,
            });
        }
    }
    Ok(())
}

/// The number of a point before the one of number `k` that is the same.
fn same_before(points: &[Point], k: usize) -> Option<usize>
    requires { k < length points.now }
    ensures { MatchOption result ((j : ℕ) → j < k → point_at points.now j ≢ point_at points.now k) (λ j. j < k) }
{
    for j in 0..k {
        if points[j] == points[k] {
            return Some(j);
        }
    }
    None
}

/// The points whose coordinates these are, in sequence, x before y.
fn points_of(alloc: Global, coordinates: &[i64], count: usize) -> Result<Vec<Point>, AllocError>
    requires many { length coordinates.now ≡ count * 2 }
    requires few { count ≤ 256 }
    ensures { IfOk result (λ v. coordinates_of v.items ≡ coordinates.now) }
{
    let mut points = Vec::new(alloc);
    for k in 0..count {
        let point = Point {
            x: coordinates[2 * k],
            y: coordinates[2 * k + 1],
        };
        points.push(point)?;
    }
    Ok(points)
}
