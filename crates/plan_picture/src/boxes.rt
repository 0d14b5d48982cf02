//! The boxes of places.

ghost use Rattle.std.specs.Prelude.{◌≡◌, ◌<◌, ◌≤◌, ◌==◌, ◌++◌, [], IfOk, length, map, slice_index_or, string_bytes, unwrap_or};
ghost use Rattle.std.specs.List.{list_any};
ghost use Rattle.std.specs.Option.{option_map};
ghost use Rattle.plan_file.specs.Tables.{HasSizes};
ghost use Rattle.plan_picture.specs.Drawing.{IsPlace, department_at, department_style, place_style, style_of};
ghost use Rattle.plan_picture.specs.Joining.{IsJoinedTo};
ghost use Rattle.plan_picture.specs.Marks.{box_mark};

use crate::layout::{BoxSize, Centre};
use crate::naming::{Names, names_text};
use plan_file::NamedProblem;
use qap_cost::Perm;
use std::alloc::{AllocError, Global};

/// The greatest number of columns of a line in a box.
pub const MAX_COLUMNS: usize = 20;

/// A box for each place.
pub fn boxes_text(
    alloc: Global,
    problem: &NamedProblem,
    permutation: &Perm,
    centres: &[Centre],
    size: BoxSize,
) -> Result<Vec<u8>, AllocError>
    requires sizes { HasSizes problem.now }
    requires same_size { length permutation.now ≡ problem.now.instance.size }
    requires each { length centres.now ≡ length problem.now.places.items }
    ensures { IfOk result (λ text. IsJoinedTo (IsPlace problem.now permutation.now centres.now size) (length problem.now.places.items) text.items) }
{
    let mut text = Vec::new(alloc);
    for k in 0..problem.places.len() {
        let place = place_text(alloc, problem, permutation, centres, size, k)?;
        text.extend_from_slice(&place)?;
    }
    Ok(text)
}

/// The box of a place, with the names of its department and its own.
fn place_text(
    alloc: Global,
    problem: &NamedProblem,
    permutation: &Perm,
    centres: &[Centre],
    size: BoxSize,
    k: usize,
) -> Result<Vec<u8>, AllocError>
    requires sizes { HasSizes problem.now }
    requires same_size { length permutation.now ≡ problem.now.instance.size }
    requires each { length centres.now ≡ length problem.now.places.items }
    requires k { k < length problem.now.places.items }
    ensures { IfOk result (λ text. IsPlace problem.now permutation.now centres.now size k text.items) }
{
    let centre = &centres[k];
    let department = department_at(&problem.departments, permutation.locations(), k);
    let style = style_of(is_among(problem.fixed.places(), k), department.is_some());
    let names = Names {
        first: name_or_none(department),
        first_style: department_style(),
        second: name_of(&problem.places, k),
        second_style: place_style(),
    };
    let box_line = box_line(alloc, centre, size, style)?;
    let mut text = box_line.into_bytes();
    text.extend_from_slice(&names_text(alloc, centre, &names, MAX_COLUMNS)?)?;
    Ok(text)
}

/// The name of a department, if there is one; else nothing.
fn name_or_none<'a>(department: Option<&'a str>) -> &'a str
    ensures { result.now ≡ unwrap_or (option_map (λ name. name.now) department.entry) [] }
{
    match department {
        Some(name) => name,
        None => "",
    }
}

/// How the name of a department is drawn.
fn department_style() -> &'static str
    ensures { result.now ≡ department_style }
{
    "text-anchor=\"middle\" font-size=\"13\" font-weight=\"bold\""
}

/// How the name of a place is drawn.
fn place_style() -> &'static str
    ensures { result.now ≡ place_style }
{
    "text-anchor=\"middle\" font-size=\"12\" fill=\"#666666\""
}

/// The name of a place.
fn name_of(places: &[String], k: usize) -> &str
    requires { k < length places.now }
    ensures { result.now ≡ slice_index_or (map string_bytes places.now) k [] }
{
    places[k].as_str()
}

/// The department at a place, if any.
fn department_at<'a>(departments: &'a [String], locations: &[u16], k: usize) -> Option<&'a str>
    requires { length departments.now ≤ length locations.now }
    ensures { option_map (λ name. name.now) result ≡ department_at (map string_bytes departments.now) locations.now k }
{
    for (i, department) in departments.iter().enumerate() {
        if usize::from(locations[i]) == k {
            return Some(department.as_str());
        }
    }
    None
}

/// Whether a number is among others.
fn is_among(places: &[u16], k: usize) -> bool
    ensures { result ≡ list_any (λ l. k == l) places.now }
{
    places.iter().any(|place| k == usize::from(*place))
}

/// How the box of a place is drawn: dashed where it stays empty, and with a thick edge where its department is fixed.
fn style_of(is_fixed: bool, is_taken: bool) -> &'static str
    ensures { result.now ≡ style_of is_fixed is_taken }
{
    if is_fixed {
        "fill=\"#fff3d6\" stroke=\"#7a5b00\" stroke-width=\"3\""
    } else if is_taken {
        "fill=\"#eef3f9\" stroke=\"#333333\""
    } else {
        "fill=\"#ffffff\" stroke=\"#999999\" stroke-dasharray=\"5 4\""
    }
}

/// A box around a centre.
fn box_line(
    alloc: Global,
    centre: &Centre,
    size: BoxSize,
    style: &str,
) -> Result<String, AllocError>
    ensures { IfOk result (λ line. string_bytes line ≡ box_mark centre.now size style.now) }
{
    let x = centre.x.saturating_sub(size.width / 2);
    let y = centre.y.saturating_sub(size.height / 2);
    let (width, height) = (size.width, size.height);
    format!(in alloc;
        "<rect x=\"{x}\" y=\"{y}\" width=\"{width}\" height=\"{height}\" rx=\"5\" {style}/>\n"
    )
}
