//! The legend of a picture.

ghost use Rattle.std.specs.Prelude.{◌≡◌, [], IfOk, if◌then◌else◌, string_bytes};
ghost use Rattle.plan_picture.specs.Legend.{empty_line, fixed_line, flow_lines, legend_head, legend_text, scale_line};

use crate::parts::joined;
use std::alloc::{AllocError, Global};

/// What the marks of a picture mean, below this height; what is fixed, what stays empty, and that the picture is not to
/// scale, only where it applies.
pub fn legend_text(
    alloc: Global,
    is_fixed: bool,
    is_spare: bool,
    is_scaled: bool,
    y: u32,
) -> Result<Vec<u8>, AllocError>
    ensures { IfOk result (λ text. text.items ≡ legend_text is_fixed is_spare is_scaled y) }
{
    let head = legend_head(alloc, y)?;
    joined(
        alloc,
        &[
            head.as_bytes(),
            flow_lines(),
            fixed_line(is_fixed),
            empty_line(is_spare),
            scale_line(is_scaled),
            b"</text>\n",
        ],
    )
}

/// What precedes the lines.
fn legend_head(alloc: Global, y: u32) -> Result<String, AllocError>
    ensures { IfOk result (λ head. string_bytes head ≡ legend_head y) }
{
    format!(in alloc; "<text y=\"{y}\" font-size=\"12\" fill=\"#555555\">\n")
}

/// The lines of the flows.
fn flow_lines() -> &'static [u8]
    ensures { result.now ≡ flow_lines }
{
    b"<tspan x=\"28\" dy=\"18\"><tspan fill=\"#c2571a\">&#9644;</tspan> the costliest pairs, wider where they cost more</tspan>\n<tspan x=\"28\" dy=\"18\"><tspan fill=\"#8fb0d3\">&#9644;</tspan> all flows, wider where they are larger</tspan>\n"
}

/// The line of what is fixed.
fn fixed_line(is_fixed: bool) -> &'static [u8]
    ensures { result.now ≡ (if is_fixed then fixed_line else []) }
{
    if is_fixed {
        b"<tspan x=\"28\" dy=\"18\"><tspan fill=\"#7a5b00\">&#9632;</tspan> fixed</tspan>\n"
    } else {
        b""
    }
}

/// The line of what stays empty.
fn empty_line(is_spare: bool) -> &'static [u8]
    ensures { result.now ≡ (if is_spare then empty_line else []) }
{
    if is_spare {
        b"<tspan x=\"28\" dy=\"18\"><tspan fill=\"#777777\">&#9633;</tspan> stays empty</tspan>\n"
    } else {
        b""
    }
}

/// The line that the picture is not to scale.
fn scale_line(is_scaled: bool) -> &'static [u8]
    ensures { result.now ≡ (if is_scaled then [] else scale_line) }
{
    if is_scaled {
        b""
    } else {
        b"<tspan x=\"28\" dy=\"18\">not to scale</tspan>\n"
    }
}
