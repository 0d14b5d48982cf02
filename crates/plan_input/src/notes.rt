//! How a plan's tables were read, and warnings about likely mistakes.

use crate::loading::Loaded;
use plan_charge::{Charges, Forbidden};
use plan_file::NamedProblem;
use plan_table::{Encoding, decimal_text};
use qap_cost::Instance;
use std::alloc::{AllocError, Global};

/// The lines to show beside an answer: how the tables were read, the encodings other than UTF-8, how many departments
/// have costs or forbidden places, and warnings about distances in one direction only and about departments without
/// flow.
pub fn notes_of(alloc: Global, loaded: &Loaded) -> Result<Vec<String>, AllocError> {
    let mut notes = Vec::new(alloc);
    notes.push(summary(alloc, &loaded.problem)?)?;
    push_encoding(alloc, &mut notes, &loaded.flows_file, loaded.flows_encoding)?;
    push_encoding(
        alloc,
        &mut notes,
        &loaded.distances_file,
        loaded.distances_encoding,
    )?;
    if let Some(file) = &loaded.costs_file {
        push_encoding(alloc, &mut notes, file, loaded.costs_encoding)?;
    }
    push_restrictions(alloc, &mut notes, loaded)?;
    if leads_one_way(&loaded.problem.instance) {
        let line =
            "warning: all distances below the diagonal are 0: if the way back is as long, fill in both halves";
        notes.push(String::from_str(alloc, line)?)?;
    }
    push_lone(alloc, &mut notes, &loaded.problem)?;
    Ok(notes)
}

/// Puts after the notes how many departments have costs, and how many have forbidden places.
fn push_restrictions(
    alloc: Global,
    notes: &mut Vec<String>,
    loaded: &Loaded,
) -> Result<(), AllocError> {
    let n = loaded.problem.places.len();
    if loaded.costs_file.is_some() {
        let paying = counted(alloc, paying(&loaded.charges, n), "department")?;
        notes.push(format!(in alloc; "costs of {paying}")?)?;
    }
    let barred = barred(&loaded.forbidden, n);
    if barred != 0 {
        let barred = counted(alloc, barred, "department")?;
        notes.push(format!(in alloc; "forbidden places of {barred}")?)?;
    }
    Ok(())
}

/// How many departments pay for a place.
fn paying(charges: &Charges, n: usize) -> usize {
    let mut count: usize = 0;
    for row in charges.entries.chunks(n.max(1)) {
        if row.iter().any(|entry| *entry != 0) {
            count = count.saturating_add(1);
        }
    }
    count
}

/// How many departments may not take each place.
fn barred(forbidden: &Forbidden, n: usize) -> usize {
    let mut count: usize = 0;
    for row in forbidden.cells.chunks(n.max(1)) {
        if row.contains(&true) {
            count = count.saturating_add(1);
        }
    }
    count
}

/// How many departments, places and flows there are, what the flows sum to, and whether they are symmetric.
fn summary(alloc: Global, problem: &NamedProblem) -> Result<String, AllocError> {
    let n = problem.instance.size();
    let mut flows: usize = 0;
    let mut total: i128 = 0;
    let mut is_symmetric = true;
    for i in 0..n {
        for j in 0..n {
            let flow = problem.instance.a(i, j);
            if flow != 0 {
                flows = flows.saturating_add(1);
            }
            total = total.wrapping_add(i128::from(flow));
            is_symmetric = is_symmetric && flow == problem.instance.a(j, i);
        }
    }
    let departments = counted(alloc, problem.departments.len(), "department")?;
    let places = counted(alloc, problem.places.len(), "place")?;
    let flows = counted(alloc, flows, "flow")?;
    let symmetric = if is_symmetric {
        "symmetric"
    } else {
        "not symmetric"
    };
    let total = grouped(alloc, total, problem.flow_scale)?;
    format!(in alloc; "{departments}, {places}, {flows}, total {total}; flows {symmetric}")
}

/// A number with a word, to which an s is added unless the number is 1.
fn counted(alloc: Global, count: usize, word: &str) -> Result<String, AllocError> {
    let end = if count == 1 { "" } else { "s" };
    format!(in alloc; "{count} {word}{end}")
}

/// A decimal number with a comma before each three digits of its whole part.
fn grouped(alloc: Global, number: i128, places: usize) -> Result<String, AllocError> {
    let text = decimal_text(alloc, number, places.min(100))?;
    let whole = text
        .iter()
        .position(|byte| *byte == b'.')
        .unwrap_or(text.len());
    let mut shown = String::new(alloc);
    for (k, byte) in text.iter().enumerate() {
        let left = whole.saturating_sub(k);
        if k > 0 && left > 0 && left % 3 == 0 && text.get(k.wrapping_sub(1)) != Some(&b'-') {
            shown.push(',')?;
        }
        shown.push(char::from(*byte))?;
    }
    Ok(shown)
}

fn push_encoding(
    alloc: Global,
    notes: &mut Vec<String>,
    file: &str,
    encoding: Encoding,
) -> Result<(), AllocError> {
    let name = match encoding {
        Encoding::Utf8 => return Ok(()),
        Encoding::Utf16 => "UTF-16",
        Encoding::Windows1252 => "Windows-1252",
    };
    notes.push(format!(in alloc; "note: {file}: read as {name}")?)?;
    Ok(())
}

/// Whether all distances below the diagonal are 0 and some above it are not.
fn leads_one_way(instance: &Instance) -> bool {
    let n = instance.size();
    let is_empty = |row: usize, from: usize, to: usize| (from..to).all(|l| distance(
        instance, row, l,
    ) == 0);
    (0..n).all(|k| is_empty(k, 0, k)) && !(0..n).all(|k| is_empty(k, k.wrapping_add(1), n))
}

fn distance(instance: &Instance, k: usize, l: usize) -> i64 {
    let n = instance.size();
    if k < n && l < n { instance.b(k, l) } else { 0 }
}

/// Puts a warning after the notes where departments have no flow.
fn push_lone(
    alloc: Global,
    notes: &mut Vec<String>,
    problem: &NamedProblem,
) -> Result<(), AllocError> {
    let mut names = String::new(alloc);
    for (i, name) in problem.departments.iter().enumerate() {
        if is_lone(&problem.instance, i) {
            if !names.is_empty() {
                names.push_str(", ")?;
            }
            names.push_str(name.as_str())?;
        }
    }
    if !names.is_empty() {
        notes.push(format!(in alloc; "warning: no flow from or to: {names}")?)?;
    }
    Ok(())
}

/// Whether a department has no flow from or to another one.
fn is_lone(instance: &Instance, i: usize) -> bool {
    let n = instance.size();
    i < n && (0..n).all(|j| j == i || j >= n || instance.a(i, j) == 0 && instance.a(j, i) == 0)
}
