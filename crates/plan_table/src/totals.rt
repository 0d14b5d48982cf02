//! Rows and columns of totals, which spreadsheets add to a table.

use crate::alike::folded_name;
use crate::error::TableError;
use std::alloc::Global;

/// What such a row is called, in small letters and without blanks.
const WORDS: [&str; 12] = [
    "total",
    "totals",
    "grandtotal",
    "sum",
    "sums",
    "summe",
    "gesamt",
    "gesamtsumme",
    "somme",
    "suma",
    "totale",
    "totaal",
];

/// Checks that no row and column of a square matrix are named as a total and are the sums of the others. This rejects
/// what is hardly ever intended; nothing else depends on it.
pub fn check_no_total(alloc: Global, names: &[String], entries: &[i64]) -> Result<(), TableError> {
    for (i, name) in names.iter().enumerate() {
        let key = folded_name(alloc, name.as_str())?;
        if is_total(&key) && are_sums(entries, names.len(), i) {
            return Err(TableError::Total {
                name: name.clone()?,
            });
        }
    }
    Ok(())
}

fn is_total(key: &[u8]) -> bool {
    WORDS.iter().any(|word| word.as_bytes() == key)
}

/// Whether row `i` and column `i` are the sums of the others, and there are two others at least.
fn are_sums(entries: &[i64], n: usize, i: usize) -> bool {
    n > 2 && (0..n).all(|j| j == i || is_sum(entries, n, i, j))
}

/// Whether row `i` in column `j`, and column `i` in row `j`, are the sums of the others.
fn is_sum(entries: &[i64], n: usize, i: usize, j: usize) -> bool {
    let mut down: i64 = 0;
    let mut across: i64 = 0;
    for k in 0..n {
        if k != i {
            down = down.wrapping_add(entry(entries, n, k, j));
            across = across.wrapping_add(entry(entries, n, j, k));
        }
    }
    entry(entries, n, i, j) == down && entry(entries, n, j, i) == across
}

fn entry(entries: &[i64], n: usize, i: usize, j: usize) -> i64 {
    let place = i.wrapping_mul(n).wrapping_add(j);
    entries.get(place).copied().unwrap_or(0)
}
