//! Augments along the shortest path, which assigns the new row a column.

ghost use Rattle.std.specs.Prelude.{◌≡◌, ℕ, ◌+◌, ◌<◌, ◌≤◌, List, length, slice_index, Option, None};
ghost use Rattle.assign_dual.specs.Partial.{IsMatching};
ghost use Rattle.assign_dual.specs.Steps.{Augments, IsPath};

/// Gives each row on the path from the root to the free column at place `done` the column that it reaches.
pub fn augment(
    columns: &[usize],
    tree_rows: &[usize],
    origins: &[usize],
    done: usize,
    matching: &mut [u16],
    row_of: &mut [Option<usize>],
)
    requires small { length columns.now ≤ 256 }
    requires path { IsPath columns.now tree_rows.now origins.now done row_of.old }
    requires matches { IsMatching (length columns.now) (slice_index tree_rows.now 0) matching.old row_of.old }
    requires root { slice_index tree_rows.now 0 < length columns.now }
    ensures matches { IsMatching (length columns.now) (slice_index tree_rows.now 0 + 1) matching.new row_of.new }
    ensures moves { Augments (slice_index tree_rows.now 0) columns.now tree_rows.now origins.now done matching.old matching.new row_of.old row_of.new }
{
    let mut column = columns[done];
    let mut place = origins[column];
    while place > 0 {
        let row = tree_rows[place];
        matching[row] = column as u16;
        row_of[column] = Some(row);
        column = columns[place - 1];
        place = origins[column];
    }
    let root = tree_rows[0];
    matching[root] = column as u16;
    row_of[column] = Some(root);
}
