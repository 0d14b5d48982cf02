//! What a search stores of a node on its path.

ghost use Rattle.std.specs.Prelude.{◌≡◌, ◌^◌, ◌≤◌, IfOk, OnOk, false, length, unsigned_abs};
ghost use Rattle.qap_cost.specs.Range.{AllWithin};
ghost use Rattle.pair_duals.specs.Reduced.{IsLine, count_of};
ghost use Rattle.subtree_search.specs.Closed.{HasLeast};
ghost use Rattle.subtree_search.specs.Premises.{limits_of_64};

use crate::path::Path;
use assign_dual::{Assigner, Matching};
use pair_duals::Reduced;
use qap_cost::{Partial, Perm};
use qap_symmetry::Table;
use std::alloc::{AllocError, Global};

/// How far from 0 a number of a line may lie: 2^45.
const MOST: i64 = 35_184_372_088_832;

/// The form of a node, and what is found of its assignments.
#[derive(Drop)]
pub(crate) struct Level {
    pub form: Reduced<i64>,
    u: Vec<i64>,
    v: Vec<i64>,
    matching: Matching,
    assigner: Assigner,
    kept_flows: Vec<u16>,
    kept_distances: Vec<u16>,
}

impl Level {
    /// With no rows, and lists for nodes with at most `n` free facilities.
    pub fn with_size(alloc: Global, n: usize) -> Result<Level, AllocError> {
        Ok(Level {
            form: Reduced::empty(alloc),
            u: Vec::with_capacity(alloc, n)?,
            v: Vec::with_capacity(alloc, n)?,
            matching: Matching::with_size(alloc, n)?,
            assigner: Assigner::with_size(alloc, n)?,
            kept_flows: Vec::new(alloc),
            kept_distances: Vec::new(alloc),
        })
    }

    /// Begins again at a node: no row and column belong together, and the permutations are kept that fix what it places
    /// and move something.
    pub fn begin(
        &mut self,
        node: &Partial,
        flows: &[Perm],
        distances: &[Perm],
    ) -> Result<(), AllocError>
        ensures { self.new.form ≡ self.old.form }
    {
        self.matching.clear();
        keep(&mut self.kept_flows, flows, node.facilities())?;
        keep(&mut self.kept_distances, distances, node.places())
    }

    /// Takes from the parent that puts row `h` at column `g` which rows and columns belong together, and keeps those of
    /// its permutations that leave alone what is placed last.
    pub fn inherit(
        &mut self,
        parent: &Level,
        h: usize,
        g: usize,
        flows: &[Perm],
        distances: &[Perm],
        path: &Path,
    ) -> Result<(), AllocError>
        ensures { self.new.form ≡ self.old.form }
    {
        let m = parent.form.free();
        self.matching.copy_without(&parent.matching, m, h, g);
        let (facilities, places) = (path.taken(Table::Flows), path.taken(Table::Distances));
        keep_some(&mut self.kept_flows, &parent.kept_flows, flows, facilities)?;
        keep_some(
            &mut self.kept_distances,
            &parent.kept_distances,
            distances,
            places,
        )
    }

    /// The kept permutations of the facilities or of the locations, by number.
    pub fn kept(&self, table: Table) -> &[u16] {
        match table {
            Table::Flows => &self.kept_flows,
            Table::Distances => &self.kept_distances,
        }
    }

    /// The numbers of rows: of the last trivial test, or of the line that was drawn.
    pub fn u(&self) -> &[i64]
        ensures { result.now ≡ self.now.u.items }
    {
        &self.u
    }

    /// Whether the value with the least numbers of rows and columns is above the threshold.
    pub fn closes_trivially(&mut self, threshold: i128) -> Result<bool, AllocError>
        ensures form { self.new.form ≡ self.old.form }
        ensures least { IfOk result (HasLeast self.old.form threshold) }
    {
        let m = self.form.free();
        self.u.resize(m, 0)?;
        self.v.resize(m, 0)?;
        let closes = self
            .form
            .closes_trivially(threshold, &mut self.u, &mut self.v);
        Ok(closes)
    }

    /// Applies a line with the duals of a least assignment, which are computed from those of the last trivial test, and
    /// only as far as needed to exceed the threshold.
    pub fn draw_line(&mut self, threshold: i128) -> Result<(), AllocError>
        requires { self.old.form.is_lined ≡ false }
        ensures count { OnOk result (length self.new.u.items ≡ count_of self.old.form) }
        ensures range { OnOk result (AllWithin limits_of_64.dual self.new.u.items) }
        ensures line { OnOk result (IsLine self.old.form self.new.form self.new.u.items self.new.v.items) }
    {
        let m = self.form.free();
        self.u.resize(m, 0)?;
        self.v.resize(m, 0)?;
        self.assign(threshold);
        limit(&mut self.u);
        self.form.line(&self.u, &mut self.v);
        Ok(())
    }

    /// Makes the numbers of rows and columns the duals of a least assignment.
    fn assign(&mut self, threshold: i128)
        ensures form { self.new.form ≡ self.old.form }
        ensures rows { length self.new.u.items ≡ length self.old.u.items }
        ensures columns { length self.new.v.items ≡ length self.old.v.items }
    {
        let enough = gap_to(&self.form, threshold);
        let _ = self.assigner.solve_from(
            self.form.entries(),
            &mut self.matching,
            &mut self.u,
            &mut self.v,
            enough,
        );
    }
}

/// Makes the list the numbers of the permutations that fix what is taken, and move something.
fn keep(list: &mut Vec<u16>, permutations: &[Perm], taken: &[u16]) -> Result<(), AllocError> {
    list.clear();
    for (index, permutation) in permutations.iter().enumerate() {
        if let Ok(number) = u16::try_from(index)
            && moves(permutation.locations())
            && leaves_alone(permutation.locations(), taken)
        {
            list.push(number)?;
        }
    }
    Ok(())
}

/// Whether a permutation moves something.
fn moves(locations: &[u16]) -> bool {
    for (i, location) in locations.iter().enumerate() {
        if usize::from(*location) != i {
            return true;
        }
    }
    false
}

/// Whether a permutation leaves each of these alone.
fn leaves_alone(locations: &[u16], taken: &[u16]) -> bool {
    for number in taken {
        if locations.get(usize::from(*number)) != Some(number) {
            return false;
        }
    }
    true
}

/// Makes the list the numbers among the parent's of the permutations that leave alone the last of these.
fn keep_some(
    list: &mut Vec<u16>,
    parent: &[u16],
    permutations: &[Perm],
    taken: &[u16],
) -> Result<(), AllocError> {
    list.clear();
    let Some(last) = taken.last() else {
        return Ok(());
    };
    for index in parent {
        if let Some(permutation) = permutations.get(usize::from(*index))
            && permutation.locations().get(usize::from(*last)) == Some(last)
        {
            list.push(*index)?;
        }
    }
    Ok(())
}

/// How far the value of a form lies below the threshold.
pub(crate) fn gap_to(form: &Reduced<i64>, threshold: i128) -> i64 {
    let gap = threshold.saturating_sub(form.value());
    match i64::try_from(gap) {
        Ok(gap) => gap,
        Err(_) => i64::MAX,
    }
}

/// Makes each number the nearest one within the limits of a line.
fn limit(numbers: &mut [i64])
    ensures { AllWithin limits_of_64.dual numbers.new }
{
    for number in numbers.iter_mut() {
        *number = limited(*number);
    }
}

/// The nearest number within them.
fn limited(number: i64) -> i64
    ensures { unsigned_abs result ≤ 2 ^ 45 }
{
    number.max(-MOST).min(MOST)
}
