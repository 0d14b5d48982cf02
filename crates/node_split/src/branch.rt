//! On which facility or location a node is split.

ghost use Rattle.std.specs.Prelude.{◌≡◌, ◌<◌, length};
ghost use Rattle.subtree_search.specs.Lines.{IsLineOf, column_on, row_on};
ghost use Rattle.node_split.specs.Branch.{line_of, marks_on};
ghost use Rattle.node_split.specs.Evaluation.{AreInRange};

use crate::evaluation::Evaluation;
use std::alloc::Global;

/// What a node is split on: a free facility, which is put at each free location, or a free location, to which each free
/// facility is assigned; by its index among the free ones.
#[derive(Clone, Copy, Debug)]
pub(crate) enum Branch {
    Facility(usize),
    Location(usize),
}

impl Branch {
    /// The row of child `k`: the index of its facility among the free ones.
    pub(crate) fn row(self, k: usize) -> usize
        ensures { result ≡ row_on (line_of self) k }
    {
        match self {
            Branch::Facility(own) => own,
            Branch::Location(_) => k,
        }
    }

    /// The column of child `k`: the index of its location among the free ones.
    pub(crate) fn column(self, k: usize) -> usize
        ensures { result ≡ column_on (line_of self) k }
    {
        match self {
            Branch::Facility(_) => k,
            Branch::Location(own) => own,
        }
    }
}

/// For each free facility, and for each free location, whether it is an image of an earlier one; and the indices of the
/// permutations that were tried.
#[derive(Drop)]
pub(crate) struct MarkLists {
    pub(crate) facilities: Vec<bool>,
    pub(crate) locations: Vec<bool>,
    pub(crate) fixing: Vec<usize>,
}

impl MarkLists {
    /// No marks.
    pub(crate) fn new(alloc: Global) -> MarkLists {
        MarkLists {
            facilities: Vec::new(alloc),
            locations: Vec::new(alloc),
            fixing: Vec::new(alloc),
        }
    }

    /// The marks of the children on a branch.
    pub(crate) fn on(&self, branch: Branch) -> &[bool]
        ensures { result.now ≡ marks_on self.now branch }
    {
        match branch {
            Branch::Facility(_) => &self.locations,
            Branch::Location(_) => &self.facilities,
        }
    }
}

/// The branch whose children's reduced costs have the greatest sum, each counted at most as the gap between the
/// node's bound and the incumbent's cost, and those of symmetric children as the gap; of equal ones the first,
/// facilities before locations.
pub(crate) fn widest(here: &Evaluation, marks: &MarkLists, gap: i128) -> Branch
    requires range { AreInRange here.now }
    requires some { 0 < here.now.matrix.size }
    requires facilities { length marks.now.facilities.items ≡ here.now.matrix.size }
    requires locations { length marks.now.locations.items ≡ here.now.matrix.size }
    ensures { IsLineOf here.now.matrix.size (line_of result) }
{
    let mut best = Branch::Facility(0);
    let mut greatest = i128::MIN;
    for own in 0..here.matrix.size() {
        let branch = Branch::Facility(own);
        let width = width_of(here, branch, &marks.locations, gap);
        if width > greatest {
            best = branch;
            greatest = width;
        }
    }
    for own in 0..here.matrix.size() {
        let branch = Branch::Location(own);
        let width = width_of(here, branch, &marks.facilities, gap);
        if width > greatest {
            best = branch;
            greatest = width;
        }
    }
    best
}

/// What the children of a branch count together.
fn width_of(here: &Evaluation, branch: Branch, images: &[bool], gap: i128) -> i128
    requires range { AreInRange here.now }
    requires branch { IsLineOf here.now.matrix.size (line_of branch) }
    requires images { length images.now ≡ here.now.matrix.size }
{
    let mut width = 0i128;
    for k in 0..images.len() {
        let reduced = reduced_on(here, branch, k);
        let counted = if images[k] { gap } else { reduced.min(gap) };
        width = width.wrapping_add(counted);
    }
    width
}

/// The reduced cost of child `k`.
fn reduced_on(here: &Evaluation, branch: Branch, k: usize) -> i128
    requires range { AreInRange here.now }
    requires branch { IsLineOf here.now.matrix.size (line_of branch) }
    requires k_in { k < here.now.matrix.size }
{
    match branch {
        Branch::Facility(row) => here.reduced(row, k),
        Branch::Location(column) => here.reduced(k, column),
    }
}
