//! What a search on parts needs regardless of the node.

ghost use Rattle.std.specs.Prelude.{◌≡◌, ◌<◌, ◌≤ℤ◌, ◌<ℤ◌, ◌*ℤ◌, ℕ, ℤ, pos, All, IfOk, IfSome, MatchOption, length, map};
ghost use Rattle.std.specs.Arc.{arc_value};
ghost use Rattle.dual_ascent.specs.AscentRange.{HasRange};
ghost use Rattle.qap_cost.specs.Instance.{IsInstance, Problem};
ghost use Rattle.pair_duals.specs.PairDuals.{AreOf, Fit};
ghost use Rattle.subtree_search.specs.Best.{IsIncumbent};
ghost use Rattle.subtree_search.specs.Opens.{IsOpen, IsSettled, node_of};
ghost use Rattle.part_search.specs.Ground.{IsChildValue, IsFreeChild, IsKnown, IsParent, IsSplitter, StandFor};
ghost use Rattle.part_search.specs.Tuples.{open_of};

use crate::aid::{Aid, Alone};
use crate::open_node::Open;
use dual_ascent::{Effort, ascend_softly, has_range};
use gilmore_lawler::RankedInstance;
use node_split::NodeSplit;
use pair_duals::{PairDuals, cost_step};
use qap_cost::{Instance, Partial, Perm};
use qap_symmetry::{Table, symmetries_of};
use std::alloc::{AllocError, Global};
use std::marker::Model;
use std::sync::Arc;
use subtree_search::{
    Estimate, Incumbent, Never, OpenChild, Record, Subtree, SubtreeSearch, TextRecord,
};

/// An instance with the symmetries of its matrices, and the bounds by which its nodes are split. It is seen as the instance.
#[derive(Drop)]
pub struct Ground {
    instance: Instance,
    flows: Vec<Perm>,
    distances: Vec<Perm>,
    bounds: Bounds,
}

impl Model for Ground {
    ghost use Rattle.qap_cost.specs.Instance.{Problem};
    ghost use Rattle.part_search.specs.Ground.{IsGround};

    ghost Value = { Problem };

    ghost view = { λ g. g.instance };

    ghost invariant = { λ g. IsGround g.instance g.flows.items g.distances.items g.bounds };
}

/// The bounds by which nodes are split.
#[derive(Drop)]
pub(crate) enum Bounds {
    /// Those of pair duals, which start from these of the root.
    Duals(RootDuals),
    /// Those of Gilmore and Lawler, from the sorted rows of the instance.
    Rows(Arc<RankedInstance>),
}

/// Pair duals of the root, the scale of those of other nodes, and the cost step of the instance.
#[derive(Drop)]
pub(crate) struct RootDuals {
    pub(crate) step: i128,
    pub(crate) scale: u32,
    pub(crate) duals: PairDuals<i64>,
}

/// What a worker splits nodes with, in memory that is kept from one node to the next.
#[derive(Drop)]
pub(crate) struct Splitter {
    pub(crate) search: SubtreeSearch,
    pub(crate) rows: Option<NodeSplit>,
}

impl Splitter {
    /// One that has no memory yet.
    pub(crate) fn new(alloc: Global) -> Splitter
        ensures { (I : Problem) → IsSplitter I result }
    {
        Splitter {
            search: SubtreeSearch::new(alloc),
            rows: None,
        }
    }
}

impl Ground {
    /// What searches below a root need, with pair duals of this scale, found at the root with this effort. `None` if the
    /// instance is out of range for that scale.
    pub fn new(
        alloc: Global,
        instance: &Instance,
        root: &Partial,
        scale: u32,
        effort: &Effort,
    ) -> Result<Option<Ground>, AllocError>
        requires { instance.now.size ≡ root.now.size }
        ensures { IfOk result (λ found. MatchOption found (HasRange instance.now scale → ⊥) (λ (I : Problem). I ≡ instance.now)) }
    {
        if !has_range(instance, scale) {
            return Ok(None);
        }
        let duals = ascend_softly(alloc, instance, root, None, effort, scale)?;
        let flows = symmetries_of(alloc, instance, Table::Flows)?;
        let distances = symmetries_of(alloc, instance, Table::Distances)?;
        let step = cost_step(instance);
        Ok(Some(Ground {
            instance: instance.copy()?,
            flows: flows.permutations,
            distances: distances.permutations,
            bounds: Bounds::Duals(RootDuals { step, scale, duals }),
        }))
    }

    /// What searches of an instance of any size and with any entries need: nodes are split by the bounds of Gilmore and
    /// Lawler. The only error is out of memory.
    pub fn by_rows(alloc: Global, instance: &Instance) -> Result<Ground, AllocError>
        ensures { IfOk result (λ (I : Problem). I ≡ instance.now) }
    {
        let ranked = Arc::new(alloc, RankedInstance::new(alloc, instance)?)?;
        let flows = symmetries_of(alloc, instance, Table::Flows)?;
        let distances = symmetries_of(alloc, instance, Table::Distances)?;
        Ok(Ground {
            instance: instance.copy()?,
            flows: flows.permutations,
            distances: distances.permutations,
            bounds: Bounds::Rows(ranked),
        })
    }

    /// The instance.
    pub fn instance(&self) -> &Instance
        ensures value { result.now ≡ self.now }
        ensures instance { IsInstance self.now }
    {
        self.instance.instance_law();
        &self.instance
    }

    /// Splits an open node by its bounds; the children that remain open cover it at the cost of the incumbent. A split by pair
    /// duals is recorded.
    pub(crate) fn split<S: Aid, W: Record>(
        &self,
        alloc: Global,
        splitter: &mut Splitter,
        at: &Open,
        incumbent: &mut Incumbent,
        aid: &S,
        record: &mut W,
    ) -> Result<Vec<Open>, AllocError>
        requires size { at.now.node.size ≡ self.now.size }
        requires splitter { IsSplitter self.now splitter.old }
        requires incumbent { IsIncumbent self.now incumbent.old }
        ensures stand { IfOk result (λ opens. StandFor self.now incumbent.new.cost (open_of at.now) (map open_of opens.items)) }
        ensures splitter { IsSplitter self.now splitter.new }
        ensures incumbent { IsIncumbent self.now incumbent.new }
        ensures no_worse { incumbent.new.cost ≤ℤ incumbent.old.cost }
    {
        let parent = Parent {
            instance: &self.instance,
            flows: &self.flows,
            distances: &self.distances,
            at,
        };
        match &self.bounds {
            Bounds::Duals(known) => {
                let search = &mut splitter.search;
                split_by_duals(alloc, &parent, known, search, incumbent, aid, record)
            }
            Bounds::Rows(ranked) => {
                split_by_rows(alloc, &parent, ranked, &mut splitter.rows, incumbent, aid)
            }
        }
    }

    /// Estimates, by this many random dives, how many nodes one search of the completions of a node evaluates from a
    /// permutation on, under pair duals of that node. `None` if nodes are split by the bounds of Gilmore and Lawler.
    pub fn estimate(
        &self,
        alloc: Global,
        node: &Partial,
        start: Perm,
        dives: u32,
    ) -> Result<Option<Estimate>, AllocError>
        requires size { node.now.size ≡ self.now.size }
        requires start { length start ≡ self.now.size }
    {
        let Bounds::Duals(known) = &self.bounds else {
            return Ok(None);
        };
        let aid = Alone(&Never);
        let duals = duals_at(alloc, &self.instance, node, known, &aid)?;
        let subtree = Subtree {
            instance: &self.instance,
            node,
            duals: &duals,
            step: known.step,
            flows: &self.flows,
            distances: &self.distances,
        };
        let mut incumbent = Incumbent::new(&self.instance, start);
        let found = SubtreeSearch::new(alloc).estimate(&subtree, &mut incumbent, dives)?;
        Ok(Some(found))
    }

    /// Records a node as a leaf that is left open, if nodes are split by pair duals.
    pub(crate) fn leave(
        &self,
        alloc: Global,
        node: &Partial,
        incumbent: &Incumbent,
        record: &mut TextRecord,
    ) -> Result<(), AllocError>
        requires { node.now.size ≡ self.now.size }
    {
        let Bounds::Duals(known) = &self.bounds else {
            return Ok(());
        };
        let aid = Alone(&Never);
        let duals = duals_at(alloc, &self.instance, node, known, &aid)?;
        let subtree = Subtree {
            instance: &self.instance,
            node,
            duals: &duals,
            step: known.step,
            flows: &self.flows,
            distances: &self.distances,
        };
        SubtreeSearch::new(alloc).leave(&subtree, incumbent, record)
    }
}

/// An open node of an instance, with the symmetries of the instance.
#[derive(Clone, Copy)]
pub(crate) struct Parent<'a> {
    pub(crate) instance: &'a Instance,
    pub(crate) flows: &'a [Perm],
    pub(crate) distances: &'a [Perm],
    pub(crate) at: &'a Open,
}

/// Splits an open node under pair duals of its own and tries its children.
fn split_by_duals<S: Aid, W: Record>(
    alloc: Global,
    parent: &Parent<'_>,
    known: &RootDuals,
    search: &mut SubtreeSearch,
    incumbent: &mut Incumbent,
    aid: &S,
    record: &mut W,
) -> Result<Vec<Open>, AllocError>
    requires parent { IsParent parent.now }
    requires known { IsKnown parent.now.instance.now known.now }
    requires incumbent { IsIncumbent parent.now.instance.now incumbent.old }
    ensures stand { IfOk result (λ opens. StandFor parent.now.instance.now incumbent.new.cost (open_of parent.now.at.now) (map open_of opens.items)) }
    ensures incumbent { IsIncumbent parent.now.instance.now incumbent.new }
    ensures no_worse { incumbent.new.cost ≤ℤ incumbent.old.cost }
{
    let node = &parent.at.node;
    let duals = duals_at(alloc, parent.instance, node, known, aid)?;
    let opens = split_under(alloc, parent, known, &duals, search, incumbent, aid, record)?;
    if !opens.is_empty() {
        aid.keep(node, duals)?;
    }
    Ok(opens)
}

/// Pair duals of a node, which start from those that are known of a node above it, or from those of the root.
fn duals_at<S: Aid>(
    alloc: Global,
    instance: &Instance,
    node: &Partial,
    known: &RootDuals,
    aid: &S,
) -> Result<PairDuals<i64>, AllocError>
    requires size { node.now.size ≡ instance.now.size }
    requires range { HasRange instance.now known.now.scale }
    ensures of_node { IfOk result (AreOf node.now) }
    ensures fits { IfOk result (Fit instance.now) }
    ensures range { IfOk result (λ D. HasRange instance.now D.scale) }
{
    let above = aid.start_for(node)?;
    let start = match &above {
        Some(duals) => duals,
        None => &known.duals,
    };
    let effort = Effort::inner();
    ascend_softly(alloc, instance, node, Some(start), &effort, known.scale)
}

/// Splits an open node under these pair duals.
fn split_under<S: Aid, W: Record>(
    alloc: Global,
    parent: &Parent<'_>,
    known: &RootDuals,
    duals: &PairDuals<i64>,
    search: &mut SubtreeSearch,
    incumbent: &mut Incumbent,
    aid: &S,
    record: &mut W,
) -> Result<Vec<Open>, AllocError>
    requires parent { IsParent parent.now }
    requires known { IsKnown parent.now.instance.now known.now }
    requires of_node { AreOf parent.now.at.now.node duals.now }
    requires fit { Fit parent.now.instance.now duals.now }
    requires range { HasRange parent.now.instance.now duals.now.scale }
    requires incumbent { IsIncumbent parent.now.instance.now incumbent.old }
    ensures stand { IfOk result (λ opens. StandFor parent.now.instance.now incumbent.new.cost (open_of parent.now.at.now) (map open_of opens.items)) }
    ensures incumbent { IsIncumbent parent.now.instance.now incumbent.new }
    ensures no_worse { incumbent.new.cost ≤ℤ incumbent.old.cost }
{
    let subtree = Subtree {
        instance: parent.instance,
        node: &parent.at.node,
        duals,
        step: known.step,
        flows: parent.flows,
        distances: parent.distances,
    };
    let children = search.split(&subtree, incumbent, aid, record)?;
    children_of(alloc, parent.at, &children, duals.scale())
}

/// Splits an open node by the bounds of Gilmore and Lawler, with what is kept for that.
fn split_by_rows<S: Aid>(
    alloc: Global,
    parent: &Parent<'_>,
    ranked: &Arc<RankedInstance>,
    kept: &mut Option<NodeSplit>,
    incumbent: &mut Incumbent,
    aid: &S,
) -> Result<Vec<Open>, AllocError>
    requires parent { IsParent parent.now }
    requires ranked { arc_value ranked.now ≡ parent.now.instance.now }
    requires kept { IfSome kept.old (λ (I : Problem). I ≡ parent.now.instance.now) }
    requires incumbent { IsIncumbent parent.now.instance.now incumbent.old }
    ensures stand { IfOk result (λ opens. StandFor parent.now.instance.now incumbent.new.cost (open_of parent.now.at.now) (map open_of opens.items)) }
    ensures kept { IfSome kept.new (λ (I : Problem). I ≡ parent.now.instance.now) }
    ensures incumbent { IsIncumbent parent.now.instance.now incumbent.new }
    ensures no_worse { incumbent.new.cost ≤ℤ incumbent.old.cost }
{
    let mut rows = match kept.take() {
        Some(rows) => rows,
        None => NodeSplit::new(alloc, ranked.clone()?)?,
    };
    let opens = split_in(alloc, parent, &mut rows, incumbent, aid)?;
    *kept = Some(rows);
    Ok(opens)
}

/// Splits an open node so.
fn split_in<S: Aid>(
    alloc: Global,
    parent: &Parent<'_>,
    rows: &mut NodeSplit,
    incumbent: &mut Incumbent,
    aid: &S,
) -> Result<Vec<Open>, AllocError>
    requires parent { IsParent parent.now }
    requires rows { rows.old ≡ parent.now.instance.now }
    requires incumbent { IsIncumbent parent.now.instance.now incumbent.old }
    ensures stand { IfOk result (λ opens. StandFor parent.now.instance.now incumbent.new.cost (open_of parent.now.at.now) (map open_of opens.items)) }
    ensures same { rows.new ≡ rows.old }
    ensures incumbent { IsIncumbent parent.now.instance.now incumbent.new }
    ensures no_worse { incumbent.new.cost ≤ℤ incumbent.old.cost }
{
    let (node, flows, distances) = (&parent.at.node, parent.flows, parent.distances);
    let children = rows.split(node, flows, distances, incumbent, aid)?;
    children_of(alloc, parent.at, &children, 1)
}

/// The open nodes that a split of a node leaves, with their values.
fn children_of(
    alloc: Global,
    at: &Open,
    children: &[OpenChild],
    scale: u32,
) -> Result<Vec<Open>, AllocError>
    requires scale { 0 < scale }
    requires free { All (IsFreeChild at.now.node) children.now }
    ensures { (I : Problem) (c : ℤ) → All (IsOpen I scale at.now.node) children.now → IsSettled I at.now.node c children.now at.now.node →
        IfOk result (λ opens. StandFor I c (open_of at.now) (map open_of opens.items)) }
{
    let mut opens = Vec::with_capacity(alloc, children.len())?;
    for i in 0..children.len() {
        opens.push(child_of(at, &children[i], scale)?)?;
    }
    Ok(opens)
}

/// The open node that a child is.
fn child_of(at: &Open, child: &OpenChild, scale: u32) -> Result<Open, AllocError>
    requires scale { 0 < scale }
    requires free { IsFreeChild at.now.node child.now }
    ensures node { IfOk result (λ o. o.node ≡ node_of at.now.node child.now) }
    ensures value { IfOk result (λ o. IsChildValue at.now.value child.now.value scale o.value) }
{
    let node = at.node.place(child.facility, child.location)?;
    let value = child_value(at.value, child.value, scale);
    Ok(Open { node, value })
}

/// The value of a child of a node with this value, where no completion of the child costs less, scaled, than `scaled`.
fn child_value(parent: i128, scaled: i128, scale: u32) -> i128
    requires { 0 < scale }
    ensures { IsChildValue parent scaled scale result }
{
    match least_cost(scaled, scale) {
        Some(own) => { if parent < own { own } else { parent } }
        None => parent,
    }
}

/// The least whole number that is at least `scaled`, scaled.
fn least_cost(scaled: i128, scale: u32) -> Option<i128>
    requires { 0 < scale }
    ensures { IfSome result (λ least. (cost : ℤ) → scaled ≤ℤ (pos scale *ℤ cost) → least ≤ℤ cost) }
{
    let less = scaled.checked_sub(1)?;
    quotient(less, scale).checked_add(1)
}

/// The quotient, rounded down.
fn quotient(number: i128, scale: u32) -> i128
    requires { 0 < scale }
    ensures { (cost : ℤ) → number <ℤ (pos scale *ℤ cost) → result <ℤ cost }
{
    number.div_euclid(i128::from(scale))
}
