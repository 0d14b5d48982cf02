//! Bounds and splits of nodes, one after another.

ghost use Rattle.std.specs.Prelude.{◌≡◌, ◌<◌, ◌≤ℤ◌, ◌<ℤ◌, true, false, IfOk, All};
ghost use Rattle.std.specs.Arc.{arc_value};
ghost use Rattle.subtree_search.specs.Best.{IsIncumbent};
ghost use Rattle.subtree_search.specs.Closed.{IsClosed};
ghost use Rattle.subtree_search.specs.Images.{table_of};
ghost use Rattle.subtree_search.specs.Lines.{IsLineOf};
ghost use Rattle.subtree_search.specs.Opens.{IsOpen, IsSettled};
ghost use Rattle.subtree_search.specs.Premises.{AreSymmetries};
ghost use Rattle.node_split.specs.Branch.{line_of, marks_on};
ghost use Rattle.node_split.specs.Evaluation.{IsBound, IsEvaluated};
ghost use Rattle.node_split.specs.Parent.{AreImages, IsParent};
ghost use Rattle.node_split.specs.Prepared.{IsPrepared};

use crate::branch::{Branch, MarkLists, widest};
use crate::children::{Split, split_children};
use crate::evaluation::{Evaluation, Evaluator};
use crate::parent::Parent;
use assign_dual::Solver;
use gilmore_lawler::{KeptRows, RankedInstance};
use qap_cost::{Instance, Partial, Perm, completed};
use qap_symmetry::Table;
use std::alloc::{AllocError, Global};
use std::marker::Model;
use std::sync::Arc;
use subtree_search::{Incumbent, OpenChild, Stop};

/// Computes bounds of nodes and splits nodes, in memory that is kept from one to the next. It is seen as the instance,
/// and its answers do not depend on earlier calls.
#[derive(Drop)]
pub struct NodeSplit {
    alloc: Global,
    workspace: Workspace,
}

impl Model for NodeSplit {
    ghost use Rattle.qap_cost.specs.Instance.{Problem};

    ghost Value = { Problem };

    ghost view = { λ s. s.workspace.evaluator.rows };
}

/// The evaluation of the last node, its free facilities and locations, both ascending, and which of them are images of
/// earlier ones; and what evaluates nodes and their children.
#[derive(Drop)]
pub(crate) struct Workspace {
    pub(crate) evaluator: Evaluator,
    pub(crate) here: Evaluation,
    pub(crate) below: Evaluation,
    pub(crate) facilities: Vec<u16>,
    pub(crate) locations: Vec<u16>,
    pub(crate) marks: MarkLists,
}

impl NodeSplit {
    /// What bounds and splits the nodes of this instance.
    pub fn new(alloc: Global, ranked: Arc<RankedInstance>) -> Result<NodeSplit, AllocError>
        ensures { IfOk result (λ s. s ≡ arc_value ranked) }
    {
        let workspace = Workspace {
            evaluator: Evaluator {
                rows: KeptRows::new(alloc, ranked),
                solver: Solver::new(alloc),
            },
            here: Evaluation::new(alloc)?,
            below: Evaluation::new(alloc)?,
            facilities: Vec::new(alloc),
            locations: Vec::new(alloc),
            marks: MarkLists::new(alloc),
        };
        Ok(NodeSplit { alloc, workspace })
    }

    /// The instance.
    pub fn instance(&self) -> &Instance
        ensures { result.now ≡ self.now }
    {
        self.workspace.evaluator.rows.instance()
    }

    /// The bound of Gilmore and Lawler on the cost of the node's completions: what its placed facilities cost among
    /// themselves, and the least cost of an assignment of its Gilmore-Lawler matrix. Takes time O(m^3) for m free
    /// facilities. The only error is out of memory.
    pub fn bound(&mut self, node: &Partial) -> Result<i128, AllocError>
        requires { self.old.size ≡ node.now.size }
        ensures bound { IfOk result (IsBound self.old node.now) }
        ensures closed { IfOk result (IsClosed self.old node.now) }
        ensures same { self.new ≡ self.old }
    {
        let bound = self.workspace.bound(node)?;
        Ok(bound)
    }

    /// Splits a node on a free facility or location, by the bounds of Gilmore and Lawler of the node and its
    /// children, and returns the children that no bound closes at the incumbent's cost; none if the node is closed.
    /// A child that is symmetric to an earlier one, by these permutations that preserve the flows and the
    /// distances, is left out. The node's completion by a least assignment is offered to the incumbent.
    ///
    /// A child's value is the greater of its own bound and the one that the node's duals yield for it; once a stop is
    /// requested, children are left open with the latter. The only error is out of memory.
    pub fn split<S: Stop>(
        &mut self,
        node: &Partial,
        flows: &[Perm],
        distances: &[Perm],
        incumbent: &mut Incumbent,
        stop: &S,
    ) -> Result<Vec<OpenChild>, AllocError>
        requires size { self.old.size ≡ node.now.size }
        requires symmetries { AreSymmetries self.old flows.now distances.now }
        requires incumbent { IsIncumbent self.old incumbent.old }
        ensures settled { IfOk result (λ children. IsSettled self.old node.now incumbent.new.cost children.items node.now) }
        ensures opened { IfOk result (λ children. All (IsOpen self.old 1 node.now) children.items) }
        ensures incumbent { IsIncumbent self.old incumbent.new }
        ensures no_worse { incumbent.new.cost ≤ℤ incumbent.old.cost }
        ensures same { self.new ≡ self.old }
    {
        let alloc = self.alloc;
        let workspace = &mut self.workspace;
        let children = split_node(alloc, workspace, node, flows, distances, incumbent, stop)?;
        Ok(children)
    }
}

impl Workspace {
    /// The bound of a node.
    fn bound(&mut self, node: &Partial) -> Result<i128, AllocError>
        requires { self.old.evaluator.rows.size ≡ node.now.size }
        ensures bound { IfOk result (IsBound self.old.evaluator.rows node.now) }
        ensures closed { IfOk result (IsClosed self.old.evaluator.rows node.now) }
        ensures same { self.new.evaluator.rows ≡ self.old.evaluator.rows }
    {
        self.evaluator.evaluate(node, &mut self.below)?;
        Ok(self.below.value)
    }

    /// Evaluates the node, offers its completion to the incumbent, and chooses what the node is split on; `None` if
    /// it is closed at the cost of the incumbent.
    fn prepare(
        &mut self,
        alloc: Global,
        node: &Partial,
        flows: &[Perm],
        distances: &[Perm],
        incumbent: &mut Incumbent,
    ) -> Result<Option<Branch>, AllocError>
        requires size { self.old.evaluator.rows.size ≡ node.now.size }
        requires symmetries { AreSymmetries self.old.evaluator.rows flows.now distances.now }
        requires incumbent { IsIncumbent self.old.evaluator.rows incumbent.old }
        ensures prepared { IfOk result (IsPrepared self.old.evaluator.rows node.now incumbent.new.cost self.new) }
        ensures incumbent { IsIncumbent self.old.evaluator.rows incumbent.new }
        ensures no_worse { incumbent.new.cost ≤ℤ incumbent.old.cost }
        ensures same { self.new.evaluator.rows ≡ self.old.evaluator.rows }
    {
        self.evaluator.evaluate(node, &mut self.here)?;
        node.list_free_facilities(&mut self.facilities)?;
        node.list_free_locations(&mut self.locations)?;
        let parent = Parent {
            instance: self.evaluator.rows.instance(),
            node,
            flows,
            distances,
            facilities: &self.facilities,
            locations: &self.locations,
        };
        if closes(alloc, &parent, &self.here, incumbent)? {
            return Ok(None);
        }
        let branch = choose(&parent, &self.here, &mut self.marks, incumbent)?;
        Ok(Some(branch))
    }
}

/// Splits a node, in this workspace.
fn split_node<S: Stop>(
    alloc: Global,
    workspace: &mut Workspace,
    node: &Partial,
    flows: &[Perm],
    distances: &[Perm],
    incumbent: &mut Incumbent,
    stop: &S,
) -> Result<Vec<OpenChild>, AllocError>
    requires size { workspace.old.evaluator.rows.size ≡ node.now.size }
    requires symmetries { AreSymmetries workspace.old.evaluator.rows flows.now distances.now }
    requires incumbent { IsIncumbent workspace.old.evaluator.rows incumbent.old }
    ensures settled { IfOk result (λ children. IsSettled workspace.old.evaluator.rows node.now incumbent.new.cost children.items node.now) }
    ensures opened { IfOk result (λ children. All (IsOpen workspace.old.evaluator.rows 1 node.now) children.items) }
    ensures incumbent { IsIncumbent workspace.old.evaluator.rows incumbent.new }
    ensures no_worse { incumbent.new.cost ≤ℤ incumbent.old.cost }
    ensures same { workspace.new.evaluator.rows ≡ workspace.old.evaluator.rows }
{
    let Some(branch) = workspace.prepare(alloc, node, flows, distances, incumbent)? else {
        return Ok(Vec::new(alloc));
    };
    let split = Split {
        node,
        facilities: &workspace.facilities,
        locations: &workspace.locations,
        here: &workspace.here,
        branch,
        images: workspace.marks.on(branch),
    };
    let (evaluator, below) = (&mut workspace.evaluator, &mut workspace.below);
    let children = split_children(alloc, &split, evaluator, below, incumbent, stop)?;
    Ok(children)
}

/// Offers the node's completion by its least assignment to the incumbent, and reports whether no completion costs
/// less than the incumbent then.
fn closes(
    alloc: Global,
    parent: &Parent<'_>,
    here: &Evaluation,
    incumbent: &mut Incumbent,
) -> Result<bool, AllocError>
    requires parent { IsParent parent.now }
    requires evaluated { IsEvaluated parent.now.instance.now parent.now.node.now here.now }
    requires incumbent { IsIncumbent parent.now.instance.now incumbent.old }
    ensures closed { IfOk result (λ b. b ≡ true → IsClosed parent.now.instance.now parent.now.node.now incumbent.new.cost) }
    ensures left { IfOk result (λ b. b ≡ false → 1 < here.now.matrix.size) }
    ensures incumbent { IsIncumbent parent.now.instance.now incumbent.new }
    ensures no_worse { incumbent.new.cost ≤ℤ incumbent.old.cost }
{
    let matching = &here.assignment.matching;
    let candidate = completed(
        parent.node,
        parent.facilities,
        parent.locations,
        matching,
        &mut Vec::new(alloc),
        Vec::new(alloc),
    )?;
    incumbent.offer(parent.instance, candidate);
    if here.matrix.size() <= 1 || here.value >= incumbent.cost() {
        return Ok(true);
    }
    Ok(false)
}

/// Marks the free facilities and locations that are images of earlier ones, and chooses what the node is split on.
fn choose(
    parent: &Parent<'_>,
    here: &Evaluation,
    marks: &mut MarkLists,
    incumbent: &Incumbent,
) -> Result<Branch, AllocError>
    requires parent { IsParent parent.now }
    requires evaluated { IsEvaluated parent.now.instance.now parent.now.node.now here.now }
    requires left { 0 < here.now.matrix.size }
    ensures line { IfOk result (λ branch. IsLineOf here.now.matrix.size (line_of branch)) }
    ensures images { IfOk result (λ branch. AreImages parent.now.instance.now parent.now.node.now (table_of (line_of branch)) (marks_on marks.new branch)) }
{
    parent.mark_images(Table::Flows, &mut marks.fixing, &mut marks.facilities)?;
    parent.mark_images(Table::Distances, &mut marks.fixing, &mut marks.locations)?;
    let gap = incumbent.cost().saturating_sub(here.value);
    let branch = widest(here, marks, gap);
    Ok(branch)
}
