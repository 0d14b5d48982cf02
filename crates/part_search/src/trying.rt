//! A worker's work on the open node that it took, outside the space.

ghost use Rattle.std.specs.Prelude.{◌≡◌, ◌≤ℤ◌, ◌++◌, ◌∷◌, [], IfOk, IfSome, OnOk, map, ◌<◌, ◌≤◌};
ghost use Rattle.space_txn.specs.Content.{added_of};
ghost use Rattle.subtree_search.specs.Best.{IsIncumbent};
ghost use Rattle.part_search.specs.Ground.{IsSplitter};
ghost use Rattle.part_search.specs.Tuples.{node_tuple, open_of};
ghost use Rattle.part_search.specs.Worker.{HasOpen, HasTaken, HasTried};

use crate::aid::Aid;
use crate::board::Wanted;
use crate::ground::{Ground, Splitter};
use crate::open_node::Open;
use crate::tuples::{read_open, tuple_of_open};
use qap_cost::Partial;
use shared_space::writing_law;
use space_txn::Txn;
use std::alloc::{AllocError, Global};
use subtree_search::{Incumbent, Record};
use tuple_match::Tuple;
use tuple_space::{EntryId, Lease};

/// What the trial of a node found: the node with its value, and the nodes that are left open in its place.
#[derive(Drop)]
pub(crate) struct Trial {
    pub(crate) node: Partial,
    pub(crate) value: i128,
    pub(crate) opened: Vec<Wanted>,
}

/// Splits the open node that was taken, tries its children, writes those that remain open, and lists them. The split is
/// recorded. `None` if the entry is not one of an open node, or its lease ends.
pub(crate) fn try_taken<S: Aid, W: Record>(
    alloc: Global,
    ground: &Ground,
    splitter: &mut Splitter,
    incumbent: &mut Incumbent,
    txn: &mut Txn,
    id: EntryId,
    aid: &S,
    record: &mut W,
) -> Result<Option<Trial>, AllocError>
    requires splitter { IsSplitter ground.now splitter.old }
    requires incumbent { IsIncumbent ground.now incumbent.old }
    requires taken { HasTaken txn.old id }
    ensures tried { IfOk result (λ tried. IfSome tried (λ _. HasTried ground.now incumbent.new.cost txn.new)) }
    ensures splitter { IsSplitter ground.now splitter.new }
    ensures incumbent { IsIncumbent ground.now incumbent.new }
    ensures no_worse { incumbent.new.cost ≤ℤ incumbent.old.cost }
{
    let Some(at) = open_at(alloc, ground.instance().size(), txn, id)? else {
        return Ok(None);
    };
    let opens = ground.split(alloc, splitter, &at, incumbent, aid, record)?;
    write_all(alloc, txn, &opens)?;
    let opened = wanted_of(alloc, &opens)?;
    let Open { node, value } = at;
    Ok(Some(Trial {
        node,
        value,
        opened,
    }))
}

/// The open nodes, by templates.
fn wanted_of(alloc: Global, opens: &[Open]) -> Result<Vec<Wanted>, AllocError> {
    let mut wanted = Vec::with_capacity(alloc, opens.len())?;
    for open_node in opens {
        wanted.push(Wanted::new(alloc, open_node)?)?;
    }
    Ok(wanted)
}

/// The open node of size `n` in the tuple of an entry that was taken, where that is there to stay.
fn open_at(alloc: Global, n: usize, txn: &Txn, id: EntryId) -> Result<Option<Open>, AllocError>
    requires positive { 0 < n }
    requires small { n ≤ 256 }
    ensures { IfOk result (λ found. IfSome found (HasOpen n txn.now id)) }
{
    if txn.permanent(id) != Some(true) {
        return Ok(None);
    }
    match txn.tuple(id) {
        Some(tuple) => read_open(alloc, n, tuple),
        None => Ok(None),
    }
}

/// Writes the tuples of the open nodes under the transaction, each permanently.
fn write_all(alloc: Global, txn: &mut Txn, opens: &[Open]) -> Result<(), AllocError>
    ensures marks { txn.new.marks ≡ txn.old.marks }
    ensures added { OnOk result (added_of txn.new.writes ≡ added_of txn.old.writes ++ map node_tuple (map open_of opens.now)) }
{
    for i in 0..opens.len() {
        let tuple = tuple_of_open(alloc, &opens[i])?;
        write_one(txn, tuple)?;
    }
    Ok(())
}

/// Writes a tuple under the transaction, permanently.
pub(crate) fn write_one(txn: &mut Txn, tuple: Tuple) -> Result<(), AllocError>
    ensures marks { txn.new.marks ≡ txn.old.marks }
    ensures added { OnOk result (added_of txn.new.writes ≡ added_of txn.old.writes ++ tuple ∷ []) }
{
    writing_law();
    match txn.out_in(tuple, Lease::Forever) {
        Ok(()) => Ok(()),
        Err(_) => Err(AllocError),
    }
}
