//! The tuples of open nodes and of the incumbent, written and read.

ghost use Rattle.std.specs.Prelude.{◌≡◌, ◌<◌, ◌≤◌, IfOk, IfSome, length, map, pos};
ghost use Rattle.qap_cost.specs.Placement.{Placement};
ghost use Rattle.subtree_search.specs.Best.{Best, IsIncumbent};
ghost use Rattle.tuple_match.specs.Field.{field_value};
ghost use Rattle.tuple_match.specs.FieldValue.{IsField, numbers};
ghost use Rattle.part_search.specs.Tuples.{IsReadOf, best_template, best_tuple, node_template, node_tuple, open_of};

use crate::open_node::Open;
use number_list::Numbers;
use qap_cost::{Instance, Partial, Perm};
use std::alloc::{AllocError, Global};
use subtree_search::Incumbent;
use tuple_match::{Field, Pattern, Template, Tuple};

/// Asks for any open node.
pub(crate) fn node_template(alloc: Global) -> Result<Template, AllocError>
    ensures { IfOk result (λ template. template ≡ node_template) }
{
    let name = Pattern::Is(Field::word(alloc, "node")?);
    let patterns = vec![in alloc; name, Pattern::AnyList, Pattern::AnyList, Pattern::AnyInt]?;
    Ok(Template::new(patterns).unwrap())
}

/// Asks for the best permutation.
pub(crate) fn best_template(alloc: Global) -> Result<Template, AllocError>
    ensures { IfOk result (λ template. template ≡ best_template) }
{
    let name = Pattern::Is(Field::word(alloc, "best")?);
    let patterns = vec![in alloc; name, Pattern::AnyInt, Pattern::AnyList]?;
    Ok(Template::new(patterns).unwrap())
}

/// The tuple of an open node.
pub(crate) fn tuple_of_open(alloc: Global, open_node: &Open) -> Result<Tuple, AllocError>
    ensures { IfOk result (λ tuple. tuple ≡ node_tuple (open_of open_node.now)) }
{
    open_node.node.placement_law();
    let name = Field::word(alloc, "node")?;
    let facilities = list_field(alloc, open_node.node.facilities())?;
    let places = list_field(alloc, open_node.node.places())?;
    Tuple::of_four(
        alloc,
        [name, facilities, places, Field::Int(open_node.value)],
    )
}

/// The tuple of the best permutation.
pub(crate) fn tuple_of_best(alloc: Global, best: &Incumbent) -> Result<Tuple, AllocError>
    ensures { IfOk result (λ tuple. tuple ≡ best_tuple best.now) }
{
    best.permutation().permutation_law();
    let name = Field::word(alloc, "best")?;
    let list = list_field(alloc, best.permutation().locations())?;
    Tuple::of_three(alloc, [name, Field::Int(best.cost()), list])
}

/// The numbers as a field.
fn list_field(alloc: Global, list: &[u16]) -> Result<Field, AllocError>
    requires { length list.now ≤ 256 }
    ensures value { IfOk result (λ field. field_value field ≡ numbers (map pos list.now)) }
    ensures limits { IfOk result (λ field. IsField (field_value field)) }
{
    let mut wide = Vec::with_capacity(alloc, list.len())?;
    for number in list {
        wide.push(i128::from(*number))?;
    }
    Field::list(alloc, &wide)
}

/// The open node of size `n` that the tuple is of; `None` if it is of none.
pub(crate) fn read_open(alloc: Global, n: usize, tuple: &Tuple) -> Result<Option<Open>, AllocError>
    requires positive { 0 < n }
    requires small { n ≤ 256 }
    ensures { IfOk result (λ found. IfSome found (IsReadOf n tuple.now)) }
{
    let [_, facilities, places, value] = tuple.fields() else {
        return Ok(None);
    };
    let (Some(facilities), Some(places), Some(value)) = (
        facilities.as_list(),
        places.as_list(),
        value.as_int(),
    ) else {
        return Ok(None);
    };
    let Some(node) = node_with(alloc, n, &facilities, &places)? else {
        return Ok(None);
    };
    let open_node = Open { node, value };
    let again = tuple_of_open(alloc, &open_node)?;
    if again == *tuple {
        Ok(Some(open_node))
    } else {
        Ok(None)
    }
}

/// A node of size `n` that places these facilities at these locations, as far as they are different.
fn node_with(
    alloc: Global,
    n: usize,
    facilities: &Numbers<'_>,
    places: &Numbers<'_>,
) -> Result<Option<Partial>, AllocError>
    requires positive { 0 < n }
    requires small { n ≤ 256 }
    ensures { IfOk result (λ found. IfSome found (λ (x : Placement). x.size ≡ n)) }
{
    let mut node = Partial::root(alloc, n)?;
    let count = facilities.len().min(places.len());
    for t in 0..count {
        if !put(&mut node, facilities.at(t), places.at(t))? {
            return Ok(None);
        }
    }
    Ok(Some(node))
}

/// Puts a facility at a location, and answers whether both were free.
fn put(node: &mut Partial, facility: i128, location: i128) -> Result<bool, AllocError>
    ensures { node.new.size ≡ node.old.size }
{
    let (Ok(f), Ok(k)) = (u16::try_from(facility), u16::try_from(location)) else {
        return Ok(false);
    };
    if usize::from(f) >= node.size() || node.is_placed(f) || !node.is_free(k) {
        return Ok(false);
    }
    node.put(f, k)?;
    Ok(true)
}

/// The best permutation that the tuple is of; `None` if it is of no permutation of the instance with its cost.
pub(crate) fn read_best(
    alloc: Global,
    instance: &Instance,
    tuple: &Tuple,
) -> Result<Option<Incumbent>, AllocError>
    ensures { IfOk result (λ found. IfSome found (λ (b : Best). (best_tuple b ≡ tuple.now) × IsIncumbent instance.now b)) }
{
    let [_, _, list] = tuple.fields() else {
        return Ok(None);
    };
    let Some(list) = list.as_list() else {
        return Ok(None);
    };
    let Some(permutation) = permutation_of(alloc, &list)? else {
        return Ok(None);
    };
    if permutation.len() != instance.size() {
        return Ok(None);
    }
    let best = Incumbent::new(instance, permutation);
    let again = tuple_of_best(alloc, &best)?;
    if again == *tuple {
        Ok(Some(best))
    } else {
        Ok(None)
    }
}

/// The permutation that these locations are, where they are one.
fn permutation_of(alloc: Global, list: &Numbers<'_>) -> Result<Option<Perm>, AllocError> {
    let mut locations = Vec::with_capacity(alloc, list.len())?;
    for i in 0..list.len() {
        let Ok(location) = u16::try_from(list.at(i)) else {
            return Ok(None);
        };
        locations.push(location)?;
    }
    Ok(Perm::new(locations).ok())
}
