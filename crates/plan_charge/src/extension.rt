//! The instance with extra facilities that charge the others for their locations.

ghost use Rattle.std.specs.Prelude.{◌≡◌, ◌+◌, ◌*◌, ◌/◌, ◌%◌, ◌<◌, ◌≤◌, IfOk};
ghost use Rattle.qap_cost.specs.Range.{InRange};
ghost use Rattle.plan_charge.specs.Charges.{AreCharges};
ghost use Rattle.plan_charge.specs.Extended.{IsExtended, IsTable, distance_with, flow_with};

use crate::charges::Charges;
use qap_cost::Instance;
use std::alloc::{AllocError, Global};

/// The instance with an extra facility and an extra location for each facility that pays. A permutation that puts each
/// extra facility at the extra location of the same number costs what its first numbers cost in the instance, and what
/// the facilities pay for them.
pub fn extended(
    alloc: Global,
    instance: &Instance,
    charges: &Charges,
) -> Result<Instance, AllocError>
    requires { AreCharges instance.now.size charges.now }
    ensures { IfOk result (IsExtended instance.now charges.now) }
{
    let size = instance.size() + charges.count;
    let a = flows(alloc, instance, charges, size)?;
    let b = distances(alloc, instance, charges, size)?;
    match Instance::new(size, a, b) {
        Ok(extended) => Ok(extended),
        Err(_) => unreachable!(),
    }
}

/// The flows, by rows.
fn flows(
    alloc: Global,
    instance: &Instance,
    charges: &Charges,
    size: usize,
) -> Result<Vec<i64>, AllocError>
    requires charges { AreCharges instance.now.size charges.now }
    requires size { size ≡ instance.now.size + charges.now.count }
    ensures { IfOk result (λ v. IsTable (flow_with instance.now charges.now) size (size * size) v.items) }
{
    let mut flows = Vec::with_capacity(alloc, size * size)?;
    for k in 0..size * size {
        flows.push(flow(instance, charges, k / size, k % size))?;
    }
    Ok(flows)
}

/// The distances, by rows.
fn distances(
    alloc: Global,
    instance: &Instance,
    charges: &Charges,
    size: usize,
) -> Result<Vec<i64>, AllocError>
    requires charges { AreCharges instance.now.size charges.now }
    requires size { size ≡ instance.now.size + charges.now.count }
    ensures { IfOk result (λ v. IsTable (distance_with instance.now charges.now) size (size * size) v.items) }
{
    let mut distances = Vec::with_capacity(alloc, size * size)?;
    for k in 0..size * size {
        distances.push(distance(instance, charges, k / size, k % size))?;
    }
    Ok(distances)
}

/// The flow from one facility to another.
fn flow(instance: &Instance, charges: &Charges, i: usize, j: usize) -> i64
    requires charges { AreCharges instance.now.size charges.now }
    requires column { j < 256 }
    ensures value { result ≡ flow_with instance.now charges.now i j }
    ensures range { InRange result }
{
    let n = instance.size();
    if i < n {
        return if j < n { instance.a(i, j) } else { 0 };
    }
    if j + n == i { charges.weight } else { 0 }
}

/// The distance from one location to another.
fn distance(instance: &Instance, charges: &Charges, k: usize, l: usize) -> i64
    requires charges { AreCharges instance.now.size charges.now }
    requires row { k < instance.now.size + charges.now.count }
    ensures value { result ≡ distance_with instance.now charges.now k l }
    ensures range { InRange result }
{
    let n = instance.size();
    if l < n {
        return if k < n {
            instance.b(k, l)
        } else {
            charges.entry(n, k - n, l)
        };
    }
    0
}
