//! What a node reaches, and the list of leaves that do not reach the cost.

ghost use Rattle.std.specs.Prelude.{◌≡◌, ◌^◌, ◌*◌, ◌<◌, ◌≤◌, ◌++◌, ◌∷◌, [], ℤ, List, length, pos, ◌*ℤ◌, IfOk, MatchBool, OnOk, unsigned_abs};
ghost use Rattle.qap_cost.specs.Matrix.{total};
ghost use Rattle.qap_cost.specs.Range.{AllWithin};
ghost use Rattle.pair_duals.specs.PairDuals.{AreDuals};
ghost use Rattle.pair_duals.specs.Reduced.{count_of};
ghost use Rattle.qap_proof.specs.Cover.{leaf as leaf_at};
ghost use Rattle.proof_tree.specs.Leaves.{IsGreatest};
ghost use Rattle.proof_tree.specs.Valid.{ReachesBound};
ghost use Rattle.proof_check.specs.Judge.{IsJudge, IsValueWithMinima, wide};
ghost use Rattle.proof_check.specs.Walk.{PushesLeaf};

use pair_duals::{PairDuals, Reduced};
use qap_cost::{Instance, Partial};
use qap_proof::Leaf;
use std::alloc::{AllocError, Global};

/// The parameters of a tree's check: the instance, its cost step, the bound, and the greatest multiple of the step that
/// is below it; and the cost below which leaves are listed, and the greatest multiple below that.
#[derive(Clone, Copy)]
pub(crate) struct Judge<'a> {
    pub(crate) alloc: Global,
    pub(crate) instance: &'a Instance,
    pub(crate) step: u64,
    pub(crate) bound: i128,
    pub(crate) below: i128,
    pub(crate) cost: i128,
    pub(crate) enough: i128,
}

/// Whether a node with this value reaches the bound; it is listed if it does not reach the cost.
pub(crate) fn check_value(
    judge: &Judge<'_>,
    duals: &PairDuals<i128>,
    value: i128,
    node: &Partial,
    leaves: &mut Vec<Leaf>,
) -> Result<bool, AllocError>
    requires judge { IsJudge judge.now.step judge.now.bound judge.now.below judge.now.cost judge.now.enough }
    requires small { unsigned_abs value ≤ 10 ^ 37 }
    ensures { IfOk result (λ reaches. MatchBool reaches
        (PushesLeaf (λ g. ReachesBound judge.now.step g duals.now.scale value) judge.now.bound judge.now.cost node.now leaves.old.items leaves.new.items)
        (ReachesBound judge.now.step judge.now.bound duals.now.scale value → ⊥)) }
{
    if value <= threshold(judge.below, duals) {
        return Ok(false);
    }
    if value > threshold(judge.enough, duals) {
        return Ok(true);
    }
    push_leaf(judge.step, duals.scale(), value, node, leaves)?;
    Ok(true)
}

/// Lists the leaf of a node with this value, under pair duals of this scale.
fn push_leaf(
    step: u64,
    scale: u32,
    value: i128,
    node: &Partial,
    leaves: &mut Vec<Leaf>,
) -> Result<(), AllocError>
    requires step { 0 < step }
    requires scale { 0 < scale }
    requires small { unsigned_abs value ≤ 10 ^ 37 }
    ensures { OnOk result ((z : ℤ) × IsGreatest (λ g. ReachesBound step g scale value) z × (leaves.new.items ≡ leaves.old.items ++ leaf_at node.now z ∷ [])) }
{
    let node = node.copy()?;
    let value = greatest_reached(step, scale, value);
    leaves.push(Leaf { node, value })?;
    Ok(())
}

/// The greatest bound that a value reaches, under pair duals of this scale.
fn greatest_reached(step: u64, scale: u32, value: i128) -> i128
    requires step { 0 < step }
    requires scale { 0 < scale }
    requires small { unsigned_abs value ≤ 10 ^ 37 }
    ensures { IsGreatest (λ g. ReachesBound step g scale value) result }
{
    let step = i128::from(step);
    let times = (value - 1).div_euclid(i128::from(scale) * step);
    step * times + step
}

/// The value to be exceeded under pair duals, so as to exceed this one.
pub(crate) fn threshold(below: i128, duals: &PairDuals<i128>) -> i128
    requires { unsigned_abs below ≤ 10 ^ 30 }
    ensures value { result ≡ pos duals.now.scale *ℤ below }
    ensures small { unsigned_abs result ≤ 10 ^ 37 }
    ensures duals { AreDuals wide duals.now }
{
    i128::from(duals.scale()) * below
}

/// The value to be exceeded under pair duals, so as to reach the bound.
pub(crate) fn bound_threshold(judge: &Judge<'_>, duals: &PairDuals<i128>) -> i128
    requires { unsigned_abs judge.now.below ≤ 10 ^ 30 }
    ensures value { result ≡ pos duals.now.scale *ℤ judge.now.below }
    ensures small { unsigned_abs result ≤ 10 ^ 37 }
    ensures duals { AreDuals wide duals.now }
{
    i128::from(duals.scale()) * judge.below
}

/// The value of a form, or if it is greater, the value after subtracting the row minima and then the column minima.
pub(crate) fn value_with_minima(alloc: Global, form: &Reduced<i128>) -> Result<i128, AllocError>
    ensures value { IfOk result (IsValueWithMinima form.now) }
    ensures small { IfOk result (λ z. unsigned_abs z ≤ 10 ^ 37) }
{
    let mut u = zeros(alloc, form.free())?;
    let mut v = zeros(alloc, form.free())?;
    Ok(with_minima(form, &mut u, &mut v))
}

/// The same, with memory for the minima.
fn with_minima(form: &Reduced<i128>, u: &mut [i128], v: &mut [i128]) -> i128
    requires rows { length u.old ≡ count_of form.now }
    requires columns { length v.old ≡ count_of form.now }
    ensures value { IsValueWithMinima form.now result }
    ensures small { unsigned_abs result ≤ 10 ^ 37 }
{
    let value = form.value();
    if !form.closes_trivially(value, u, v) {
        return value;
    }
    value + (sum(u) + sum(v))
}

/// The sum of the numbers.
fn sum(numbers: &[i128]) -> i128
    requires few { length numbers.now ≤ 256 }
    requires range { AllWithin (10 ^ 30) numbers.now }
    ensures value { result ≡ total numbers.now }
    ensures bounded { unsigned_abs result ≤ 256 * 10 ^ 30 }
{
    let mut sum = 0;
    for &number in numbers {
        sum += number;
    }
    sum
}

/// This many zeros.
pub(crate) fn zeros(alloc: Global, count: usize) -> Result<Vec<i128>, AllocError>
    ensures { IfOk result (λ v. length v.items ≡ count) }
{
    let mut list = Vec::new(alloc);
    list.resize(count, 0)?;
    Ok(list)
}
