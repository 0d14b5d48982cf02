//! A node of a search: some facilities are placed at distinct locations, the others are free.

ghost use Rattle.std.specs.Prelude.{◌≡◌, ◌*◌, ◌^◌, ◌<◌, ◌≤◌, ◌↔◌, ◌++◌, ◌∷◌, [], IfOk, IsOk, IsTrue, MatchOption, OnErr, OnOk, length, slice_index, unsigned_abs, ℕ};
ghost use Rattle.qap_cost.specs.Bijection.{AreDifferent};
ghost use Rattle.qap_cost.specs.Placement.{Placement, IsPlacement, IsFreeFacility, IsFreeLocation, ListsFree, StandsAt, root_of, placing, free_below, free_facilities, free_locations, fixed_cost_of};
ghost use Rattle.qap_cost.specs.Range.{AllInRange};
ghost use Rattle.qap_cost.specs.Row.{product_between};
ghost use Rattle.qap_cost.specs.Sum.{sum_to};

use crate::Instance;
use crate::free::list_free;
use crate::objective::product;
use std::alloc::{AllocError, Global};
use std::marker::Model;

/// Different facilities of an instance of size 1 to 256 at different locations; the other facilities are free.
#[derive(Drop)]
pub struct Partial {
    size: usize,
    facilities: Vec<u16>,
    places: Vec<u16>,
}

impl Model for Partial {
    ghost Value = { Placement };

    ghost view = { λ s. record { size = s.size; facilities = s.facilities.items; places = s.places.items } };

    ghost invariant = { λ s. IsPlacement (record { size = s.size; facilities = s.facilities.items; places = s.places.items }) };
}

impl Partial {
    /// The node of size `n` that places no facility. Allocates nothing.
    pub fn root(alloc: Global, n: usize) -> Result<Partial, AllocError>
        requires positive { 0 < n }
        requires small { n ≤ 256 }
        ensures there { IsOk result }
        ensures value { IfOk result (λ x. x ≡ root_of n) }
        ensures placement { IfOk result IsPlacement }
    {
        Ok(Partial {
            size: n,
            facilities: Vec::new(alloc),
            places: Vec::new(alloc),
        })
    }

    /// The number of facilities, placed and free, and of locations: from 1 to 256.
    pub fn size(&self) -> usize
        ensures value { result ≡ self.now.size }
        ensures placement { IsPlacement self.now }
    {
        self.size
    }

    /// What every placement satisfies, for a proof that needs it. It costs nothing.
    pub fn placement_law(&self)
        ensures { IsPlacement self.now }
    {
        let _ = &self.size;
    }

    /// How many facilities are placed.
    pub fn depth(&self) -> usize
        ensures value { result ≡ length self.now.facilities }
        ensures within { result ≤ self.now.size }
        ensures placement { IsPlacement self.now }
    {
        self.facilities.len()
    }

    /// The placed facilities, in the order of placing.
    pub fn facilities(&self) -> &[u16]
        ensures value { result.now ≡ self.now.facilities }
        ensures placement { IsPlacement self.now }
    {
        &self.facilities
    }

    /// The locations of the placed facilities, in the order of placing.
    pub fn places(&self) -> &[u16]
        ensures value { result.now ≡ self.now.places }
        ensures placement { IsPlacement self.now }
    {
        &self.places
    }

    /// The location of facility `i`; `None` if it is not placed.
    pub fn at(&self, i: usize) -> Option<u16>
        ensures { MatchOption result ((k : ℕ) → StandsAt self.now i k → ⊥) (StandsAt self.now i) }
    {
        let (facilities, places): (&[u16], &[u16]) = (&self.facilities, &self.places);
        for t in 0..facilities.len() {
            if usize::from(facilities[t]) == i {
                return Some(places[t]);
            }
        }
        None
    }

    /// Whether facility `f` is placed.
    pub fn is_placed(&self, f: u16) -> bool
        ensures { IsTrue result ↔ ((i : ℕ) × (i < length self.now.facilities) × (slice_index self.now.facilities i ≡ f)) }
    {
        self.facilities.contains(&f)
    }

    /// Whether `k` is a location without a facility.
    pub fn is_free(&self, k: u16) -> bool
        ensures { IsTrue result ↔ IsFreeLocation self.now k }
    {
        usize::from(k) < self.size && !self.places.contains(&k)
    }

    /// The free facilities, ascending.
    pub fn free_facilities(&self) -> Result<Vec<u16>, AllocError>
        ensures value { IfOk result (λ v. v.items ≡ free_facilities self.now) }
        ensures free { IfOk result (λ v. ListsFree self.now.size self.now.facilities v.items) }
        ensures placement { IsPlacement self.now }
    {
        free_numbers(*self.facilities.allocator(), self.size, &self.facilities)
    }

    /// The free locations, ascending.
    pub fn free_locations(&self) -> Result<Vec<u16>, AllocError>
        ensures value { IfOk result (λ v. v.items ≡ free_locations self.now) }
        ensures free { IfOk result (λ v. ListsFree self.now.size self.now.places v.items) }
        ensures placement { IsPlacement self.now }
    {
        free_numbers(*self.places.allocator(), self.size, &self.places)
    }

    /// Replaces the list by that of the free facilities, ascending, in its own memory if that suffices.
    pub fn list_free_facilities(&self, list: &mut Vec<u16>) -> Result<(), AllocError>
        ensures value { OnOk result (list.new.items ≡ free_facilities self.now) }
        ensures free { OnOk result (ListsFree self.now.size self.now.facilities list.new.items) }
        ensures placement { IsPlacement self.now }
    {
        list_free(self.size, &self.facilities, list)
    }

    /// Replaces the list by that of the free locations, ascending, in its own memory if that suffices.
    pub fn list_free_locations(&self, list: &mut Vec<u16>) -> Result<(), AllocError>
        ensures value { OnOk result (list.new.items ≡ free_locations self.now) }
        ensures free { OnOk result (ListsFree self.now.size self.now.places list.new.items) }
        ensures placement { IsPlacement self.now }
    {
        list_free(self.size, &self.places, list)
    }

    /// This node with the free facility `f` at the free location `k` too.
    pub fn place(&self, f: u16, k: u16) -> Result<Partial, AllocError>
        requires facility { IsFreeFacility self.now f }
        requires location { IsFreeLocation self.now k }
        ensures value { IfOk result (λ x. x ≡ placing self.now f k) }
        ensures placement { IfOk result IsPlacement }
    {
        let facilities = with_last(*self.facilities.allocator(), &self.facilities, f)?;
        let places = with_last(*self.places.allocator(), &self.places, k)?;
        Ok(Partial {
            size: self.size,
            facilities,
            places,
        })
    }

    /// Puts the free facility `f` at the free location `k` too. If memory runs out, the node is unchanged.
    pub fn put(&mut self, f: u16, k: u16) -> Result<(), AllocError>
        requires facility { IsFreeFacility self.old f }
        requires location { IsFreeLocation self.old k }
        ensures ok { OnOk result (self.new ≡ placing self.old f k) }
        ensures err { OnErr result (self.new ≡ self.old) }
        ensures placement { IsPlacement self.new }
    {
        self.facilities.reserve(1)?;
        self.places.reserve(1)?;
        self.facilities.push(f).unwrap();
        self.places.push(k).unwrap();
        Ok(())
    }

    /// Makes it the node of size `n` that places no facility, in the memory that it has.
    pub fn reset(&mut self, n: usize)
        requires positive { 0 < n }
        requires small { n ≤ 256 }
        ensures value { self.new ≡ root_of n }
        ensures placement { IsPlacement self.new }
    {
        self.size = n;
        self.facilities.clear();
        self.places.clear();
    }

    /// Takes the memory for all that it may place. Refused that, the node is unchanged.
    pub fn reserve(&mut self) -> Result<(), AllocError>
        ensures same { self.new ≡ self.old }
        ensures placement { IsPlacement self.new }
    {
        let free = self.size - self.depth();
        self.facilities.reserve(free)?;
        self.places.reserve(free)
    }

    /// The cost of the placed facilities among themselves: the sum over all placed `i` and `j`, including `i = j`, of
    /// `a(i, j) * b(k, l)`, where `i` is at `k` and `j` at `l`.
    pub fn fixed_cost(&self, instance: &Instance) -> i128
        requires { instance.now.size ≡ self.now.size }
        ensures value { result ≡ fixed_cost_of instance.now self.now }
        ensures bounded { unsigned_abs result ≤ 65536 * 10 ^ 18 }
    {
        let (facilities, places): (&[u16], &[u16]) = (&self.facilities, &self.places);
        let mut total = 0;
        for s in 0..facilities.len() {
            let a_row = instance.a_row(usize::from(facilities[s]));
            let b_row = instance.b_row(usize::from(places[s]));
            let with_each = placed_product(a_row, b_row, facilities, places);
            total += with_each;
        }
        total
    }

    /// The same node again.
    pub fn copy(&self) -> Result<Partial, AllocError>
        ensures value { IfOk result (λ x. x ≡ self.now) }
        ensures placement { IfOk result IsPlacement }
    {
        let facilities = self.facilities.clone()?;
        let places = self.places.clone()?;
        Ok(Partial {
            size: self.size,
            facilities,
            places,
        })
    }
}

/// The numbers below `n` that are not among these, ascending.
fn free_numbers(alloc: Global, n: usize, taken: &[u16]) -> Result<Vec<u16>, AllocError>
    requires small { n ≤ 256 }
    requires different { AreDifferent n taken.now }
    ensures value { IfOk result (λ v. v.items ≡ free_below n taken.now) }
    ensures free { IfOk result (λ v. ListsFree n taken.now v.items) }
{
    let mut free = Vec::new(alloc);
    list_free(n, taken, &mut free)?;
    Ok(free)
}

/// These numbers, and one more after them.
fn with_last(alloc: Global, numbers: &[u16], last: u16) -> Result<Vec<u16>, AllocError>
    ensures { IfOk result (λ v. v.items ≡ numbers.now ++ last ∷ []) }
{
    let mut more = Vec::with_capacity(alloc, numbers.len() + 1)?;
    more.extend_from_slice(numbers)?;
    more.push(last)?;
    Ok(more)
}

/// The sum over all `t` of `a_row[facilities[t]] * b_row[places[t]]`.
fn placed_product(a_row: &[i64], b_row: &[i64], facilities: &[u16], places: &[u16]) -> i128
    requires small { length facilities.now ≤ 256 }
    requires paired { length places.now ≡ length facilities.now }
    requires a_count { (t : ℕ) → t < length facilities.now → slice_index facilities.now t < length a_row.now }
    requires b_count { (t : ℕ) → t < length places.now → slice_index places.now t < length b_row.now }
    requires a_range { AllInRange a_row.now }
    requires b_range { AllInRange b_row.now }
    ensures value { result ≡ sum_to (product_between a_row.now b_row.now facilities.now places.now) (length facilities.now) }
    ensures bounded { unsigned_abs result ≤ 256 * 10 ^ 18 }
{
    let mut total = 0;
    for t in 0..facilities.len() {
        let i = usize::from(facilities[t]);
        let k = usize::from(places[t]);
        let term = product(a_row[i], b_row[k]);
        total += i128::from(term);
    }
    total
}
