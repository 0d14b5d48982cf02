//! The path from the root of a search to its current node.

ghost use Rattle.std.specs.Prelude.{◌≡◌, ◌<◌, ℕ, IfOk, OnErr, OnOk, length, slice_index};
ghost use Rattle.qap_cost.specs.Bijection.{IsPerm};
ghost use Rattle.qap_cost.specs.Placement.{Completes, Placement, IsFreeFacility, IsFreeLocation, IsPlacement, placing, root_of};
ghost use Rattle.subtree_search.specs.Images.{taken_of};
ghost use Rattle.subtree_search.specs.Path.{before_last};

use qap_cost::{Partial, Perm};
use qap_symmetry::Table;
use std::alloc::{AllocError, Global};
use std::marker::Model;
use std::mem::replace;

/// The node that a search has come to, as the facilities that are placed there, which come and go at the end.
#[derive(Drop)]
pub(crate) struct Path {
    size: usize,
    facilities: Vec<u16>,
    places: Vec<u16>,
}

impl Model for Path {
    ghost Value = { Placement };

    ghost view = { λ s. record { size = s.size; facilities = s.facilities.items; places = s.places.items } };

    ghost invariant = { λ s. IsPlacement (record { size = s.size; facilities = s.facilities.items; places = s.places.items }) };
}

impl Path {
    /// At the node of size 1 that places nothing. Allocates nothing.
    pub fn new(alloc: Global) -> Path
        ensures { result ≡ root_of 1 }
    {
        Path {
            size: 1,
            facilities: Vec::new(alloc),
            places: Vec::new(alloc),
        }
    }

    /// The facilities or the locations that are taken.
    pub fn taken(&self, table: Table) -> &[u16]
        ensures value { result.now ≡ taken_of table self.now }
        ensures placement { IsPlacement self.now }
    {
        match table {
            Table::Flows => &self.facilities,
            Table::Distances => &self.places,
        }
    }

    /// Moves to a node, in its own memory if that suffices.
    pub fn start(&mut self, node: &Partial) -> Result<(), AllocError>
        ensures { OnOk result (self.new ≡ node.now) }
    {
        let alloc = *self.facilities.allocator();
        let Path {
            facilities,
            places,
            ..
        } = replace(self, Path::new(alloc));
        let size = node.size();
        let facilities = copied(facilities, node.facilities())?;
        let places = copied(places, node.places())?;
        *self = Path {
            size,
            facilities,
            places,
        };
        Ok(())
    }

    /// Goes to the child that puts the free facility `f` at the free location `k`.
    pub fn push(&mut self, f: u16, k: u16) -> Result<(), AllocError>
        requires facility { IsFreeFacility self.old f }
        requires location { IsFreeLocation self.old k }
        ensures ok { OnOk result (self.new ≡ placing self.old f k) }
        ensures err { OnErr result (self.new ≡ self.old) }
    {
        self.facilities.reserve(1)?;
        self.places.reserve(1)?;
        self.facilities.push(f).unwrap();
        self.places.push(k).unwrap();
        Ok(())
    }

    /// Goes back to the node of which this is a child.
    pub fn pop(&mut self)
        ensures { self.new ≡ before_last self.old }
    {
        let _ = self.facilities.pop();
        let _ = self.places.pop();
    }

    /// The permutation that completes the node, if all facilities are placed.
    pub fn completion(&self) -> Result<Perm, AllocError>
        requires { length self.now.facilities ≡ self.now.size }
        ensures { IfOk result (Completes self.now) }
    {
        let locations = self.locations()?;
        Ok(permutation_of(locations))
    }

    /// The location of each facility, where all are placed.
    fn locations(&self) -> Result<Vec<u16>, AllocError>
        requires { length self.now.facilities ≡ self.now.size }
        ensures completion { IfOk result (λ v. Completes self.now v.items) }
        ensures permutation { IfOk result (λ v. IsPerm v.items) }
    {
        let alloc = *self.facilities.allocator();
        let locations = vec![in alloc; 0; self.size]?;
        Ok(placed(locations, &self.facilities, &self.places))
    }
}

/// The permutation that these locations are.
fn permutation_of(locations: Vec<u16>) -> Perm
    requires { IsPerm locations.items }
    ensures { result ≡ locations.items }
{
    match Perm::new(locations) {
        Ok(permutation) => permutation,
        Err(_) => unreachable!(),
    }
}

/// The numbers, in the memory of a list.
fn copied(mut list: Vec<u16>, numbers: &[u16]) -> Result<Vec<u16>, AllocError>
    ensures { IfOk result (λ v. v.items ≡ numbers.now) }
{
    list.clear();
    list.extend_from_slice(numbers)?;
    Ok(list)
}

/// Writes to each facility's place its location.
fn placed(mut locations: Vec<u16>, facilities: &[u16], places: &[u16]) -> Vec<u16>
    requires paired { length places.now ≡ length facilities.now }
    requires within { (t : ℕ) → t < length facilities.now → slice_index facilities.now t < length locations.items }
    requires distinct { (s t : ℕ) → s < length facilities.now → t < length facilities.now → slice_index facilities.now s ≡ slice_index facilities.now t → s ≡ t }
    ensures length { length result.items ≡ length locations.items }
    ensures agrees { (t : ℕ) → t < length facilities.now → slice_index result.items (slice_index facilities.now t) ≡ slice_index places.now t }
{
    for t in 0..facilities.len() {
        locations[usize::from(facilities[t])] = places[t];
    }
    locations
}
