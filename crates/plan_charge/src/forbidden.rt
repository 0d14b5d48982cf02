//! Locations that facilities may not take.

ghost use Rattle.std.specs.Prelude.{◌≡◌, ◌<◌, ◌↔◌, IsTrue, ℕ, length, slice_index};
ghost use Rattle.plan_charge.specs.Forbidden.{AreForbidden, UsesNone, is_forbidden};

/// Which locations the first facilities of an instance may not take.
#[derive(Drop)]
pub struct Forbidden {
    /// How many facilities have a row, or 0.
    pub count: usize,
    /// A row for each of them, with a cell for each location: whether it is forbidden.
    pub cells: Vec<bool>,
}

impl Forbidden {
    /// Whether facility `i` may not be at location `k`, of `n` locations.
    pub fn at(&self, n: usize, i: usize, k: usize) -> bool
        requires forbidden { AreForbidden n self.now }
        requires column { k < n }
        ensures { result ≡ is_forbidden n self.now i k }
    {
        if i < self.count {
            self.cells[i * n + k]
        } else {
            false
        }
    }

    /// Whether facilities at these locations use no forbidden one.
    pub fn is_spared(&self, locations: &[u16]) -> bool
        requires forbidden { AreForbidden (length locations.now) self.now }
        requires inside { (i : ℕ) → i < length locations.now → slice_index locations.now i < length locations.now }
        ensures { IsTrue result ↔ UsesNone (length locations.now) self.now locations.now }
    {
        let n = locations.len();
        for i in 0..self.count {
            if self.at(n, i, usize::from(locations[i])) {
                return false;
            }
        }
        true
    }
}
