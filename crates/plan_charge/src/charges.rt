//! Charges of facilities for their locations.

ghost use Rattle.std.specs.Prelude.{◌≡◌, ◌*◌, ◌^◌, ◌<◌, ◌≤◌, ℕ, length, slice_index, unsigned_abs};
ghost use Rattle.qap_cost.specs.Range.{InRange};
ghost use Rattle.qap_cost.specs.Sum.{sum_to};
ghost use Rattle.plan_charge.specs.Charges.{AreCharges, charge_at, charge_of, charged};

use qap_cost::product;

/// What the first facilities of an instance are charged for their locations: the facility of number `i` at location `k`
/// pays `weight` times entry `k` of row `i`.
#[derive(Drop)]
pub struct Charges {
    /// How many facilities pay, or 0.
    pub count: usize,
    /// A number from -10^9 to 10^9 that multiplies each entry.
    pub weight: i64,
    /// A row for each facility that pays, with an entry for each location, from -10^9 to 10^9.
    pub entries: Vec<i64>,
}

impl Charges {
    /// What facilities at these locations pay together.
    pub fn total(&self, locations: &[u16]) -> i128
        requires charges { AreCharges (length locations.now) self.now }
        requires inside { (i : ℕ) → i < length locations.now → slice_index locations.now i < length locations.now }
        ensures value { result ≡ charged (length locations.now) self.now locations.now }
        ensures bounded { unsigned_abs result ≤ 256 * 10 ^ 18 }
    {
        let n = locations.len();
        let mut total = 0;
        for i in 0..self.count {
            let charge = self.charge(n, i, usize::from(locations[i]));
            total += i128::from(charge);
        }
        total
    }

    /// What facility `i` pays at location `k`, of `n` locations.
    pub(crate) fn charge(&self, n: usize, i: usize, k: usize) -> i64
        requires charges { AreCharges n self.now }
        requires row { i < self.now.count }
        requires column { k < n }
        ensures value { result ≡ charge_of n self.now i k }
        ensures bounded { unsigned_abs result ≤ 10 ^ 18 }
    {
        product(self.weight, self.entry(n, i, k))
    }

    /// Entry `k` of row `i`, of `n` entries.
    pub fn entry(&self, n: usize, i: usize, k: usize) -> i64
        requires charges { AreCharges n self.now }
        requires row { i < self.now.count }
        requires column { k < n }
        ensures value { result ≡ charge_at n self.now i k }
        ensures range { InRange result }
    {
        self.entries[i * n + k]
    }
}
