//! An instance: its size and its two matrices.

ghost use Rattle.std.specs.Prelude.{◌≡◌, ◌<◌, IfOk, MatchResult};
ghost use Rattle.std.specs.Bool.{MatchBool};
ghost use Rattle.std.specs.List.{All};
ghost use Rattle.qap_cost.specs.Fault.{IsFirstFault, HasEntryOutside};
ghost use Rattle.qap_cost.specs.Instance.{Problem, IsInstance, entry};
ghost use Rattle.qap_cost.specs.Range.{AllInRange, InRange};
ghost use Rattle.qap_cost.specs.Row.{IsRow};

use crate::CostError;
use std::alloc::AllocError;
use std::marker::Model;

/// The size that no instance passes.
pub const MAX_SIZE: usize = 256;

/// The greatest absolute value of a stated cost, of a bound and of a dual.
pub const MAX_VALUE: u128 = 1_000_000_000_000_000_000_000_000;

/// The greatest absolute value of an entry.
pub const MAX_ENTRY: u64 = 1_000_000_000;

/// An instance of the quadratic assignment problem: two square matrices A and B of whole numbers.
///
/// A facility `i` and a facility `j` at the locations `k` and `l` cost `a(i, j) * b(k, l)`
/// (Koopmans and Beckmann 1957).
#[derive(Drop)]
pub struct Instance {
    size: usize,
    a: Vec<i64>,
    b: Vec<i64>,
}

impl Model for Instance {
    ghost Value = { Problem };

    ghost view = { λ s. record { size = s.size; a = s.a.items; b = s.b.items } };

    ghost invariant = { λ s. IsInstance (record { size = s.size; a = s.a.items; b = s.b.items }) };
}

impl Instance {
    /// The instance of size `n` whose matrices have the entries `a` and `b`, listed by rows.
    ///
    /// The size is checked first (1 to 256), then the two counts (`n * n` each), then the entries (-10^9 to 10^9).
    /// Allocates nothing; a refusal drops the lists.
    pub fn new(n: usize, a: Vec<i64>, b: Vec<i64>) -> Result<Instance, CostError>
        ensures { MatchResult result
            (λ I. (I ≡ record { size = n; a = a.items; b = b.items }) × IsInstance I)
            (IsFirstFault n a.items b.items) }
    {
        if n == 0 {
            return Err(CostError::SizeZero);
        }
        if n > MAX_SIZE {
            return Err(CostError::SizeTooLarge);
        }
        if a.len() != n * n || b.len() != n * n {
            return Err(CostError::CountDiffers);
        }
        if !are_entries(&a) || !are_entries(&b) {
            return Err(CostError::EntryRange);
        }
        Ok(Instance { size: n, a, b })
    }

    /// The number of facilities, and of locations: from 1 to 256.
    pub fn size(&self) -> usize
        ensures value { result ≡ self.now.size }
        ensures instance { IsInstance self.now }
    {
        self.size
    }

    /// What every instance satisfies, for a proof that needs it. It costs nothing.
    pub fn instance_law(&self)
        ensures { IsInstance self.now }
    {
        let _ = &self.size;
    }

    /// Row `i`, column `j` of A.
    pub fn a(&self, i: usize, j: usize) -> i64
        requires row { i < self.now.size }
        requires column { j < self.now.size }
        ensures value { result ≡ entry self.now.size self.now.a i j }
        ensures range { InRange result }
    {
        self.a[i * self.size + j]
    }

    /// Row `k`, column `l` of B.
    pub fn b(&self, k: usize, l: usize) -> i64
        requires row { k < self.now.size }
        requires column { l < self.now.size }
        ensures value { result ≡ entry self.now.size self.now.b k l }
        ensures range { InRange result }
    {
        self.b[k * self.size + l]
    }

    /// Row `i` of A.
    pub fn a_row(&self, i: usize) -> &[i64]
        requires { i < self.now.size }
        ensures row { IsRow self.now.size self.now.a i result.now }
        ensures range { AllInRange result.now }
    {
        let start = i * self.size;
        &self.a[start..start + self.size]
    }

    /// Row `k` of B.
    pub fn b_row(&self, k: usize) -> &[i64]
        requires { k < self.now.size }
        ensures row { IsRow self.now.size self.now.b k result.now }
        ensures range { AllInRange result.now }
    {
        let start = k * self.size;
        &self.b[start..start + self.size]
    }

    /// The same instance again.
    pub fn copy(&self) -> Result<Instance, AllocError>
        ensures value { IfOk result (λ I. I ≡ self.now) }
        ensures instance { IfOk result IsInstance }
    {
        let a = self.a.clone()?;
        let b = self.b.clone()?;
        let size = self.size;
        Ok(Instance { size, a, b })
    }
}

/// Whether each number is within the range of entries.
fn are_entries(numbers: &[i64]) -> bool
    ensures { MatchBool result (All InRange numbers.now) (HasEntryOutside numbers.now) }
{
    for x in numbers {
        if x.unsigned_abs() > MAX_ENTRY {
            return false;
        }
    }
    true
}
