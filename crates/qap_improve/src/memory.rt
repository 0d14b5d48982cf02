//! The memory of a tabu search: when each facility may return to each location (Taillard 1991).

ghost use Rattle.std.specs.Prelude.{◌≡◌, ◌*◌, ◌<◌, ◌≤◌, IfOk, IfSome, vec_len};

use rand_core::{Rng, SeedableRng};
use rand_xoshiro::Xoshiro256PlusPlus;
use std::alloc::{AllocError, Global};

/// How long both facilities of an exchange have to be away from where it would put them before it goes before others: in
/// iterations, as a multiple of the square of the number of facilities that may move.
const PATIENCE: u64 = 5;

/// The verdict of the memory on an exchange.
#[derive(Clone, Copy)]
pub enum Verdict {
    /// It would put both facilities where they were a short while ago.
    Tabu,
    Free,
    /// It would put both where they have not been for very long.
    Due,
}

/// From when on each facility may go to each location.
#[derive(Drop)]
pub struct Memory {
    pub size: usize,
    /// How many facilities may move.
    moving: usize,
    /// The iteration at hand. The count begins with the square of the number of facilities that may move.
    now: u64,
    /// Listed by facilities, from which iteration on they are free to go to each location.
    free_from: Vec<u64>,
    random: Xoshiro256PlusPlus,
    ghost small: { size ≤ 256 },
    ghost among: { moving ≤ 256 },
    ghost square: { vec_len free_from ≡ size * size },
}

impl Memory {
    /// That of a search among `n` facilities, this many of which may move, that has made no exchange.
    pub fn new(alloc: Global, n: usize, moving: usize, seed: u64) -> Result<Memory, AllocError>
        requires few { n ≤ 256 }
        requires among { moving ≤ n }
        ensures { IfOk result (λ m. m.size ≡ n) }
    {
        let now = (moving * moving) as u64;
        let free_from = numbers(alloc, (n * n) as u64, now.max(1))?;
        let random = Xoshiro256PlusPlus::seed_from_u64(seed);
        Ok(Memory {
            size: n,
            moving,
            now,
            free_from,
            random,
        })
    }

    /// The verdict on an exchange that puts facility `r` at location `to` and facility `s` at location `back`.
    pub fn verdict(&self, r: usize, to: usize, s: usize, back: usize) -> Verdict
        requires first { r < self.now.size }
        requires second { s < self.now.size }
        requires to { to < self.now.size }
        requires back { back < self.now.size }
    {
        let first = self.free_from[r * self.size + to];
        let second = self.free_from[s * self.size + back];
        if first > self.now && second > self.now {
            Verdict::Tabu
        } else if first < self.long_ago() && second < self.long_ago() {
            Verdict::Due
        } else {
            Verdict::Free
        }
    }

    /// Whether facility `r` has not been at location `to` for so long that an exchange which puts it there may be due.
    pub fn may_be_due(&self, r: usize, to: usize) -> bool
        requires facility { r < self.now.size }
        requires location { to < self.now.size }
    {
        self.free_from[r * self.size + to] < self.long_ago()
    }

    /// The iteration before which a facility has to have been free to go to a location for that to be very long.
    fn long_ago(&self) -> u64 {
        let square = (self.moving * self.moving) as u64;
        self.now.saturating_sub(PATIENCE * square)
    }

    /// Begins the next iteration.
    pub fn advance(&mut self)
        ensures { self.new.size ≡ self.old.size }
    {
        self.now = self.now.saturating_add(1);
    }

    /// Keeps the facility from coming back to the location that it leaves for a number of iterations.
    pub fn leave(&mut self, facility: usize, location: usize)
        requires facility { facility < self.old.size }
        requires location { location < self.old.size }
        ensures { self.new.size ≡ self.old.size }
    {
        let tenure = self.tenure();
        let place = facility * self.size + location;
        self.free_from[place] = self.now.saturating_add(tenure);
    }

    /// Two facilities at random, the lower first; `None` if the same one was drawn twice.
    pub fn draw(&mut self) -> Option<(usize, usize)>
        requires { 0 < self.old.size }
        ensures size { self.new.size ≡ self.old.size }
        ensures order { IfSome result (λ pair. pair.0 < pair.1) }
        ensures second { IfSome result (λ pair. pair.1 < self.old.size) }
    {
        let one = (self.random.next_u64() % self.size as u64) as usize;
        let other = (self.random.next_u64() % self.size as u64) as usize;
        if one == other {
            None
        } else {
            Some((one.min(other), one.max(other)))
        }
    }

    /// A number of iterations between 0.9 and 1.1 times the number of facilities that may move, at random.
    fn tenure(&mut self) -> u64
        ensures { self.new.size ≡ self.old.size }
    {
        let n = self.moving as u64;
        let least = 9 * n / 10;
        let most = 11 * n / 10;
        least + self.random.next_u64() % (most - least + 1)
    }
}

/// This many numbers: from 0 to `round - 1`, and then from 0 again.
fn numbers(alloc: Global, count: u64, round: u64) -> Result<Vec<u64>, AllocError>
    requires { 0 < round }
    ensures { IfOk result (λ v. vec_len v ≡ count) }
{
    (0..count).map(|i| i % round).collect(alloc)
}
