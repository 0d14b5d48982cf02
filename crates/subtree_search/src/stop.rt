//! Requests to stop a search early.

ghost use Rattle.std.specs.Prelude.{◌≡◌, false, Bool};

/// May stop a search before its end.
pub trait Stop {
    /// Holds of what it may answer.
    ghost says: { Self → Bool → Type 0 };

    /// Whether the search is to stop now, though nodes are left.
    fn is_requested(&self) -> bool
        ensures { says self.now result };
}

/// Lets each search go on to its end.
#[derive(Clone, Copy, Debug)]
pub struct Never;

impl Stop for Never {
    ghost says = { λ _ b. b ≡ false };

    fn is_requested(&self) -> bool {
        false
    }
}
