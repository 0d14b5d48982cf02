//! What controls the workers of a search: a clock and a gate.

/// What controls the workers of a search: a clock, by which the moment advances, and a gate, which is consulted before
/// each of their steps and informed after it.
#[derive(Clone, Copy)]
pub struct Pace<'a, C, G> {
    /// Gives the moment.
    pub clock: &'a C,
    /// Lets workers make their steps.
    pub gate: &'a G,
}
