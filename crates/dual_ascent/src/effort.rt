//! How much work an ascent spends on a node.

/// How many soft sweeps an ascent runs, at which temperatures, and how many hard rounds after them.
#[derive(Clone, Copy, Debug, Drop, PartialEq)]
pub struct Effort {
    /// The number of soft sweeps.
    pub sweeps: u32,
    /// The temperature of the first sweeps, as a part of the cost.
    pub first: f64,
    /// The temperature of the last sweeps, as a part of the cost.
    pub last: f64,
    /// The number of sweeps between two changes of the temperature; 0 counts as 1.
    pub every: u32,
    /// The number of hard rounds after the sweeps; 0 counts as 1.
    pub rounds: u32,
}

impl Effort {
    /// Hard rounds alone.
    pub fn hard(rounds: u32) -> Effort {
        Effort {
            sweeps: 0,
            rounds,
            ..Effort::root()
        }
    }

    /// For the root of a search: 200 sweeps, which cool from 1/50 to 1/50,000 of the cost, and 10 rounds.
    pub fn root() -> Effort {
        Effort {
            sweeps: 200,
            first: 0.02,
            last: 0.00002,
            every: 4,
            rounds: 10,
        }
    }

    /// For a node below it, which starts from the pair duals of a node above: 20 sweeps, which cool from 1/2,000 to
    /// 1/50,000 of the cost, and 3 rounds.
    pub fn inner() -> Effort {
        Effort {
            sweeps: 20,
            first: 0.0005,
            last: 0.00002,
            every: 4,
            rounds: 3,
        }
    }
}
