//! The costs that an instance and a solution yield.

ghost use Rattle.std.specs.Prelude.{◌≡◌, IfOk, length, string_bytes};

use qap_cost::{Instance, Perm, cost};
use qap_io::Status;
use std::alloc::{AllocError, Global};

/// Which cost the stated value is.
#[derive(Clone, Copy, Debug, PartialEq, Eq)]
pub enum Match {
    /// The permutation's own cost.
    Direct,
    /// Not that, but the cost of its inverse.
    Inverse,
    /// Neither.
    Neither,
}

/// The cost of a permutation, that of its inverse, the stated value, and which of the two it is.
#[derive(Clone, Copy, Debug, PartialEq, Eq)]
pub struct Valuation {
    pub cost: i128,
    pub inverse: i128,
    pub stated: i128,
    pub found: Match,
}

impl Valuation {
    ghost use Rattle.qap_check.specs.Valuation.{Judges, lines_of};

    /// Checks a stated value against both costs of a permutation of the instance's size.
    pub fn new(
        instance: &Instance,
        permutation: &Perm,
        stated: i128,
    ) -> Result<Valuation, AllocError>
        requires { length permutation.now ≡ instance.now.size }
        ensures { IfOk result (Judges instance.now permutation.now stated) }
    {
        let backward = permutation.inverse()?;
        let cost_forward = cost(instance, permutation);
        let cost_backward = cost(instance, &backward);
        let found = if cost_forward == stated {
            Match::Direct
        } else if cost_backward == stated {
            Match::Inverse
        } else {
            Match::Neither
        };
        Ok(Valuation {
            cost: cost_forward,
            inverse: cost_backward,
            stated,
            found,
        })
    }

    /// The four lines of a valuation.
    pub fn lines(&self, alloc: Global) -> Result<String, AllocError>
        ensures { IfOk result (λ text. string_bytes text ≡ lines_of self.now) }
    {
        let Valuation {
            cost,
            inverse,
            stated,
            found,
        } = *self;
        let name = found.name();
        format!(in alloc; "cost {cost}\ninverse {inverse}\nstated {stated}\nmatch {name}\n")
    }
}

impl Match {
    ghost use Rattle.qap_check.specs.Valuation.{match_name, match_status};

    /// The status of a run with this answer: refused, if the stated value matches neither cost.
    pub fn status(self) -> Status
        ensures { result ≡ match_status self }
    {
        match self {
            Match::Direct | Match::Inverse => Status::Done,
            Match::Neither => Status::Refused,
        }
    }

    fn name(self) -> &'static str
        ensures { result.now ≡ match_name self }
    {
        match self {
            Match::Direct => "direct",
            Match::Inverse => "inverse",
            Match::Neither => "none",
        }
    }
}
