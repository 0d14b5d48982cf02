//! The instance and the node that a search with charges and forbidden locations searches.

ghost use Rattle.std.specs.Prelude.{◌≡◌, ◌≤ℤ◌, IfOk, List, MatchOption, ℕ, ℤ, take};
ghost use Rattle.qap_cost.specs.Instance.{Problem};
ghost use Rattle.qap_cost.specs.Objective.{cost_of};
ghost use Rattle.qap_cost.specs.Placement.{Completes, Placement};
ghost use Rattle.plan_charge.specs.Charges.{AreCharges};
ghost use Rattle.plan_charge.specs.Extended.{extended_list};
ghost use Rattle.plan_charge.specs.Forbidden.{AreForbidden};
ghost use Rattle.plan_charge.specs.Forbidding.{DoesNotFit};
ghost use Rattle.plan_charge.specs.Restricted.{IsAllowed, IsCharged, Restricts};
ghost use Rattle.plan_charge.specs.declared.charges.Charges.{Charges as ChargesOf};
ghost use Rattle.plan_charge.specs.declared.forbidden.Forbidden.{Forbidden as ForbiddenOf};

use crate::charges::Charges;
use crate::extension::extended;
use crate::forbidden::Forbidden;
use crate::forbidding::forbid;
use crate::node::extended_node;
use qap_cost::{Instance, Partial};
use std::alloc::{AllocError, Global};

/// What a search with charges and forbidden locations searches.
#[derive(Drop)]
pub struct Restricted {
    /// The instance, with an extra facility and an extra location for each facility that pays or has forbidden locations.
    pub instance: Instance,
    /// What is placed, and the extra facilities.
    pub node: Partial,
}

/// The instance and the node whose completions cost what those of a node do, the charges included, or more than each of
/// them that uses no forbidden location. `None` if forbidden locations cannot cost enough.
pub fn restrict(
    alloc: Global,
    instance: &Instance,
    node: &Partial,
    charges: &Charges,
    forbidden: &Forbidden,
) -> Result<Option<Restricted>, AllocError>
    requires size { node.now.size ≡ instance.now.size }
    requires charges { AreCharges instance.now.size charges.now }
    requires forbidden { AreForbidden instance.now.size forbidden.now }
    ensures { IfOk result (λ found. MatchOption found
        (DoesNotFit instance.now charges.now forbidden.now)
        (λ r. Restricts instance.now node.now charges.now forbidden.now r.instance r.node)) }
{
    node.placement_law();
    let Some(raised) = forbid(alloc, instance, charges, forbidden)? else {
        return Ok(None);
    };
    let larger = extended(alloc, instance, &raised)?;
    let node = extended_node(alloc, node, raised.count)?;
    Ok(Some(Restricted {
        instance: larger,
        node,
    }))
}

/// Completions of the larger node and of the other. What is found among the former from an allowed start, at most at its
/// cost, is allowed, with its cost and its bound; each allowed one has a longer one; and each longer one its front.
pub fn restricted_law()
    ensures found { (I J : Problem) (x y : Placement) (c : ChargesOf) (f : ForbiddenOf) (start q : List ℕ) (cost g : ℤ) (r : Restricts I x c f J y) → IsAllowed x f start
        → Completes y q → cost_of J q ≡ cost → cost ≤ℤ cost_of J (extended_list r.charges.count start) → ((s : List ℕ) → Completes y s → g ≤ℤ cost_of J s) → g ≤ℤ cost
        → IsCharged I x c f start (take x.size q) cost g }
    ensures longer { (I J : Problem) (x y : Placement) (c : ChargesOf) (f : ForbiddenOf) (p : List ℕ) (r : Restricts I x c f J y) → IsAllowed x f p
        → Completes y (extended_list r.charges.count p) }
    ensures shorter { (I J : Problem) (x y : Placement) (c : ChargesOf) (f : ForbiddenOf) (q : List ℕ) (r : Restricts I x c f J y) → Completes y q → q ≡ extended_list r.charges.count (take x.size q) }
{}
