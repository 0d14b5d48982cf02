//! The instance of a plan with costs of places or forbidden places.

ghost use Rattle.std.specs.Prelude.{IfOk, IfSome};
ghost use Rattle.plan_charge.specs.Charges.{AreCharges};
ghost use Rattle.plan_charge.specs.Forbidden.{AreForbidden};
ghost use Rattle.qap_verify.specs.Larger.{IsLargerText};

use plan_charge::{Charges, Forbidden, extended, forbid};
use qap_cost::Instance;
use qap_text::text_of_instance;
use std::alloc::{AllocError, Global};

/// The text of the instance with an extra facility and an extra location for each facility that pays or has forbidden
/// locations; `None` if its numbers do not fit.
pub fn larger_text(
    alloc: Global,
    instance: &Instance,
    charges: &Charges,
    forbidden: &Forbidden,
) -> Result<Option<Vec<u8>>, AllocError>
    requires charges { AreCharges instance.now.size charges.now }
    requires forbidden { AreForbidden instance.now.size forbidden.now }
    ensures { IfOk result (λ found. IfSome found (λ text. IsLargerText instance.now charges.now forbidden.now text.items)) }
{
    match forbid(alloc, instance, charges, forbidden)? {
        Some(raised) => {
            let larger = extended(alloc, instance, &raised)?;
            let text = text_of_instance(alloc, &larger)?;
            Ok(Some(text))
        }
        None => Ok(None),
    }
}
