//! Limited numbers of a line.

ghost use Rattle.std.specs.Prelude.{◌≡◌, ◌++◌, IfErr, IfOk};
ghost use Rattle.qap_lines.specs.LineText.{numbers_text};
ghost use Rattle.proof_tree.specs.Shape.{AreLimited};
ghost use Rattle.proof_check.specs.Completeness.{RefusesNumbers};
ghost use Rattle.proof_check.specs.Fault.{IsReadFault};

use qap_lines::read_numbers;
use qap_proof::ProofError;
use std::alloc::Global;

/// The `m` numbers after a name, each from -10^24 to 10^24.
pub(crate) fn limited_numbers(
    alloc: Global,
    name: &[u8],
    text: &[u8],
    m: usize,
    number: u64,
) -> Result<Vec<i128>, ProofError>
    ensures found { IfOk result (λ u. AreLimited m u.items × (text.now ≡ name.now ++ numbers_text u.items)) }
    ensures refused { IfErr result (RefusesNumbers m name.now text.now) }
    ensures class { IfErr result IsReadFault }
{
    let mut u = Vec::new(alloc);
    let Some(found) = read_numbers(name, text, m, &mut u)? else {
        return Err(ProofError::BadLine(number));
    };
    if found.count != m {
        return Err(ProofError::DualCount(number));
    }
    if !found.limited {
        return Err(ProofError::DualRange(number));
    }
    Ok(u)
}
