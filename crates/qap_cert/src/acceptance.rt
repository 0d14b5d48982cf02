//! Checks texts of certificates.

ghost use Rattle.std.specs.Prelude.{◌≡◌, ◌≤◌, ◌⊎◌, ℕ, List, IfOk, MatchResult};
ghost use Rattle.qap_cost.specs.Instance.{IsInstance};
ghost use Rattle.qap_cost.specs.Placement.{root_of};
ghost use Rattle.qap_cost.specs.Range.{IsLimited};
ghost use Rattle.qap_cert.specs.Acceptance.{ShowsVerdict, IsVerdictOf, IsSo, IsLimitedVerdict, IsRefused};
ghost use Rattle.qap_lines.specs.Bound.{IsBoundFor};
ghost use Rattle.qap_cert.specs.Certificate.{claim_of};
ghost use Rattle.qap_cert.specs.TextFault.{IsFaultFromTree};
ghost use Rattle.qap_cert.specs.Tree.{Node};
ghost use Rattle.qap_cert.specs.Walk.{EndsBehindTree, Any, IsToldOf};

use crate::checking::judge_perm;
use crate::error::CertError;
use crate::placed::Placed;
use crate::reader::{Head, read_end, read_head};
use crate::skimming::skim_trees;
use crate::walking::{Buffers, Task, judge_tree};
use gilmore_lawler::RankedInstance;
use qap_cost::{Instance, Partial};
use std::alloc::Global;

/// What a text establishes about an instance's least cost.
#[derive(Clone, Copy, Debug, PartialEq, Eq)]
pub enum Verdict {
    /// This is the least cost.
    Optimal(i128),
    /// No permutation costs less than the first number, which is below the second one, and some permutation costs that.
    Gap(i128, i128),
}

/// What a text establishes about an instance's least cost, if it is that of a certificate for it.
///
/// Otherwise the first fault is reported: every fault that `read` reports comes before every fault that `check`
/// reports.
pub fn accept(alloc: Global, instance: &Instance, text: &[u8]) -> Result<Verdict, CertError>
    ensures verdict { MatchResult result
        (ShowsVerdict instance.now text.now)
        (λ e. (e ≡ CertError.OutOfMemory) ⊎ IsRefused instance.now text.now e) }
    ensures bounded { IfOk result IsLimitedVerdict }
    ensures so { IfOk result (IsSo instance.now) }
{
    let head = read_head(alloc, text)?;
    if let Err(fault) = judge_perm(instance, &head.perm, head.cost) {
        skim_to_end(alloc, &head)?;
        return Err(fault);
    }
    match judge_to_end(alloc, instance, &head)? {
        None => Ok(verdict_of(&head)),
        Some(fault) => Err(fault),
    }
}

/// Checks only the syntax of the tree and the last line.
fn skim_to_end(alloc: Global, head: &Head<'_>) -> Result<(), CertError>
    requires { head.now.grammar.size ≤ 256 }
    ensures { MatchResult result
        (λ done. EndsBehindTree head.now.grammar.version head.now.grammar.size head.now.rest.now Any)
        (λ e. (e ≡ CertError.OutOfMemory) ⊎ IsFaultFromTree head.now.grammar.version head.now.grammar.size head.now.line head.now.rest.now e) }
{
    let mut left = Vec::with_capacity(alloc, head.grammar.size + 1)?;
    let mut placed = Placed::none();
    let behind = skim_trees(
        &mut left,
        head.rest,
        head.grammar,
        &mut placed,
        head.line,
        1,
    )?;
    read_end(behind.rest, behind.next)
}

/// Checks the tree and the last line, and reports the first bound that fails, if one does.
fn judge_to_end(
    alloc: Global,
    instance: &Instance,
    head: &Head<'_>,
) -> Result<Option<CertError>, CertError>
    requires { head.now.grammar.size ≡ instance.now.size }
    ensures instance { IsInstance instance.now }
    ensures judged { MatchResult result
        (λ fault. EndsBehindTree head.now.grammar.version head.now.grammar.size head.now.rest.now
        (IsToldOf instance.now head.now.bound (root_of instance.now.size) head.now.line fault))
        (λ e. (e ≡ CertError.OutOfMemory) ⊎ IsFaultFromTree head.now.grammar.version head.now.grammar.size head.now.line head.now.rest.now e) }
{
    let root = Partial::root(alloc, instance.size())?;
    let ranked = RankedInstance::new(alloc, instance)?;
    let mut buffers = Buffers::new(alloc);
    let task = Task {
        grammar: head.grammar,
        ranked: &ranked,
        bound: head.bound,
    };
    let judged = judge_tree(&mut buffers, &task, root, head.rest, head.line)?;
    read_end(judged.rest, judged.next)?;
    Ok(judged.fault)
}

/// What a certificate's text states.
fn verdict_of(head: &Head<'_>) -> Verdict
    requires cost { IsLimited head.now.cost }
    requires bound { IsBoundFor head.now.cost head.now.bound }
    ensures says { (p : List ℕ) (t : Node) → IsVerdictOf (claim_of head.now.cost head.now.bound p t) result }
    ensures bounded { IsLimitedVerdict result }
{
    if head.bound < head.cost {
        Verdict::Gap(head.bound, head.cost)
    } else {
        Verdict::Optimal(head.cost)
    }
}
