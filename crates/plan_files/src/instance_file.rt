//! The problem of a plan, and the instance of a file.

ghost use Rattle.std.specs.Prelude.{◌≡◌, IfOk, IfSome, IsTrue};
ghost use Rattle.plan_charge.specs.Charges.{AreCharges};
ghost use Rattle.plan_charge.specs.Forbidden.{AreForbidden};
ghost use Rattle.plan_file.specs.Tables.{HasSizes};
ghost use Rattle.plan_input.specs.Loaded.{IsLoaded};
ghost use Rattle.qap_cost.specs.Objective.{Permutes};
ghost use Rattle.plan_files.specs.Searched.{IsOfLoaded, IsRootOfRestricted, IsSearchedIn, IsWidened};
ghost use Rattle.plan_files.specs.Sources.{IsInstanceIn, IsPlain};
ghost use Rattle.qap_proof.specs.Claim.{IsRoot};

use crate::error::PlannerError;
use crate::file_bytes::bytes_in;
use crate::reading::read_problem;
use crate::refusal::Refusal;
use crate::restriction::{Restriction, allowed_start, widened};
use plan_charge::{Restricted, extended_permutation, restricted_law};
use plan_file::{NamedProblem, ascending};
use plan_input::{Loaded, Texts, is_plan, load_from};
use qap_cost::{Instance, Partial, Perm};
use qap_io::Counted;
use std::alloc::Global;

/// The problem of a plan for a run.
pub fn plan_in<'a, D: Texts>(alloc: Global, texts: &D, file: &'a str) -> Result<Loaded, Refusal<'a>>
    ensures sizes { IfOk result (λ loaded. HasSizes loaded.problem) }
    ensures charges { IfOk result (λ loaded. AreCharges loaded.problem.instance.size loaded.charges) }
    ensures forbidden { IfOk result (λ loaded. AreForbidden loaded.problem.instance.size loaded.forbidden) }
    ensures loaded { IfOk result (IsLoaded (D.holds texts.now) file.now) }
{
    match load_from(alloc, texts, file) {
        Ok(loaded) => Ok(loaded),
        Err(error) => Err(Refusal::Load(error)),
    }
}

/// Whether a plan has neither costs of places nor forbidden places.
pub fn is_plain(loaded: &Loaded) -> bool
    ensures { IsTrue result → IsPlain loaded.now }
{
    loaded.charges.count == 0 && loaded.forbidden.count == 0
}

/// How many decimals costs have in the plan's own units.
pub fn cost_decimals(problem: &NamedProblem) -> usize
    requires { HasSizes problem.now }
{
    problem.flow_scale + problem.distance_scale
}

/// The names of the files that a run on a plan reads.
pub fn inputs_of<'a>(file: &'a str, loaded: &'a Loaded) -> [&'a str; 4] {
    let costs = match &loaded.costs_file {
        Some(name) => name.as_str(),
        None => file,
    };
    [
        file,
        loaded.flows_file.as_str(),
        loaded.distances_file.as_str(),
        costs,
    ]
}

/// The instance of a file in the QAPLIB format, after which a word is an error unless it is to be ignored.
pub fn instance_in<'a, D: Texts>(
    alloc: Global,
    texts: &D,
    file: &'a str,
    passes: bool,
) -> Result<Instance, Refusal<'a>>
    ensures { IfOk result (IsInstanceIn (D.holds texts.now) file.now passes) }
{
    let bytes = bytes_in(alloc, texts, file)?;
    match read_problem(alloc, &mut Counted::new(bytes.as_slice()), passes) {
        Ok(instance) => Ok(instance),
        Err(error) => Err(Refusal::File(file, error)),
    }
}

/// What is searched: the completions of a root of an instance.
#[derive(Drop)]
pub struct Searched {
    pub instance: Instance,
    /// What is fixed, ascending.
    pub root: Partial,
    /// Where the search starts if no start is requested, if the plan forbids places: a permutation that uses none.
    pub start: Option<Perm>,
    /// The files of the tables of the plan, if there is one.
    pub tables: [Option<String>; 3],
}

impl Searched {
    /// The names of the files that were read, the file of the plan or of the instance being this.
    pub fn inputs<'a>(&'a self, file: &'a str) -> [&'a str; 4] {
        let [flows, distances, costs] = &self.tables;
        [
            file,
            name_or(flows, file),
            name_or(distances, file),
            name_or(costs, file),
        ]
    }
}

/// A name, or another one if there is none.
fn name_or<'a>(name: &'a Option<String>, other: &'a str) -> &'a str {
    match name {
        Some(name) => name.as_str(),
        None => other,
    }
}

/// The instance of a plan's tables with what the plan fixes, or that of a file in the QAPLIB format. If the plan has costs
/// of places or forbids some, the instance has extra facilities and locations for them.
pub fn searched_in<'a, D: Texts>(
    alloc: Global,
    texts: &D,
    file: &'a str,
    passes: bool,
) -> Result<Searched, Refusal<'a>>
    ensures root { IfOk result (λ s. IsRoot s.instance.size s.root) }
    ensures start { IfOk result (λ s. IfSome s.start (Permutes s.instance)) }
    ensures searched { IfOk result (IsSearchedIn (D.holds texts.now) file.now passes) }
{
    if is_plan(file) {
        let loaded = plan_in(alloc, texts, file)?;
        return match searched_in_plan(alloc, loaded) {
            Ok(searched) => Ok(searched),
            Err(error) => Err(Refusal::File(file, error)),
        };
    }
    let instance = instance_in(alloc, texts, file, passes)?;
    match Partial::root(alloc, instance.size()) {
        Ok(root) => Ok(Searched {
            instance,
            root,
            start: None,
            tables: [None, None, None],
        }),
        Err(_) => Err(Refusal::File(file, PlannerError::OutOfMemory)),
    }
}

/// The instance of a plan's tables, with what the plan fixes.
fn searched_in_plan(alloc: Global, loaded: Loaded) -> Result<Searched, PlannerError>
    requires sizes { HasSizes loaded.problem }
    requires charges { AreCharges loaded.problem.instance.size loaded.charges }
    requires forbidden { AreForbidden loaded.problem.instance.size loaded.forbidden }
    ensures root { IfOk result (λ s. IsRoot s.instance.size s.root) }
    ensures start { IfOk result (λ s. IfSome s.start (Permutes s.instance)) }
    ensures searched { IfOk result (IsOfLoaded loaded) }
{
    if !is_plain(&loaded) {
        return searched_restricted(alloc, loaded);
    }
    let Loaded {
        problem,
        flows_file,
        distances_file,
        costs_file,
        ..
    } = loaded;
    let root = ascending(alloc, &problem.fixed)?;
    Ok(Searched {
        instance: problem.instance,
        root,
        start: None,
        tables: [Some(flows_file), Some(distances_file), costs_file],
    })
}

/// The instance and the root of a plan with costs of places or forbidden places, with the extra facilities.
fn searched_restricted(alloc: Global, loaded: Loaded) -> Result<Searched, PlannerError>
    requires sizes { HasSizes loaded.problem }
    requires charges { AreCharges loaded.problem.instance.size loaded.charges }
    requires forbidden { AreForbidden loaded.problem.instance.size loaded.forbidden }
    ensures root { IfOk result (λ s. IsRoot s.instance.size s.root) }
    ensures start { IfOk result (λ s. IfSome s.start (Permutes s.instance)) }
    ensures widened { IfOk result (IsWidened loaded) }
{
    let restriction = Restriction {
        fixed: &loaded.problem.fixed,
        charges: &loaded.charges,
        forbidden: &loaded.forbidden,
    };
    let (restricted, start) = restricted_search(alloc, &loaded.problem.instance, &restriction)?;
    let Restricted { instance, node } = restricted;
    Ok(Searched {
        instance,
        root: node,
        start: Some(start),
        tables: [
            Some(loaded.flows_file),
            Some(loaded.distances_file),
            loaded.costs_file,
        ],
    })
}

/// The larger instance with its root, ascending, and a permutation that completes it and uses no forbidden location.
fn restricted_search(
    alloc: Global,
    instance: &Instance,
    restriction: &Restriction<'_>,
) -> Result<(Restricted, Perm), PlannerError>
    requires size { restriction.now.fixed.now.size ≡ instance.now.size }
    requires charges { AreCharges instance.now.size restriction.now.charges.now }
    requires forbidden { AreForbidden instance.now.size restriction.now.forbidden.now }
    ensures root { IfOk result (λ r. IsRoot r.0.instance.size r.0.node) }
    ensures start { IfOk result (λ r. Permutes r.0.instance r.1) }
    ensures widened { IfOk result (λ r. IsRootOfRestricted instance.now restriction.now.fixed.now restriction.now.charges.now restriction.now.forbidden.now r.0.instance r.0.node) }
{
    restricted_law();
    let larger = widened(alloc, instance, restriction)?;
    let start = allowed_start(alloc, restriction, None)?;
    let count = larger.instance.size() - instance.size();
    let longer = extended_permutation(&start, count)?;
    let node = ascending(alloc, &larger.node)?;
    Ok((
        Restricted {
            instance: larger.instance,
            node,
        },
        longer,
    ))
}
