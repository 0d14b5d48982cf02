//! Loads the problem of a plan and of the tables that it names.

ghost use Rattle.std.specs.Prelude.{◌≡◌, IfOk, map, option_map, string_bytes};
ghost use Rattle.plan_charge.specs.Charges.{AreCharges};
ghost use Rattle.plan_charge.specs.Forbidden.{AreForbidden};
ghost use Rattle.plan_file.specs.Charges.{IsForbiddenBy};
ghost use Rattle.plan_file.specs.Tables.{HasSizes, IsSound};
ghost use Rattle.plan_input.specs.Loaded.{AreCostsIn, IsCostTable, IsLoaded, IsMadeOf, IsPlanIn, IsTableIn, name_beside, name_of_distances, name_of_flows};
ghost use Rattle.plan_input.specs.declared.loading.LoadError.TheVariants.{OutOfMemory as WantOfMemory};

use crate::texts::{Disk, Texts};
use plan_charge::{Charges, Forbidden};
use plan_file::{
    ChargesError, Distances, Drawing, FixingError, Flows, NamedProblem, PlaceCharges, Plan,
    PlanError, ProblemError, TablesError, read_charges, read_plan, read_tables,
};
use plan_table::{Encoding, TableError, decode};
use qap_io::Status;
use std::alloc::{AllocError, Global};
use std::fs::Files;
use std::path::Path;
use thiserror::Error;

/// How the name of a plan's file ends.
const SUFFIX: &str = ".toml";

/// Why a plan has no problem, and which file is at fault.
#[derive(Debug, Drop, Error)]
pub enum LoadError {
    /// A file does not exist, is a folder, or cannot be read.
    #[error("{file}: the file can't be read: name one that is there; tables are looked up from the plan's folder")]
    Unread { file: String },
    /// A file is too long.
    #[error("{file}: the file is longer than 1 GiB")]
    TooLong { file: String },
    /// The text is not a plan.
    #[error("{file}: {error}")]
    Plan { file: String, error: PlanError },
    /// The tables make no problem.
    #[error("{file}: {error}")]
    Tables { file: String, error: TablesError },
    /// The costs and the forbidden places do not fit the problem.
    #[error("{file}: {error}")]
    Charges { file: String, error: ChargesError },
    /// Memory ran out.
    #[error("out of memory")]
    OutOfMemory,
}

impl LoadError {
    /// How a run ends that meets this.
    pub fn status(&self) -> Status {
        match self {
            LoadError::OutOfMemory => Status::OutOfMemory,
            LoadError::Plan { error, .. } => plan_status(error),
            LoadError::Tables { error, .. } => tables_status(error),
            LoadError::Charges { error, .. } => charges_status(error),
            _ => Status::Refused,
        }
    }
}

fn plan_status(error: &PlanError) -> Status {
    match error {
        PlanError::OutOfMemory => Status::OutOfMemory,
        _ => Status::Refused,
    }
}

fn tables_status(error: &TablesError) -> Status {
    match error {
        TablesError::Flows(TableError::OutOfMemory)
        | TablesError::Distances(TableError::OutOfMemory)
        | TablesError::Problem(ProblemError::OutOfMemory)
        | TablesError::Fixing(FixingError::OutOfMemory)
        | TablesError::OutOfMemory => Status::OutOfMemory,
        _ => Status::Refused,
    }
}

fn charges_status(error: &ChargesError) -> Status {
    match error {
        ChargesError::Costs(TableError::OutOfMemory) | ChargesError::OutOfMemory => {
            Status::OutOfMemory
        }
        _ => Status::Refused,
    }
}

impl From<AllocError> for LoadError {
    ghost from_gives = { λ _ e. e ≡ WantOfMemory };

    fn from(_error: AllocError) -> LoadError {
        LoadError::OutOfMemory
    }
}

/// The problem of a plan, what places cost in it, how it is drawn, and the files of the tables that it was read from,
/// with their encodings.
#[derive(Drop)]
pub struct Loaded {
    pub problem: NamedProblem,
    /// What departments pay for places.
    pub charges: Charges,
    /// The places that departments may not take.
    pub forbidden: Forbidden,
    pub drawing: Drawing,
    pub flows_file: String,
    pub flows_encoding: Encoding,
    pub distances_file: String,
    pub distances_encoding: Encoding,
    /// The file of the costs, if there is one.
    pub costs_file: Option<String>,
    pub costs_encoding: Encoding,
}

/// A table's file, decoded.
#[derive(Drop)]
struct TableFile {
    name: String,
    encoding: Encoding,
    text: Vec<u8>,
}

/// Whether a file's name is that of a plan: it ends in `.toml`, in upper or lower case.
pub fn is_plan(file: &str) -> bool {
    match file.len().checked_sub(SUFFIX.len()) {
        Some(front) => file.as_bytes()[front..].eq_ignore_ascii_case(SUFFIX.as_bytes()),
        None => false,
    }
}

/// The problem of a plan's file and of the tables' files that it names.
pub fn load_problem<R: Files + AllocGlobal>(rt: &R, file: &str) -> Result<Loaded, LoadError>
    ensures sizes { IfOk result (λ loaded. HasSizes loaded.problem) }
    ensures charges { IfOk result (λ loaded. AreCharges loaded.problem.instance.size loaded.charges) }
    ensures forbidden { IfOk result (λ loaded. AreForbidden loaded.problem.instance.size loaded.forbidden) }
{
    load_from(rt.alloc(), &Disk { files: rt }, file)
}

/// The problem of the plan under a name and of the tables under the names in it.
pub fn load_from<T: Texts>(alloc: Global, texts: &T, file: &str) -> Result<Loaded, LoadError>
    ensures sizes { IfOk result (λ loaded. HasSizes loaded.problem) }
    ensures charges { IfOk result (λ loaded. AreCharges loaded.problem.instance.size loaded.charges) }
    ensures forbidden { IfOk result (λ loaded. AreForbidden loaded.problem.instance.size loaded.forbidden) }
    ensures loaded { IfOk result (IsLoaded (T.holds texts.now) file.now) }
{
    let plan = load_plan(alloc, texts, file)?;
    let flows = load_table(alloc, texts, file, flows_name(&plan.flows))?;
    let distances = load_table(alloc, texts, file, distances_name(&plan.distances))?;
    let costs = load_costs(alloc, texts, file, &plan.charging.costs)?;
    problem_of(alloc, file, plan, flows, distances, costs)
}

/// The plan under a name.
fn load_plan<T: Texts>(alloc: Global, texts: &T, file: &str) -> Result<Plan, LoadError>
    ensures sound { IfOk result IsSound }
    ensures plan { IfOk result (IsPlanIn (T.holds texts.now) file.now) }
{
    let text = texts.read(alloc, file)?;
    match read_plan(alloc, &text) {
        Ok(plan) => Ok(plan),
        Err(error) => {
            let file = String::from_str(alloc, file)?;
            Err(LoadError::Plan { file, error })
        }
    }
}

/// The file of a plan's flows.
fn flows_name(flows: &Flows) -> &str
    ensures { result.now ≡ name_of_flows flows.now }
{
    match flows {
        Flows::Matrix(file) => file.as_str(),
        Flows::Trips(file) => file.as_str(),
        Flows::TripsBetween(file, _) => file.as_str(),
    }
}

/// The file of a plan's distances.
fn distances_name(distances: &Distances) -> &str
    ensures { result.now ≡ name_of_distances distances.now }
{
    match distances {
        Distances::Matrix(file) => file.as_str(),
        Distances::Places(file, _) => file.as_str(),
    }
}

/// The table of costs that a plan names, if it does.
fn load_costs<T: Texts>(
    alloc: Global,
    texts: &T,
    plan: &str,
    name: &Option<String>,
) -> Result<Option<TableFile>, LoadError>
    ensures { IfOk result (IsCostTable (T.holds texts.now) plan.now name.now) }
{
    match name {
        Some(name) => Ok(Some(load_table(alloc, texts, plan, name.as_str())?)),
        None => Ok(None),
    }
}

/// The table of a name in a plan.
fn load_table<T: Texts>(
    alloc: Global,
    texts: &T,
    plan: &str,
    name: &str,
) -> Result<TableFile, LoadError>
    ensures { IfOk result (IsTableIn (T.holds texts.now) plan.now name.now) }
{
    let name = beside(alloc, plan, name)?;
    let bytes = texts.read(alloc, name.as_str())?;
    let decoded = decode(alloc, bytes)?;
    Ok(TableFile {
        name,
        encoding: decoded.encoding,
        text: decoded.text,
    })
}

/// The problem of a plan and of its tables.
fn problem_of(
    alloc: Global,
    file: &str,
    plan: Plan,
    flows: TableFile,
    distances: TableFile,
    costs: Option<TableFile>,
) -> Result<Loaded, LoadError>
    requires { IsSound plan }
    ensures sizes { IfOk result (λ loaded. HasSizes loaded.problem) }
    ensures charges { IfOk result (λ loaded. AreCharges loaded.problem.instance.size loaded.charges) }
    ensures forbidden { IfOk result (λ loaded. AreForbidden loaded.problem.instance.size loaded.forbidden) }
    ensures made { IfOk result (IsMadeOf plan flows distances costs) }
{
    let problem = match read_tables(alloc, &plan, &flows.text, &distances.text) {
        Ok(problem) => problem,
        Err(error) => return Err(tables_fault(alloc, file, flows, distances, error)),
    };
    let charged = match charges_of(alloc, &plan, &problem, &costs) {
        Ok(charged) => charged,
        Err(error) => return Err(charges_fault(alloc, file, costs, error)),
    };
    let (costs_file, costs_encoding) = file_of(costs);
    Ok(Loaded {
        problem,
        charges: charged.charges,
        forbidden: charged.forbidden,
        drawing: plan.drawing,
        flows_file: flows.name,
        flows_encoding: flows.encoding,
        distances_file: distances.name,
        distances_encoding: distances.encoding,
        costs_file,
        costs_encoding,
    })
}

/// What departments pay for places by the table of costs, if there is one, and which places the plan forbids to them.
fn charges_of(
    alloc: Global,
    plan: &Plan,
    problem: &NamedProblem,
    costs: &Option<TableFile>,
) -> Result<PlaceCharges, ChargesError>
    requires { HasSizes problem.now }
    ensures charges { IfOk result (λ r. AreCharges problem.now.instance.size r.charges) }
    ensures forbidden { IfOk result (λ r. AreForbidden problem.now.instance.size r.forbidden) }
    ensures costs { IfOk result (λ r. AreCostsIn costs.now plan.now.rules problem.now r.charges) }
    ensures barred { IfOk result (λ r. IsForbiddenBy plan.now.charging (map string_bytes problem.now.departments.items) (map string_bytes problem.now.places.items) r.forbidden) }
{
    match costs {
        Some(costs) => read_charges(alloc, plan, problem, Some(costs.text.as_slice())),
        None => read_charges(alloc, plan, problem, None),
    }
}

/// The file of a table of costs, if there is one, and its encoding.
fn file_of(costs: Option<TableFile>) -> (Option<String>, Encoding)
    ensures { result.0 ≡ option_map (λ t. t.name) costs }
{
    match costs {
        Some(costs) => (Some(costs.name), costs.encoding),
        None => (None, Encoding::Utf8),
    }
}

/// The error of tables that make no problem.
fn tables_fault(
    alloc: Global,
    plan: &str,
    flows: TableFile,
    distances: TableFile,
    error: TablesError,
) -> LoadError {
    let file = match fault_of(&error) {
        Fault::Flows => flows.name,
        Fault::Distances => distances.name,
        Fault::Plan => match String::from_str(alloc, plan) {
            Ok(plan) => plan,
            Err(_) => return LoadError::OutOfMemory,
        },
    };
    LoadError::Tables { file, error }
}

/// The error of costs and forbidden places that do not fit the problem.
fn charges_fault(
    alloc: Global,
    plan: &str,
    costs: Option<TableFile>,
    error: ChargesError,
) -> LoadError {
    let file = match (&error, costs) {
        (ChargesError::Costs(_) | ChargesError::TooFine { .. }, Some(costs)) => costs.name,
        _ => match String::from_str(alloc, plan) {
            Ok(plan) => plan,
            Err(_) => return LoadError::OutOfMemory,
        },
    };
    LoadError::Charges { file, error }
}

/// The file that is at fault.
enum Fault {
    Plan,
    Flows,
    Distances,
}

/// Which file an error is about.
fn fault_of(error: &TablesError) -> Fault {
    match error {
        TablesError::Flows(_) | TablesError::FlowsTooFine => Fault::Flows,
        TablesError::Distances(_)
        | TablesError::DistancesTooFine
        | TablesError::CoordinatesTooFine
        | TablesError::TooFar { .. } => Fault::Distances,
        TablesError::Problem(_) | TablesError::Fixing(_) | TablesError::OutOfMemory => Fault::Plan,
    }
}

/// The file of a name in a plan: a path that is not absolute is relative to the plan's folder.
fn beside(alloc: Global, plan: &str, name: &str) -> Result<String, AllocError>
    ensures { IfOk result (λ path. string_bytes path ≡ name_beside plan.now name.now) }
{
    match Path::new(plan).parent() {
        Some(folder) => Ok(folder.join(alloc, name)?.into_string()),
        None => String::from_str(alloc, name),
    }
}
