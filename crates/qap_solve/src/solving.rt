//! Solves an instance, from bytes to bytes.

ghost use Rattle.std.specs.Prelude.{◌≡◌, ◌⊎◌, ◌++◌, ℕ, List, IfOk, MatchResult, Option, false, string_bytes, true};
ghost use Rattle.qap_cert.specs.Certificate.{Certifies, IsCertificate};
ghost use Rattle.qap_cert.specs.Text.{certificate_text};
ghost use Rattle.qap_cert.specs.declared.version.Version.TheVariants.{Second};
ghost use Rattle.qap_cost.specs.Instance.{Problem};
ghost use Rattle.qap_io.specs.Writing.{Sends};
ghost use Rattle.qap_search.specs.Runs.Answer.{IsSolveFault, LeavesOpen};
ghost use Rattle.qap_search.specs.Law.Search.{whole};
ghost use Rattle.qap_search.specs.Certificate.Stopped.{CertifiesStopped};
ghost use Rattle.qap_solve.specs.Options.{AreLimited};
ghost use Rattle.qap_solve.specs.Outcome.{IsLeastFound, IsOutcome};
ghost use Rattle.qap_solve.specs.Solution.{IsOutput, IsStoppedOutput, ShowsLeast};
ghost use Rattle.qap_solve.specs.Solving.{HasNotSolved, HasSolved, IsUnread, Stops};
ghost use Rattle.qap_solve.specs.declared.refusal.RunError.TheVariants.{OutOfMemory, Unfinished};
ghost use Rattle.qap_text.specs.Gap.{gap_line};
ghost use Rattle.qap_text.specs.Input.{HasInstance, input_of};
ghost use Rattle.qap_text.specs.WrittenSolution.{solution_text};

use crate::options::Options;
use crate::refusal::RunError;
use qap_cert::{CertError, Certificate, certified_law, write};
use qap_cost::{Instance, Perm};
use qap_io::{Counted, put};
use qap_search::{Clock, Crew, Gate, Least, Pace, SolveError, solve, solve_least};
use qap_text::{MAX_INPUT, TextError, gap_line, read_all, read_instance, write_solution};
use std::alloc::{AllocError, Global};
use std::io::{Read, Write};
use std::sync::Wait;
use std::thread::Threads;
use std::time;

/// What an instance's search has found.
#[derive(Drop)]
enum Outcome {
    /// A permutation of least cost.
    Permutation(Least),
    /// A certificate of the least cost.
    Certificate(Certificate),
    /// A certificate of a bound, from a search that was stopped at its limit of nodes.
    Stopped(Certificate),
}

/// Reads an instance, and writes a permutation of least cost with that cost, or, if requested, a certificate of the
/// cost instead.
///
/// If the search is stopped at the node limit, a line with a lower bound on all costs and the cost of the best
/// permutation found precedes that permutation, or the certificate of the bound is written alone; and the answer is
/// `Stopped`. All of the input is read; what follows the instance is ignored. If there is no answer, nothing is
/// written. If memory runs out during writing, or the writer fails, a prefix of the right text has been written.
pub fn solve_stream<T, R, W, C, G>(
    rt: &T,
    alloc: Global,
    reader: &mut Counted<R>,
    writer: &mut Counted<W>,
    options: &Options,
    pace: &Pace<'_, C, G>,
) -> Result<(), RunError>
where
    T: Threads + Wait + time::Clock + Sync,
    R: Read,
    W: Write,
    C: Clock,
    G: Gate + Sync,
    requires { AreLimited options.now }
    ensures { let s = input_of R.remaining reader.old reader.new in MatchResult result
        (λ _. HasSolved s options.now.nodes options.now.cert W.contents writer.old writer.new)
        (HasNotSolved s options.now.nodes options.now.cert W.contents writer.old writer.new) }
{
    let instance = read_problem(alloc, reader)?;
    match solved(rt, alloc, &instance, options, pace)? {
        Outcome::Permutation(found) => put_least(alloc, writer, &found),
        Outcome::Certificate(certificate) => put_proof(alloc, writer, &instance, &certificate),
        Outcome::Stopped(certificate) => {
            put_stopped(alloc, writer, options.cert, &instance, &certificate)?;
            Err(RunError::Stopped)
        }
    }
}

/// The instance that the input begins with.
fn read_problem<R: Read>(alloc: Global, reader: &mut Counted<R>) -> Result<Instance, RunError>
    ensures { let s = input_of R.remaining reader.old reader.new in
        MatchResult result (λ I. (rest : List ℕ) × HasInstance s I rest) (IsUnread s) }
{
    let text = read_all(alloc, reader, MAX_INPUT)?;
    let (instance, _) = read_instance(alloc, &text)?;
    Ok(instance)
}

/// What the instance's search yields; a certificate of a bound where it is stopped.
fn solved<T, C, G>(
    rt: &T,
    alloc: Global,
    instance: &Instance,
    options: &Options,
    pace: &Pace<'_, C, G>,
) -> Result<Outcome, RunError>
where
    T: Threads + Wait + time::Clock + Sync,
    C: Clock,
    G: Gate + Sync,
    requires { AreLimited options.now }
    ensures { MatchResult result
        (IsOutcome instance.now options.now.nodes options.now.cert)
        (λ e. ((count : ℕ) × LeavesOpen (whole instance.now) options.now.nodes count × (e ≡ Unfinished count)) ⊎ (e ≡ OutOfMemory)) }
{
    match searched(rt, alloc, instance, options, pace) {
        Ok(outcome) => Ok(outcome),
        Err(SolveError::Stopped(answer)) => Ok(Outcome::Stopped(answer.certificate)),
        Err(error) => Err(RunError::from(error)),
    }
}

/// A permutation of the instance's least cost, or, if requested, a certificate of that cost.
fn searched<T, C, G>(
    rt: &T,
    alloc: Global,
    instance: &Instance,
    options: &Options,
    pace: &Pace<'_, C, G>,
) -> Result<Outcome, SolveError>
where
    T: Threads + Wait + time::Clock + Sync,
    C: Clock,
    G: Gate + Sync,
    requires { AreLimited options.now }
    ensures { MatchResult result
        (IsOutcome instance.now options.now.nodes options.now.cert)
        (IsSolveFault instance.now options.now.workers options.now.nodes) }
{
    let Options {
        workers,
        lease_ms,
        nodes,
        cert,
    } = *options;
    let crew = Crew {
        workers,
        lease_ms,
        limit: nodes,
    };
    if cert {
        let answer = solve(rt, alloc, instance, crew, pace)?;
        Ok(Outcome::Certificate(answer.certificate))
    } else {
        let found = solve_least(rt, alloc, instance, crew, pace)?;
        Ok(Outcome::Permutation(found))
    }
}

/// Writes a permutation of least cost, with that cost.
fn put_least<W: Write>(
    alloc: Global,
    writer: &mut Counted<W>,
    found: &Least,
) -> Result<(), RunError>
    ensures { (I : Problem) (nodes : Option ℕ) → IsLeastFound I nodes found.now.permutation found.now.cost →
        (text : List ℕ) × IsOutput false I nodes text × MatchResult result
        (λ _. Sends W.contents writer.old writer.new text)
        (Stops W.contents writer.old writer.new text) }
{
    put_solution(alloc, writer, found.cost, &found.permutation)
}

/// Writes a certificate of the least cost.
fn put_proof<W: Write>(
    alloc: Global,
    writer: &mut Counted<W>,
    instance: &Instance,
    certificate: &Certificate,
) -> Result<(), RunError>
    ensures { (nodes : Option ℕ) → IsCertificate certificate.now → ShowsLeast instance.now nodes certificate.now →
        (text : List ℕ) × IsOutput true instance.now nodes text × MatchResult result
        (λ _. Sends W.contents writer.old writer.new text)
        (Stops W.contents writer.old writer.new text) }
{
    certified_law();
    instance.instance_law();
    put_certificate(alloc, writer, certificate)
}

/// Writes what a search that was stopped has found: the line of a certificate's bound and cost, and its permutation
/// with the cost; or the certificate itself.
fn put_stopped<W: Write>(
    alloc: Global,
    writer: &mut Counted<W>,
    cert: bool,
    instance: &Instance,
    certificate: &Certificate,
) -> Result<(), RunError>
    ensures { (nodes : ℕ) → CertifiesStopped instance.now nodes certificate.now →
        (text : List ℕ) × IsStoppedOutput cert instance.now nodes text × MatchResult result
        (λ _. Sends W.contents writer.old writer.new text)
        (Stops W.contents writer.old writer.new text) }
{
    certified_law();
    instance.instance_law();
    if cert {
        put_certificate(alloc, writer, certificate)
    } else {
        put_gap(alloc, writer, certificate)
    }
}

/// Writes a certificate.
fn put_certificate<W: Write>(
    alloc: Global,
    writer: &mut Counted<W>,
    certificate: &Certificate,
) -> Result<(), RunError>
    ensures { MatchResult result
        (λ _. Sends W.contents writer.old writer.new (certificate_text Second certificate.now))
        (Stops W.contents writer.old writer.new (certificate_text Second certificate.now)) }
{
    match write(alloc, writer, certificate) {
        Ok(()) => Ok(()),
        Err(CertError::OutOfMemory) => Err(RunError::OutOfMemory),
        Err(_) => Err(RunError::Device),
    }
}

/// Writes a permutation, with its cost.
fn put_solution<W: Write>(
    alloc: Global,
    writer: &mut Counted<W>,
    cost: i128,
    permutation: &Perm,
) -> Result<(), RunError>
    ensures { MatchResult result
        (λ _. Sends W.contents writer.old writer.new (solution_text cost permutation.now))
        (Stops W.contents writer.old writer.new (solution_text cost permutation.now)) }
{
    match write_solution(alloc, writer, cost, permutation) {
        Ok(()) => Ok(()),
        Err(TextError::OutOfMemory) => Err(RunError::OutOfMemory),
        Err(_) => Err(RunError::Device),
    }
}

/// Writes the line of a certificate's bound and cost, and its permutation with the cost.
fn put_gap<W: Write>(
    alloc: Global,
    writer: &mut Counted<W>,
    certificate: &Certificate,
) -> Result<(), RunError>
    ensures { let text = gap_line certificate.now.bound certificate.now.cost ++ solution_text certificate.now.cost certificate.now.permutation in
        MatchResult result
        (λ _. Sends W.contents writer.old writer.new text)
        (Stops W.contents writer.old writer.new text) }
{
    let Ok(line) = gap_of(alloc, certificate) else {
        return Err(RunError::OutOfMemory);
    };
    match put(writer, line.as_bytes()) {
        Ok(()) => put_solution(alloc, writer, certificate.cost(), certificate.perm()),
        Err(_) => Err(RunError::Device),
    }
}

/// The line of a certificate's bound and cost.
fn gap_of(alloc: Global, certificate: &Certificate) -> Result<String, AllocError>
    ensures { IfOk result (λ line. string_bytes line ≡ gap_line certificate.now.bound certificate.now.cost) }
{
    gap_line(alloc, certificate.bound(), certificate.cost())
}
