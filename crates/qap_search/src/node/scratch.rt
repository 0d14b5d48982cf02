//! Memory for evaluating nodes, kept from one to the next.

ghost use Rattle.std.specs.Prelude.{◌≡◌, ◌*◌, ◌^◌, IfOk};
ghost use Rattle.qap_cost.specs.Range.{AllWithin};
ghost use Rattle.gilmore_lawler.specs.ReducedMatrix.{IsReduced};
ghost use Rattle.qap_search.specs.Node.Thought.{IsThought};

use crate::node::branching::{Free, branch_of};
use crate::node::thought::Thought;
use assign_dual::{Assignment, Solver};
use gilmore_lawler::dual_sum;
use qap_cost::{Instance, Matrix, Partial, completed, cost};
use std::alloc::{AllocError, Global};
use std::mem::replace;

/// Lists that an evaluation is computed in; what they hold doesn't matter from one to the next.
#[derive(Drop)]
pub(crate) struct Scratch {
    solver: Solver,
    answer: Assignment,
    /// The free facilities and locations, ascending, and the locations that the matching gives the facilities.
    facilities: Vec<u16>,
    locations: Vec<u16>,
    matched: Vec<u16>,
    /// Memory for a candidate.
    candidate: Vec<u16>,
}

impl Scratch {
    /// Allocates nothing.
    pub(crate) fn new(alloc: Global) -> Result<Scratch, AllocError> {
        Ok(Scratch {
            solver: Solver::new(alloc),
            answer: Assignment::with_room(alloc, 0)?,
            facilities: Vec::new(alloc),
            locations: Vec::new(alloc),
            matched: Vec::new(alloc),
            candidate: Vec::new(alloc),
        })
    }

    /// What is computed about the node from its Gilmore-Lawler matrix.
    pub(crate) fn thought(
        &mut self,
        alloc: Global,
        instance: &Instance,
        node: &Partial,
        matrix: &Matrix,
    ) -> Result<Thought, AllocError>
        requires same_size { instance.now.size ≡ node.now.size }
        requires reduced { IsReduced instance.now node.now matrix.now }
        requires bounded { AllWithin (512 * 10 ^ 18) matrix.now.entries }
        ensures { IfOk result (IsThought instance.now node.now) }
    {
        matrix.matrix_law();
        let mut answer = replace(&mut self.answer, Assignment::with_room(alloc, 0)?);
        self.solver.solve_into(matrix, &mut answer)?;
        let Assignment { matching, u, v } = answer;
        node.list_free_facilities(&mut self.facilities)?;
        node.list_free_locations(&mut self.locations)?;
        let free = Free {
            facilities: &self.facilities,
            locations: &self.locations,
        };
        let memory = replace(&mut self.candidate, Vec::new(alloc));
        let candidate = completed(
            node,
            free.facilities,
            free.locations,
            &matching,
            &mut self.matched,
            memory,
        )?;
        let cost = cost(instance, &candidate);
        let value = node.fixed_cost(instance) + dual_sum(&u, &v);
        let branch = branch_of(node, &free, &matching, &u, &v);
        self.answer.matching = matching;
        Ok(Thought {
            u,
            v,
            value,
            candidate,
            cost,
            branch,
        })
    }

    /// Keeps the memory of an evaluation that is no longer needed.
    pub(crate) fn keep(&mut self, thought: Thought) {
        self.answer.u = thought.u;
        self.answer.v = thought.v;
        self.candidate = thought.candidate.into_locations();
    }
}
