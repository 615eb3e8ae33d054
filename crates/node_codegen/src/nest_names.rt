//! The names of a nest of INDEPENDENT loops on the machine.

ghost use Rattle.std.specs.Prelude.{◌≡◌, ◌∷◌, map, IfOk};
ghost use Rattle.program_code.specs.NestCode.{along};
ghost use Rattle.node_code.specs.Forms.{SubAlong};
ghost use Rattle.node_code.specs.Texts.{subs};
ghost use Rattle.resolved_program.specs.Resolved.{block_of, inner_loops, loop_of};
ghost use Rattle.node_codegen.specs.NestNames.{AreNamesOf, mark_by, nest_of, over_by, place_by, with_index};

use crate::nest_counts::block_conditions;
use crate::nest_loops::add_indices;
use crate::nest_scalars::{is_in, scalars};
use anchor_code::{index_in, nest_beside};
use expression_code::plus;
use hpf_base::OutOfMemory;
use node_code::{FlatAnchor, Sub};
use resolved_program::{Loop, Nest, Statement};
use std::alloc::Global;

/// What the code of a nest's statements is made over.
#[derive(Drop)]
pub(crate) struct NestNames {
    /// The line of the outermost loop.
    pub line: u32,
    /// How many names are declared.
    pub names: usize,
    /// The scalars that the nest assigns, as declared. Their copies lie after the rows of the declared names.
    pub scalars: Vec<usize>,
    /// The REDUCTION variables among them have no marks.
    pub reduction: Vec<usize>,
    /// The first row of the stored conditions.
    pub stored: usize,
    /// The first row of marks.
    pub marks: usize,
    /// The indices of the nest, the innermost loop's first.
    pub indices: Vec<usize>,
    /// The first slots of their bounds.
    pub over: Vec<usize>,
    /// What the copies lie beside.
    pub beside: Option<FlatAnchor>,
}

/// Those of a nest, whose bounds stand in slots from `v` on.
pub(crate) fn nest_names(
    alloc: Global,
    names: usize,
    line: u32,
    nest: &Nest,
    outermost: &Loop,
    body: &Vec<Statement>,
    inside: &Vec<Statement>,
    v: usize,
) -> Result<NestNames, OutOfMemory>
    ensures { IfOk result (AreNamesOf names line (nest_of nest.now (loop_of outermost.now) (block_of body.now.items)) (block_of inside.now.items) v) }
{
    let conditions = block_conditions(inside)?;
    let scalars = scalars(alloc, names, inside)?;
    let stored = plus(names, scalars.len())?;
    let marks = plus(stored, conditions)?;
    let mut reduction = Vec::new(alloc);
    reduction.extend_from_slice(&nest.reduction)?;
    let mut indices = loop_indices(alloc, nest.inner_loops, outermost, body)?;
    let over = bound_slots(alloc, v, &indices)?;
    indices.reverse();
    let beside = nest_beside(alloc, &indices, inside)?;
    Ok(NestNames {
        line,
        names,
        scalars,
        reduction,
        stored,
        marks,
        indices,
        over,
        beside,
    })
}

/// The indices of the loops of a nest, the outermost first.
pub(crate) fn loop_indices(
    alloc: Global,
    inner: usize,
    outermost: &Loop,
    body: &Vec<Statement>,
) -> Result<Vec<usize>, OutOfMemory>
    ensures { IfOk result (λ xs. xs.items ≡ map (λ l. l.index) (loop_of outermost.now ∷ inner_loops inner (block_of body.now.items))) }
{
    let mut indices = Vec::new(alloc);
    indices.push(outermost.index)?;
    add_indices(&mut indices, inner, body)?;
    Ok(indices)
}

/// The first slots of the bounds of loops, four a loop, the innermost loop's first.
fn bound_slots(alloc: Global, v: usize, indices: &[usize]) -> Result<Vec<usize>, OutOfMemory>
    ensures { IfOk result (λ vs. map SubAlong vs.items ≡ along v (map with_index indices.now)) }
{
    let mut slots = Vec::new(alloc);
    let mut at = v;
    for _index in indices {
        slots.push(at)?;
        at = plus(at, 4)?;
    }
    slots.reverse();
    Ok(slots)
}

impl NestNames {
    /// The values of the indices, the innermost loop's first.
    pub(crate) fn over(&self, alloc: Global) -> Result<Vec<Sub>, OutOfMemory>
        ensures { IfOk result (λ v. subs v.items ≡ over_by self.now) }
    {
        let mut over = Vec::new(alloc);
        for v in &self.over {
            over.push(Sub::Along(*v))?;
        }
        Ok(over)
    }

    /// The row of a name: a scalar that the nest assigns has copies.
    pub(crate) fn place(&self, k: usize) -> Result<usize, OutOfMemory>
        ensures { IfOk result (λ r. r ≡ place_by self.now k) }
    {
        match index_in(&self.scalars, k) {
            Some(j) => plus(self.names, j),
            None => {
                if k < self.names {
                    Ok(k)
                } else {
                    plus(self.scalars.len(), k)
                }
            }
        }
    }

    /// The row of the marks of a scalar, if it has some.
    pub(crate) fn mark(&self, k: usize) -> Result<Option<usize>, OutOfMemory>
        ensures { IfOk result (λ r. r ≡ mark_by self.now k) }
    {
        if is_in(k, &self.reduction) {
            return Ok(None);
        }
        match index_in(&self.scalars, k) {
            Some(j) => Ok(Some(plus(self.marks, j)?)),
            None => Ok(None),
        }
    }
}
