//! The subscripts of a section's elements (Fortran 95, 6.2.2.3), and the tuples of a space.

ghost use Rattle.std.specs.Prelude.{◌≡◌, ◌≤◌, ◌/◌, ◌%◌, IfOk};
ghost use Rattle.op_tables.specs.Operators.{wrapped};
ghost use Rattle.array_meaning.specs.Sections.{nth, positions, subscripts_at};

use crate::wrapping::{Number, difference, product, sum};
use array_meaning::{Selection, Sequence};
use smallvec::SmallVec;
use std::alloc::{AllocError, Global};

/// The subscripts of a section's element at a tuple of positions.
pub fn subscripts_at(
    alloc: Global,
    ds: &[Selection],
    tuple: &[i64],
) -> Result<SmallVec<i64, 7>, AllocError>
    ensures { IfOk result (λ is. is.items ≡ subscripts_at ds.now tuple.now) }
{
    let mut is = SmallVec::new(alloc);
    let mut used = 0;
    for d in ds {
        match d {
            Selection::At(i) => is.push(*i)?,
            Selection::Along(p) => {
                if used < tuple.len() {
                    let i = nth(p, &tuple[used]);
                    is.push(i.value)?;
                    used += 1;
                } else {
                    is.push(p.first)?;
                }
            }
        }
    }
    Ok(is)
}

/// The tuple of positions with a number, from 0, in a space of these extents. A number of 2^62 or more, which no tuple in memory has, is
/// answered as want of memory.
pub fn positions(
    alloc: Global,
    extents: &[u128],
    number: usize,
) -> Result<SmallVec<i64, 7>, AllocError>
    ensures { IfOk result (λ x. x.items ≡ positions extents.now number) }
{
    if number >= 1 << 62 {
        return Err(AllocError);
    }
    let mut x = SmallVec::new(alloc);
    let mut rest = number;
    for n in extents {
        let d = divided(rest, *n);
        x.push(d.rest as i64 + 1)?;
        rest = d.quotient;
    }
    Ok(x)
}

/// A quotient, and what is left by it.
#[derive(Clone, Copy)]
pub struct Division {
    pub quotient: usize,
    pub rest: usize,
}

/// The quotient of a number by an extent, and what is left. By 0 the quotient is 0, and all is left. It takes no memory.
pub fn divided(t: usize, n: u128) -> Division
    ensures quotient { result.quotient ≡ t / n }
    ensures rest { result.rest ≡ t % n }
    ensures no_more { (result.quotient ≤ t) × (result.rest ≤ t) }
{
    if n == 0 || n > t as u128 {
        return Division {
            quotient: 0,
            rest: t,
        };
    }
    let n = n as usize;
    Division {
        quotient: t / n,
        rest: t % n,
    }
}

/// One of the values of a sequence, numbered from 1, in 64 bits. It takes no memory.
pub fn nth(p: &Sequence, x: &i64) -> Number
    ensures { result.value ≡ wrapped (nth p.now x.now) }
{
    let above = difference(x, &1);
    let steps = product(&above.value, &p.step);
    sum(&p.first, &steps.value)
}
