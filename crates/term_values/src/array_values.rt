//! Array expressions: what is evaluated once, and their values at tuples.

ghost use Rattle.std.specs.Prelude.{◌≡◌, length, ◌∷◌, [], IfOk, IfErr, Ok};
ghost use Rattle.array_meaning.specs.Elementals.{array_value, value_at, values_at, values_over};
ghost use Rattle.array_meaning.specs.Faults.{at_tuple};
ghost use Rattle.array_meaning.specs.Sections.{positions};
ghost use Rattle.term_values.specs.Parts.{elements_over, operation_at};
ghost use Rattle.term_values.specs.States.{state_of};
ghost use Rattle.term_values.specs.Stops.{IsStop};
ghost use Rattle.term_values.specs.Views.{array_value_of, elemental, elementals_of};

use crate::columns::column;
use crate::elements::{operated, operated_of_two};
use crate::section_elements::section_element;
use crate::spaces::{own_extents, own_size};
use crate::state::State;
use crate::stops::{Stop, at_tuple};
use crate::subscripts::positions;
use crate::wrapping::Pair;
use array_meaning::{MAX_TUPLES, Selection};
use op_tables::Op;
use smallvec::SmallVec;

/// An array expression whose parts are evaluated.
#[derive(Drop)]
#[cycle(elemental)]
pub enum Elemental {
    /// A value that is the same at each tuple.
    Same(i64),
    /// The elements of an array that are selected, by the place of its name.
    Selected(usize, Vec<Selection>),
    /// An operator or elemental procedure, with its operands in order.
    Operation(Op, Vec<Elemental>),
}

/// The extents and the elements of an array value (Fortran 95, 2.4.5), in array element order.
#[derive(Drop)]
pub struct ArrayValue {
    pub extents: Vec<u128>,
    pub elements: Vec<i64>,
}

/// Its value at a tuple of positions.
#[cycle(value_at)]
pub fn value_at(s: &State, tuple: &[i64], x: &Elemental) -> Result<i64, Stop>
    ensures value { IfOk result (λ v. value_at (state_of s.now) tuple.now (elemental x.now) ≡ Ok v) }
    ensures stopped { IfErr result (IsStop (value_at (state_of s.now) tuple.now (elemental x.now))) }
{
    match x {
        Elemental::Same(v) => Ok(*v),
        Elemental::Selected(a, ds) => section_element(s, tuple, *a, ds),
        Elemental::Operation(op, xs) => operation_at(s, tuple, *op, xs),
    }
}

/// The value of an operator.
#[inline(never)]
#[cycle(value_at)]
fn operation_at(s: &State, tuple: &[i64], op: Op, xs: &Vec<Elemental>) -> Result<i64, Stop>
    ensures value { IfOk result (λ v. operation_at (state_of s.now) tuple.now op (elementals_of xs.now.items) ≡ Ok v) }
    ensures stopped { IfErr result (IsStop (operation_at (state_of s.now) tuple.now op (elementals_of xs.now.items))) }
{
    if xs.len() == 2 {
        return operation_of_two_at(s, tuple, op, xs);
    }
    many_operands_at(s, tuple, op, xs)
}

/// The value of an operator of two operands.
#[cycle(value_at)]
fn operation_of_two_at(s: &State, tuple: &[i64], op: Op, xs: &Vec<Elemental>) -> Result<i64, Stop>
    requires two { length xs.now.items ≡ 2 }
    ensures value { IfOk result (λ v. operation_at (state_of s.now) tuple.now op (elementals_of xs.now.items) ≡ Ok v) }
    ensures stopped { IfErr result (IsStop (operation_at (state_of s.now) tuple.now op (elementals_of xs.now.items))) }
{
    let pair = two_values_at(s, tuple, xs)?;
    operated_of_two(op, &pair.first, &pair.second)
}

/// The values of two operands in order, or the first fault.
#[inline(always)]
#[tactic(auto, using(crate::proofs::Pairs::pair_values_at, crate::proofs::Pairs::first_stops_at, crate::proofs::Pairs::second_stops_at))]
#[cycle(value_at)]
fn two_values_at(s: &State, tuple: &[i64], xs: &Vec<Elemental>) -> Result<Pair, Stop>
    requires two { length xs.now.items ≡ 2 }
    ensures value { IfOk result (λ p. values_at (state_of s.now) tuple.now (elementals_of xs.now.items) ≡ Ok (p.first ∷ p.second ∷ [])) }
    ensures stopped { IfErr result (IsStop (values_at (state_of s.now) tuple.now (elementals_of xs.now.items))) }
{
    let first = value_at(s, tuple, &xs[0])?;
    let second = value_at(s, tuple, &xs[1])?;
    Ok(Pair { first, second })
}

/// The value of an operator of any number of operands.
#[inline(never)]
#[cycle(value_at)]
fn many_operands_at(s: &State, tuple: &[i64], op: Op, xs: &Vec<Elemental>) -> Result<i64, Stop>
    ensures value { IfOk result (λ v. operation_at (state_of s.now) tuple.now op (elementals_of xs.now.items) ≡ Ok v) }
    ensures stopped { IfErr result (IsStop (operation_at (state_of s.now) tuple.now op (elementals_of xs.now.items))) }
{
    let operands = values_at(s, tuple, xs)?;
    operated(op, operands.as_slice())
}

/// The values of operands in order, or the first fault.
#[cycle(value_at)]
fn values_at(s: &State, tuple: &[i64], xs: &Vec<Elemental>) -> Result<SmallVec<i64, 7>, Stop>
    ensures value { IfOk result (λ vs. values_at (state_of s.now) tuple.now (elementals_of xs.now.items) ≡ Ok vs.items) }
    ensures stopped { IfErr result (IsStop (values_at (state_of s.now) tuple.now (elementals_of xs.now.items))) }
{
    let mut vs = SmallVec::new(*s.scalars.allocator());
    for x in xs {
        let v = value_at(s, tuple, x)?;
        vs.push(v)?;
    }
    Ok(vs)
}

/// Its value over its own space, which is that of its first section; or the first fault, with its tuple.
pub fn array_value(s: &State, x: &Elemental) -> Result<ArrayValue, Stop>
    ensures value { IfOk result (λ v. array_value (state_of s.now) (elemental x.now) ≡ Ok (array_value_of v)) }
    ensures stopped { IfErr result (IsStop (array_value (state_of s.now) (elemental x.now))) }
{
    let extents = own_extents(*s.scalars.allocator(), x)?;
    let elements = elements_over(s, &extents, x)?;
    Ok(ArrayValue { extents, elements })
}

/// Its values over its own space, whose extents these are.
fn elements_over(s: &State, ns: &[u128], x: &Elemental) -> Result<Vec<i64>, Stop>
    ensures value { IfOk result (λ vs. elements_over (state_of s.now) ns.now (elemental x.now) ≡ Ok vs.items) }
    ensures stopped { IfErr result (IsStop (elements_over (state_of s.now) ns.now (elemental x.now))) }
{
    let n = own_size(*s.scalars.allocator(), ns, x)?;
    let vs = values_over(s, ns, x, n)?;
    Ok(vs)
}

/// Its values at the first tuples of a space of these extents; or the first fault, with its tuple.
pub fn values_over(s: &State, ns: &[u128], x: &Elemental, n: usize) -> Result<Vec<i64>, Stop>
    ensures value { IfOk result (λ vs. values_over (state_of s.now) ns.now (elemental x.now) n ≡ Ok vs.items) }
    ensures stopped { IfErr result (IsStop (values_over (state_of s.now) ns.now (elemental x.now) n)) }
{
    if n as u64 > MAX_TUPLES {
        return values_by_tuples(s, ns, x, n);
    }
    match column(s, ns, x, n)? {
        Some(vs) => Ok(vs),
        None => values_by_tuples(s, ns, x, n),
    }
}

/// Its values at the first tuples of a space of these extents, tuple by tuple; or the first fault, with its tuple.
#[tactic(auto, using(crate::proofs::ValuesOver::one_value_more, crate::proofs::ValuesOver::value_stop))]
fn values_by_tuples(s: &State, ns: &[u128], x: &Elemental, n: usize) -> Result<Vec<i64>, Stop>
    ensures value { IfOk result (λ vs. values_over (state_of s.now) ns.now (elemental x.now) n ≡ Ok vs.items) }
    ensures stopped { IfErr result (IsStop (values_over (state_of s.now) ns.now (elemental x.now) n)) }
{
    let mut vs = Vec::new(*s.scalars.allocator());
    for t in 0..n {
        match numbered_value(s, ns, x, t) {
            Ok(v) => vs.push(v)?,
            Err(stop) => return Err(stop),
        }
    }
    Ok(vs)
}

/// Its value at the tuple with a number; a stop there has the tuple.
fn numbered_value(s: &State, ns: &[u128], x: &Elemental, t: usize) -> Result<i64, Stop>
    ensures value { IfOk result (λ v. value_at (state_of s.now) (positions ns.now t) (elemental x.now) ≡ Ok v) }
    ensures stopped { IfErr result (IsStop (at_tuple (positions ns.now t) (value_at (state_of s.now) (positions ns.now t) (elemental x.now)))) }
{
    let alloc = *s.scalars.allocator();
    let tuple = positions(alloc, ns, t)?;
    match value_at(s, tuple.as_slice(), x) {
        Ok(v) => Ok(v),
        Err(stop) => Err(at_tuple(alloc, tuple.as_slice(), stop)),
    }
}
