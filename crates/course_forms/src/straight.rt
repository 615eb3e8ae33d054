//! Subscripts of a FORALL or a nest that are linear in one index.

ghost use Rattle.std.specs.Prelude.{◌≡◌, IfSome, Some, [], ◌∷◌, length};
ghost use Rattle.code_meaning.specs.Flat.{slot};
ghost use Rattle.node_code.specs.Texts.{flat, flats_of};
ghost use Rattle.courses.specs.StraightForms.{Constant, Sloped, by_operands, sloped_by, straight_by, straights, straight, numbers};
ghost use Rattle.course_forms.specs.Views.{straight_of};

use node_code::Flat;
use op_tables::{Op, apply};

/// A number, or `factor * index + offset`, over numbers of 64 bits that wrap.
#[derive(Clone, Copy)]
pub enum Straight {
    Constant(i64),
    Sloped {
        index: usize,
        factor: i64,
        offset: i64,
    },
}

/// An expression over slots and indices as a number or a linear form in one index. It takes no memory. None is no answer: where the
/// expression isn't of this form, and where an operator has more than two operands.
#[cycle(straight_form)]
pub fn straight_form(slots: &[i64], f: &Flat) -> Option<Straight>
    ensures { IfSome result (λ x. straight slots.now (flat f.now) ≡ Some (straight_of x)) }
{
    match f {
        Flat::Int(v) => Some(Straight::Constant(*v)),
        Flat::Slot(k) => Some(Straight::Constant(slot(slots, *k))),
        Flat::Axis(k) => Some(Straight::Sloped {
            index: *k,
            factor: 1,
            offset: 0,
        }),
        Flat::Read(_) => None,
        Flat::Operated(o, fs) => operation(slots, *o, fs),
    }
}

/// The number in a slot, and 0 where there is none.
fn slot(slots: &[i64], k: usize) -> i64
    ensures { result ≡ slot slots.now k }
{
    if k < slots.len() { slots[k] } else { 0 }
}

/// The form of an operator over its operands.
#[cycle(straight_form)]
fn operation(slots: &[i64], o: Op, fs: &Vec<Flat>) -> Option<Straight>
    ensures { IfSome result (λ x. by_operands o (straights slots.now (flats_of fs.now.items)) ≡ Some (straight_of x)) }
{
    if fs.len() == 1 {
        let x = straight_form(slots, &fs[0])?;
        return by_one(o, &x);
    }
    if fs.len() == 2 {
        let x = straight_form(slots, &fs[0])?;
        let y = straight_form(slots, &fs[1])?;
        return by_two(o, &x, &y);
    }
    None
}

/// The form of an operator over one operand.
#[tactic(auto, using(std::proofs::lemmas::Int::wraps))]
fn by_one(o: Op, x: &Straight) -> Option<Straight>
    ensures { IfSome result (λ r. by_operands o (Some (straight_of x.now ∷ [])) ≡ Some (straight_of r)) }
{
    match x {
        Straight::Constant(v) => Some(Straight::Constant(apply(o, &[*v]).ok()?)),
        Straight::Sloped {
            index,
            factor,
            offset,
        } => match o {
            Op::Plus => Some(*x),
            Op::Neg => Some(Straight::Sloped {
                index: *index,
                factor: 0i64.wrapping_sub(*factor),
                offset: 0i64.wrapping_sub(*offset),
            }),
            _ => None,
        },
    }
}

/// The form of an operator over two operands, of which one at most moves.
#[tactic(auto, using(std::proofs::lemmas::Int::wraps))]
fn by_two(o: Op, x: &Straight, y: &Straight) -> Option<Straight>
    ensures { IfSome result (λ r. by_operands o (Some (straight_of x.now ∷ straight_of y.now ∷ [])) ≡ Some (straight_of r)) }
{
    match (x, y) {
        (Straight::Constant(a), Straight::Constant(b)) => {
            Some(Straight::Constant(apply(o, &[*a, *b]).ok()?))
        }
        (
            Straight::Sloped {
                index,
                factor,
                offset,
            },
            Straight::Constant(b),
        ) => with_number(o, *index, *factor, *offset, *b),
        (
            Straight::Constant(a),
            Straight::Sloped {
                index,
                factor,
                offset,
            },
        ) => of_number(o, *a, *index, *factor, *offset),
        _ => None,
    }
}

/// The form of an operator over a slope and a number.
#[tactic(auto, using(std::proofs::lemmas::Int::wraps))]
fn with_number(o: Op, index: usize, factor: i64, offset: i64, b: i64) -> Option<Straight>
    ensures { IfSome result (λ r. by_operands o (Some (Sloped index factor offset ∷ Constant b ∷ [])) ≡ Some (straight_of r)) }
{
    match o {
        Op::Add => Some(Straight::Sloped {
            index,
            factor,
            offset: offset.wrapping_add(b),
        }),
        Op::Sub => Some(Straight::Sloped {
            index,
            factor,
            offset: offset.wrapping_sub(b),
        }),
        Op::Mul => Some(Straight::Sloped {
            index,
            factor: factor.wrapping_mul(b),
            offset: offset.wrapping_mul(b),
        }),
        _ => None,
    }
}

/// The form of an operator over a number and a slope.
#[tactic(auto, using(std::proofs::lemmas::Int::wraps))]
fn of_number(o: Op, a: i64, index: usize, factor: i64, offset: i64) -> Option<Straight>
    ensures { IfSome result (λ r. by_operands o (Some (Constant a ∷ Sloped index factor offset ∷ [])) ≡ Some (straight_of r)) }
{
    match o {
        Op::Add => Some(Straight::Sloped {
            index,
            factor,
            offset: a.wrapping_add(offset),
        }),
        Op::Sub => Some(Straight::Sloped {
            index,
            factor: 0i64.wrapping_sub(factor),
            offset: a.wrapping_sub(offset),
        }),
        Op::Mul => Some(Straight::Sloped {
            index,
            factor: a.wrapping_mul(factor),
            offset: a.wrapping_mul(offset),
        }),
        _ => None,
    }
}
