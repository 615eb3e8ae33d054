//! Copies of anchors. An `Err` is want of memory here.

ghost use Rattle.std.specs.Prelude.{◌≡◌, map, option_map, IfOk};
ghost use Rattle.node_code.specs.Flat.{Operated};
ghost use Rattle.node_code.specs.Texts.{anchor_sub, flat, flat_anchor, flats_of};

use hpf_base::OutOfMemory;
use node_code::{AnchorSub, Flat, FlatAnchor};
use op_tables::Op;
use std::alloc::Global;

/// A copy of what copies lie beside, if there is something.
pub fn copied(alloc: Global, beside: &Option<FlatAnchor>) -> Result<Option<FlatAnchor>, OutOfMemory>
    ensures { IfOk result (λ r. option_map flat_anchor r ≡ option_map flat_anchor beside.now) }
{
    match beside {
        None => Ok(None),
        Some(a) => {
            let a = copied_anchor(alloc, a)?;
            Ok(Some(a))
        }
    }
}

/// An anchor.
fn copied_anchor(alloc: Global, a: &FlatAnchor) -> Result<FlatAnchor, OutOfMemory>
    ensures { IfOk result (λ r. flat_anchor r ≡ flat_anchor a.now) }
{
    let subscripts = copied_subs(alloc, &a.subscripts)?;
    Ok(FlatAnchor {
        array: a.array,
        subscripts,
    })
}

/// Its subscripts, in order.
fn copied_subs(alloc: Global, subscripts: &[AnchorSub]) -> Result<Vec<AnchorSub>, OutOfMemory>
    ensures { IfOk result (λ v. map anchor_sub v.items ≡ map anchor_sub subscripts.now) }
{
    let mut made = Vec::new(alloc);
    for d in subscripts {
        made.push(copied_sub(alloc, d)?)?;
    }
    Ok(made)
}

/// One of them.
fn copied_sub(alloc: Global, d: &AnchorSub) -> Result<AnchorSub, OutOfMemory>
    ensures { IfOk result (λ r. anchor_sub r ≡ anchor_sub d.now) }
{
    match d {
        AnchorSub::At(f) => {
            let f = copied_flat(alloc, f)?;
            Ok(AnchorSub::At(f))
        }
        AnchorSub::Along(first, stride) => {
            let first = copied_flat(alloc, first)?;
            let stride = copied_flat(alloc, stride)?;
            Ok(AnchorSub::Along(first, stride))
        }
    }
}

/// An expression over the slots.
#[cycle(copied_flat)]
fn copied_flat(alloc: Global, f: &Flat) -> Result<Flat, OutOfMemory>
    ensures { IfOk result (λ r. flat r ≡ flat f.now) }
{
    match f {
        Flat::Int(n) => Ok(Flat::Int(*n)),
        Flat::Slot(k) => Ok(Flat::Slot(*k)),
        Flat::Axis(k) => Ok(Flat::Axis(*k)),
        Flat::Read(k) => Ok(Flat::Read(*k)),
        Flat::Operated(op, operands) => operated(alloc, *op, operands),
    }
}

/// An operator.
#[cycle(copied_flat)]
fn operated(alloc: Global, op: Op, operands: &[Flat]) -> Result<Flat, OutOfMemory>
    ensures { IfOk result (λ r. flat r ≡ Operated op (flats_of operands.now)) }
{
    Ok(Flat::Operated(op, copied_flats(alloc, operands)?))
}

/// Expressions, in order.
#[cycle(copied_flat)]
fn copied_flats(alloc: Global, flats: &[Flat]) -> Result<Vec<Flat>, OutOfMemory>
    ensures { IfOk result (λ v. map flat v.items ≡ map flat flats.now) }
{
    let mut made = Vec::new(alloc);
    for f in flats {
        made.push(copied_flat(alloc, f)?)?;
    }
    Ok(made)
}
