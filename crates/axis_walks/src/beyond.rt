//! The tuples with a place of each outer list that haven't a place of each inner list too.

ghost use Rattle.std.specs.Prelude.{◌≡◌, ℕ, ◌+◌, ◌*◌, ◌^◌, ◌<◌, ◌≤◌, ◌==◌, ◌&&◌, not, Bool, All, IfOk, length, map, List, [], ◌∷◌};
ghost use Rattle.std.specs.List.{list_any};
ghost use Rattle.hpf_base.specs.ElementOrder.{product};
ghost use Rattle.axis_products.specs.Products.{each, passing, places_at};
ghost use Rattle.axis_walks.specs.Lists.{AreBelow};
ghost use Rattle.axis_walks.specs.Rows.{ArePicked, both, first_alone};

use crate::places::{common_places, places_beyond};
use crate::rows::{has_empty, push_rows, rows};
use hpf_base::OutOfMemory;
use std::alloc::Global;

/// The numbers of the tuples with a place of each outer list that haven't a place of each inner list too, in any order. There is an outer and an
/// inner list an axis, and each outer place is below the extent of its axis. The first axis is the fastest; of its outer places only those that aren't inner
/// are walked, where the places on the others are inner ones.
pub fn tuples_beyond(
    alloc: Global,
    extents: &[u64],
    outer: &[Vec<u32>],
    inner: &[Vec<u32>],
) -> Result<Vec<u32>, OutOfMemory>
    requires outer_axes { length outer.now ≡ length extents.now }
    requires inner_axes { length inner.now ≡ length extents.now }
    requires few { product extents.now ≤ 2 ^ 32 }
    requires places { AreBelow extents.now (map (λ v. v.items) outer.now) }
    ensures below { IfOk result (λ tuples. All (λ t. t < product extents.now) tuples.items) }
    ensures each { (a b : ℕ → ℕ → Bool) → map (λ v. v.items) outer.now ≡ passing a 0 extents.now → map (λ v. v.items) inner.now ≡ passing b 0 extents.now
        → IfOk result (λ tuples. (t : ℕ) → t < product extents.now → list_any (λ v. v == t) tuples.items
        ≡ (each a 0 (places_at extents.now t) && not (each b 0 (places_at extents.now t)))) }
{
    let mut split = start(alloc)?;
    if extents.len() == 0 || has_empty(outer) {
        return Ok(split.beyond);
    }
    for axis in (1..extents.len()).rev() {
        split = more(alloc, &split, extents[axis], &outer[axis], &inner[axis])?;
    }
    let tuples = beyond(alloc, &split, extents[0], &outer[0], &inner[0])?;
    Ok(tuples)
}

/// The tuples on some axes with a place of each outer list: those that have a place of each inner list too, and the others.
#[derive(Drop)]
struct Split {
    within: Vec<u32>,
    beyond: Vec<u32>,
}

/// The tuple on no axis.
fn start(alloc: Global) -> Result<Split, OutOfMemory>
    ensures { IfOk result (λ split. (split.within.items ≡ 0 ∷ []) × (split.beyond.items ≡ [])) }
{
    let mut within = Vec::new(alloc);
    within.push(0)?;
    Ok(Split {
        within,
        beyond: Vec::new(alloc),
    })
}

/// The same with one axis more.
fn more(
    alloc: Global,
    split: &Split,
    extent: u64,
    outer: &[u32],
    inner: &[u32],
) -> Result<Split, OutOfMemory>
    requires within { All (λ n. (n + 1) * extent ≤ 2 ^ 32) split.now.within.items }
    requires beyond { All (λ n. (n + 1) * extent ≤ 2 ^ 32) split.now.beyond.items }
    requires places { All (λ p. p < extent) outer.now }
    ensures within { (es : List ℕ) (os is : List (List ℕ)) → ArePicked both es os is split.now.within.items
        → IfOk result (λ s. ArePicked both (extent ∷ es) (outer.now ∷ os) (inner.now ∷ is) s.within.items) }
    ensures beyond { (es : List ℕ) (os is : List (List ℕ)) → ArePicked both es os is split.now.within.items → ArePicked first_alone es os is split.now.beyond.items
        → IfOk result (λ s. ArePicked first_alone (extent ∷ es) (outer.now ∷ os) (inner.now ∷ is) s.beyond.items) }
{
    let common = common_places(alloc, outer, inner)?;
    let within = rows(alloc, &split.within, extent, &common)?;
    let beyond = beyond(alloc, split, extent, outer, inner)?;
    Ok(Split { within, beyond })
}

/// The tuples with one axis more that haven't a place of each inner list.
fn beyond(
    alloc: Global,
    split: &Split,
    extent: u64,
    outer: &[u32],
    inner: &[u32],
) -> Result<Vec<u32>, OutOfMemory>
    requires within { All (λ n. (n + 1) * extent ≤ 2 ^ 32) split.now.within.items }
    requires beyond { All (λ n. (n + 1) * extent ≤ 2 ^ 32) split.now.beyond.items }
    requires places { All (λ p. p < extent) outer.now }
    ensures { (es : List ℕ) (os is : List (List ℕ)) → ArePicked both es os is split.now.within.items → ArePicked first_alone es os is split.now.beyond.items
        → IfOk result (λ ts. ArePicked first_alone (extent ∷ es) (outer.now ∷ os) (inner.now ∷ is) ts.items) }
{
    let left = places_beyond(alloc, outer, inner)?;
    let mut tuples = rows(alloc, &split.beyond, extent, outer)?;
    push_rows(&mut tuples, &split.within, extent, &left)?;
    Ok(tuples)
}
