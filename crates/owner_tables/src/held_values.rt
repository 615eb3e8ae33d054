//! The values of elements that lie on a node.

ghost use Rattle.std.specs.Prelude.{◌≡◌, ℕ, ◌+◌, ◌*◌, ◌^◌, ◌<◌, ◌≤◌, ◌++◌, ◌∷◌, [], All, IfOk, OnOk, None, Some, if◌then◌else◌, map, pos, slice_index_or, true};
ghost use Rattle.std.specs.List.{range_with_len};
ghost use Rattle.machine_steps.specs.Layout.{owns_spot};
ghost use Rattle.machine_steps.specs.Node.{local_read};
ghost use Rattle.owner_tables.specs.Lines.{line_spot};
ghost use Rattle.storage.specs.Storage.{read, row_of};
ghost use Rattle.storage.specs.Spots.{spot_of};

use crate::lines::HeldLine;
use crate::owners::Owners;
use crate::row::Row;
use hpf_base::OutOfMemory;
use letters::Body;
use std::alloc::Global;
use storage::Spot;

/// The value of an element that the node owns, by the node's number and its pieces of all rows.
pub fn local_value(owners: &Owners, id: u32, pieces: &[Row], spot: Spot) -> i64
    requires id { id < owners.now.nodes }
    requires owner { owns_spot owners.now.layouts id (spot_of spot) ≡ true }
    ensures { result ≡ local_read owners.now.layouts id pieces.now (spot_of spot) }
{
    let at = owners.address(id, spot);
    value_at(pieces, Spot { row: spot.row, at })
}

/// The value of an element, if there is such an element and the node owns it.
pub fn held_value(owners: &Owners, id: u32, pieces: &[Row], spot: Spot) -> Option<i64>
    requires { id < owners.now.nodes }
    ensures { result ≡ (if owns_spot owners.now.layouts id (spot_of spot) then Some (local_read owners.now.layouts id pieces.now (spot_of spot)) else None) }
{
    match owners.held(id, spot) {
        Some(at) => Some(value_at(pieces, Spot { row: spot.row, at })),
        None => None,
    }
}

/// The value at a place of the pieces; 0 where there is none.
fn value_at(pieces: &[Row], place: Spot) -> i64
    ensures { result ≡ read pieces.now (spot_of place) }
{
    if place.row < pieces.len() {
        pieces[place.row].get(place.at)
    } else {
        0
    }
}

/// The values of elements that the node owns, in order.
pub fn local_values(
    alloc: Global,
    owners: &Owners,
    id: u32,
    pieces: &[Row],
    spots: &[Spot],
) -> Result<Body, OutOfMemory>
    requires id { id < owners.now.nodes }
    requires owner { All (λ spot. owns_spot owners.now.layouts id (spot_of spot) ≡ true) spots.now }
    ensures { IfOk result (λ body. body ≡ map (local_read owners.now.layouts id pieces.now) (map spot_of spots.now)) }
{
    let mut values = Vec::with_capacity(alloc, spots.len())?;
    for spot in spots {
        push_value(owners, id, pieces, *spot, &mut values)?;
    }
    Ok(Body::from(values))
}

/// Puts the value of an element that the node owns after the others.
fn push_value(
    owners: &Owners,
    id: u32,
    pieces: &[Row],
    spot: Spot,
    values: &mut Vec<i64>,
) -> Result<(), OutOfMemory>
    requires id { id < owners.now.nodes }
    requires owner { owns_spot owners.now.layouts id (spot_of spot) ≡ true }
    ensures { OnOk result (values.new.items ≡ values.old.items ++ local_read owners.now.layouts id pieces.now (spot_of spot) ∷ []) }
{
    values.push(local_value(owners, id, pieces, spot))?;
    Ok(())
}

/// Puts the values of the elements at the front of a line that the node owns after the others, and says how many they are. The first of the
/// line's elements is `spot`, each other stands `step` positions after the one before. It may stop early.
pub fn push_held(
    owners: &Owners,
    id: u32,
    pieces: &[Row],
    spot: Spot,
    step: usize,
    count: usize,
    values: &mut Vec<i64>,
) -> Result<usize, OutOfMemory>
    requires { id < owners.now.nodes }
    ensures few { IfOk result (λ n. n ≤ count) }
    ensures owned { IfOk result (λ n. (k : ℕ) → k < n → owns_spot owners.now.layouts id (line_spot (spot_of spot) step k) ≡ true) }
    ensures pushed { IfOk result (λ n. values.new.items
        ≡ values.old.items ++ map (λ k. local_read owners.now.layouts id pieces.now (line_spot (spot_of spot) step k)) (range_with_len 0 n)) }
{
    let line = owners.held_line(id, spot, step, count);
    push_line(piece_of(pieces, spot.row), line, values)?;
    Ok(line.count)
}

/// The piece of a row; none where there is no such row.
fn piece_of(pieces: &[Row], row: usize) -> &[i64]
    ensures { result.now ≡ row_of pieces.now row }
{
    if row < pieces.len() {
        pieces[row].as_slice()
    } else {
        &[]
    }
}

/// Puts the values of a piece at the addresses of a line after the others; 0 where there is none.
fn push_line(piece: &[i64], line: HeldLine, values: &mut Vec<i64>) -> Result<(), OutOfMemory>
    requires { (k : ℕ) → k < line.count → line.first + k * line.step < 2 ^ 64 }
    ensures { OnOk result (values.new.items
        ≡ values.old.items ++ map (λ k. slice_index_or piece.now (line.first + k * line.step) (pos 0)) (range_with_len 0 line.count)) }
{
    if line.step == 1 && line.first <= piece.len() && line.count <= piece.len() - line.first {
        values.extend_from_slice(&piece[line.first..line.first + line.count])?;
    } else {
        push_apart(piece, line.first, line.step, line.count, values)?;
    }
    Ok(())
}

/// The same one by one.
fn push_apart(
    piece: &[i64],
    first: usize,
    step: usize,
    count: usize,
    values: &mut Vec<i64>,
) -> Result<(), OutOfMemory>
    requires { (k : ℕ) → k < count → first + k * step < 2 ^ 64 }
    ensures { OnOk result (values.new.items ≡ values.old.items ++ map (λ k. slice_index_or piece.now (first + k * step) (pos 0)) (range_with_len 0 count)) }
{
    values.reserve(count)?;
    let mut at = first;
    for _k in 0..count {
        values.push(value_in(piece, at))?;
        at = at.wrapping_add(step);
    }
    Ok(())
}

/// The value of a piece at a local address; 0 where there is none.
fn value_in(piece: &[i64], at: usize) -> i64
    ensures { result ≡ slice_index_or piece.now at (pos 0) }
{
    if at < piece.len() { piece[at] } else { 0 }
}
