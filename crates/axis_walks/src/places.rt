//! Places that are in both of two ascending lists, and places that are in one of them alone.

ghost use Rattle.std.specs.Prelude.{◌≡◌, ℕ, ◌<◌, ◌≤◌, ◌&&◌, ◌++◌, [], ◌∷◌, not, Bool, true, All, IfOk, cond, filter, length, slice_index};
ghost use Rattle.std.specs.List.{range_with_len};

use hpf_base::OutOfMemory;
use std::alloc::Global;

/// The places that are in both of two ascending lists.
pub fn common_places(alloc: Global, one: &[u32], other: &[u32]) -> Result<Vec<u32>, OutOfMemory>
    ensures within { (n : ℕ) → All (λ p. p < n) one.now → IfOk result (λ places. All (λ p. p < n) places.items) }
    ensures value { (p q : ℕ → Bool) (n : ℕ) → one.now ≡ filter p (range_with_len 0 n) → other.now ≡ filter q (range_with_len 0 n)
        → IfOk result (λ places. places.items ≡ filter (λ x. p x && q x) (range_with_len 0 n)) }
{
    let mut places = Vec::new(alloc);
    let mut from = 0;
    for place in one {
        from = next_from(other, from, *place);
        push_if(&mut places, is_at(other, from, *place), *place)?;
    }
    Ok(places)
}

/// The places of an ascending list that aren't in another one.
pub fn places_beyond(alloc: Global, one: &[u32], other: &[u32]) -> Result<Vec<u32>, OutOfMemory>
    ensures within { (n : ℕ) → All (λ p. p < n) one.now → IfOk result (λ places. All (λ p. p < n) places.items) }
    ensures value { (p q : ℕ → Bool) (n : ℕ) → one.now ≡ filter p (range_with_len 0 n) → other.now ≡ filter q (range_with_len 0 n)
        → IfOk result (λ places. places.items ≡ filter (λ x. p x && not (q x)) (range_with_len 0 n)) }
{
    let mut places = Vec::new(alloc);
    let mut from = 0;
    for place in one {
        from = next_from(other, from, *place);
        push_if(&mut places, !is_at(other, from, *place), *place)?;
    }
    Ok(places)
}

/// Where the first place stands, from an index on, that isn't less than this one.
fn next_from(places: &[u32], from: usize, place: u32) -> usize
    requires { from ≤ length places.now }
    ensures within { result ≤ length places.now }
    ensures less { (k : ℕ) → from ≤ k → k < result → slice_index places.now k < place }
    ensures next { result < length places.now → place ≤ slice_index places.now result }
{
    for at in from..places.len() {
        if places[at] >= place {
            return at;
        }
    }
    places.len()
}

/// Whether this place stands at an index.
fn is_at(places: &[u32], at: usize, place: u32) -> bool
    ensures found { result ≡ true → (at < length places.now) × (slice_index places.now at ≡ place) }
    ensures missed { at < length places.now → slice_index places.now at ≡ place → result ≡ true }
{
    at < places.len() && places[at] == place
}

/// One place more, if it is kept.
fn push_if(places: &mut Vec<u32>, is_kept: bool, place: u32) -> Result<(), OutOfMemory>
    ensures { IfOk result (λ _. places.new.items ≡ places.old.items ++ cond is_kept (place ∷ []) []) }
{
    if is_kept {
        places.push(place)?;
    }
    Ok(())
}
