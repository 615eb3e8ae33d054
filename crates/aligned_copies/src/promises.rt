//! Laws of copies that lie beside arrays.

ghost use Rattle.std.specs.Prelude.{◌≡◌, ℕ, ◌<◌, ◌≤◌, All, List, [], ◌∷◌, map, Option, Some, None, slice_get, true};
ghost use Rattle.hpf_base.specs.declared.limits.TheConstants.{MAX_ELEMENTS};
ghost use Rattle.mappings.specs.declared.mapping.AlignDim.{AlignDim};
ghost use Rattle.mappings.specs.Alignment.{composed_align};
ghost use Rattle.mappings.specs.Mapping.{FitsAlign};
ghost use Rattle.machine_steps.specs.CopyLayout.{copy_shape};
ghost use Rattle.machine_steps.specs.Layout.{AreOwned, IsDealt, IsInBlocks, Layout, element_index, owned_by, size_of};
ghost use Rattle.machine_steps.specs.Space.{space_count};
ghost use Rattle.aligned_copies.specs.Beside.{Anchor, aligned_layout, beside, is_good, settled, subscript_by};
ghost use Rattle.aligned_copies.specs.Layouts.{IsLaid};

/// A copy has an element for each tuple of its space, wherever it lies.
pub fn copies_have_sizes()
    ensures { (nodes : ℕ) (layouts : List Layout) (anchor : Option Anchor) (ns : List ℕ)
        → size_of (aligned_layout nodes layouts anchor ns) ≡ space_count ns }
{}

/// Beside an array a position has exactly the owners of the element that is assigned there, and that element is there.
pub fn copies_lie_beside()
    ensures { (layout : Layout) (ns : List ℕ) (xs : List AlignDim) (at : ℕ) → is_good layout.shape ns xs ≡ true → at < space_count ns
        → (k : ℕ) × (k < size_of layout)
        × (element_index layout.shape k ≡ map (subscript_by (element_index (copy_shape ns) at)) xs)
        × ((node : ℕ) → owned_by (beside layout ns xs) node at ≡ owned_by layout node k) }
{}

/// Each element of a copy has an owner, where each element of the rows has one.
pub fn copies_are_dealt()
    ensures { (nodes : ℕ) (layouts : List Layout) (anchor : Option Anchor) (ns : List ℕ) → 1 ≤ nodes → AreOwned nodes layouts
        → IsDealt nodes (aligned_layout nodes layouts anchor ns) }
{}

/// A copy of one dimension without an anchor lies in blocks, one node's after another's.
pub fn copies_lie_in_blocks()
    ensures { (nodes : ℕ) (layouts : List Layout) (n : ℕ) → 1 ≤ nodes → IsInBlocks nodes (aligned_layout nodes layouts None (n ∷ [])) }
{}

/// How a copy lies depends on the row of its anchor alone.
pub fn copies_keep()
    ensures { (nodes : ℕ) (one other : List Layout) (anchor : Anchor) (ns : List ℕ) → slice_get one anchor.row ≡ slice_get other anchor.row
        → aligned_layout nodes one (Some anchor) ns ≡ aligned_layout nodes other (Some anchor) ns }
{}

/// The numbers of its mapping fit 64 bits, where the array is valid.
pub fn copies_fit()
    ensures { (nodes : ℕ) (layout : Layout) (ns : List ℕ) (xs : List AlignDim) → IsLaid nodes layout → is_good layout.shape ns xs ≡ true
        → All (λ n. n ≤ MAX_ELEMENTS) ns → All (λ entry. FitsAlign (composed_align (map (settled ns) xs) entry.align)) layout.mapping.dims }
{}

/// And its layout is valid.
pub fn copies_are_laid()
    ensures { (nodes : ℕ) (layout : Layout) (ns : List ℕ) (xs : List AlignDim) → IsLaid nodes layout → is_good layout.shape ns xs ≡ true
        → All (λ n. n ≤ MAX_ELEMENTS) ns → IsLaid nodes (beside layout ns xs) }
{}
