//! Laws on courses, and on what is named by them.

ghost use Rattle.std.specs.Prelude.{◌≡◌, ◌==◌, ◌++◌, [], ◌∷◌, ℕ, ◌+◌, ◌<◌, ◌≤◌, false, true, ℤ, pos, ◌+ℤ◌, ◌*ℤ◌, List, length, map, All, Option, Some, slice_get};
ghost use Rattle.std.specs.Option.{is_some, option_or};
ghost use Rattle.hpf_base.specs.ElementOrder.{product};
ghost use Rattle.expression_rules.specs.declared.dims.Dim.{Dim};
ghost use Rattle.storage.specs.Storage.{Spot};
ghost use Rattle.array_meaning.specs.declared.sections.Selection.{Selection};
ghost use Rattle.array_meaning.specs.Sections.{subscripts_at};
ghost use Rattle.array_meaning.specs.State.{offset};
ghost use Rattle.machine_steps.specs.CopyLayout.{copy_layout};
ghost use Rattle.machine_steps.specs.Layout.{Layout, in_bounds, owned_by};
ghost use Rattle.machine_steps.specs.Space.{space_count};
ghost use Rattle.machine_steps.specs.Message.{computes_left, least_or_zero, names_spot};
ghost use Rattle.node_code.specs.Forms.{ArrayForm, Sub};
ghost use Rattle.code_meaning.specs.Forms.{elemental_at, selections_at};
ghost use Rattle.code_meaning.specs.NestStatements.{row_spots, when_spots};
ghost use Rattle.node_code.specs.Parallel.{When};
ghost use Rattle.code_meaning.specs.Parallel.{reads_at};
ghost use Rattle.axis_products.specs.Products.{places_at};
ghost use Rattle.axis_products.specs.Tests.{holds};
ghost use Rattle.courses.specs.AxisTables.{AxisTable, subscript_on};
ghost use Rattle.courses.specs.Courses.{Course, courses_at};
ghost use Rattle.courses.specs.Entries.{axes_in, entries_in};
ghost use Rattle.courses.specs.Owners.{AreLed, IsLaidOut, bounds_test, least_test, owner_test};
ghost use Rattle.courses.specs.References.{IsAlongAxes, Named, all_names, index_courses, named_copy, named_spot, place_at_places, subs_courses};
ghost use Rattle.courses.specs.Subscripts.{AxesBelow};
ghost use Rattle.courses.specs.TurnedNames.{all_turned_names, turned_names};

/// The subscripts of a reference at a tuple are its courses there, in a statement over sections and in one over indices.
pub fn subs_courses()
    ensures values { (slots : List ℤ) (ns : List ℕ) (indices : Option (List Selection)) (is : Option (List Course)) (subs : List Sub) (cs : List Course) (t : ℕ)
        → t < product ns → index_courses ns indices ≡ Some is → subs_courses slots ns is subs ≡ Some cs
        → subscripts_at (selections_at slots (axes_in indices (entries_in indices ns t)) subs) (entries_in indices ns t) ≡ courses_at (places_at ns t) cs }
    ensures axes { (slots : List ℤ) (ns : List ℕ) (indices : Option (List Selection)) (is : Option (List Course)) (subs : List Sub) (cs : List Course)
        → index_courses ns indices ≡ Some is → subs_courses slots ns is subs ≡ Some cs → AxesBelow (length ns) cs }
{}

/// All that a statement reads at a tuple, masks and copies first, is what its references name there.
pub fn reads_by_courses()
    ensures { (shapes : List (List Dim)) (slots : List ℤ) (ns : List ℕ) (indices : Option (List Selection)) (is : Option (List Course)) (whens : List When)
        (copies : List ℕ) (form : ArrayForm) (rs : List Named) (t : ℕ) → t < product ns → index_courses ns indices ≡ Some is
        → all_names shapes slots ns is whens copies form ≡ Some rs
        → when_spots whens t ++ (row_spots copies t ++ reads_at shapes (entries_in indices ns t) (elemental_at slots (axes_in indices (entries_in indices ns t)) form))
        ≡ map (named_spot ns t) rs }
{}

/// They have a course for each dimension, along the axes of the space.
pub fn names_along_axes()
    ensures { (shapes : List (List Dim)) (slots : List ℤ) (ns : List ℕ) (indices : Option (List Selection)) (is : Option (List Course)) (whens : List When)
        (copies : List ℕ) (form : ArrayForm) (rs : List Named) → index_courses ns indices ≡ Some is
        → all_names shapes slots ns is whens copies form ≡ Some rs → All (IsAlongAxes (length ns)) rs }
{}

/// What a reference whose first subscript goes round reads at a tuple is what either of two references by courses names there, so that where all
/// else has a name, the elements that are read are those that all of them name. These have a course for each dimension, along the axes of the space.
pub fn turned_references()
    ensures elements { (shapes : List (List Dim)) (slots : List ℤ) (ns : List ℕ) (indices : Option (List Selection)) (is : List Course) (form : ArrayForm)
        (r q : Named) (t : ℕ) → t < product ns → index_courses ns indices ≡ Some (Some is) → turned_names shapes slots ns is form ≡ Some (r, q)
        → reads_at shapes (entries_in indices ns t) (elemental_at slots (axes_in indices (entries_in indices ns t)) form)
        ≡ option_or (named_spot ns t r) (named_spot ns t q) ∷ [] }
    ensures spots { (shapes : List (List Dim)) (slots : List ℤ) (ns : List ℕ) (whens : List When) (copies : List ℕ) (form : ArrayForm) (rs : List Named)
        (indices : Option (List Selection)) (is : Option (List Course)) → index_courses ns indices ≡ Some is
        → all_turned_names shapes slots ns is whens copies form ≡ Some rs → (t : ℕ) (spot : Spot) → t < product ns
        → names_spot (when_spots whens t
        ++ (row_spots copies t ++ reads_at shapes (entries_in indices ns t) (elemental_at slots (axes_in indices (entries_in indices ns t)) form))) spot
        ≡ names_spot (map (named_spot ns t) rs) spot }
    ensures axes { (shapes : List (List Dim)) (slots : List ℤ) (ns : List ℕ) (whens : List When) (copies : List ℕ) (form : ArrayForm) (rs : List Named)
        (indices : Option (List Selection)) (is : Option (List Course)) → index_courses ns indices ≡ Some is
        → all_turned_names shapes slots ns is whens copies form ≡ Some rs → All (IsAlongAxes (length ns)) rs }
{}

/// The element of a copy with the tuple's number is what its own courses name at the tuple.
pub fn copy_places()
    ensures { (row : ℕ) (ns : List ℕ) (t : ℕ) → t < product ns → named_spot ns t (named_copy ns row) ≡ Some (record { row = row; at = t }) }
{}

/// A copy over a space that isn't empty is laid out for its own courses.
pub fn copy_laid_out()
    ensures { (nodes row : ℕ) (ns : List ℕ) (layouts : List Layout) → (space_count ns == 0) ≡ false → slice_get layouts row ≡ Some (copy_layout nodes ns)
        → IsLaidOut ns layouts (named_copy ns row) (copy_layout nodes ns) }
{}

/// What is named at a tuple is in bounds where a test of each axis by itself holds.
pub fn in_bounds_by_axes()
    ensures { (ns : List ℕ) (r : Named) (t : ℕ) → IsAlongAxes (length ns) r
        → is_some (place_at_places r (places_at ns t)) ≡ holds (bounds_test r.dims r.courses) (places_at ns t) }
{}

/// A node owns what is named at a tuple where its test of each axis by itself holds.
pub fn owned_by_courses()
    ensures { (ns : List ℕ) (layouts : List Layout) (r : Named) (layout : Layout) (node t at : ℕ) → IsLaidOut ns layouts r layout
        → place_at_places r (places_at ns t) ≡ Some at
        → owned_by layout node at ≡ holds (owner_test layout.mapping node r.courses) (places_at ns t) }
{}

/// So do the owners of what is assigned, where that is in bounds.
pub fn left_by_axes()
    ensures { (ns : List ℕ) (layouts : List Layout) (l : Named) (layout : Layout) (node t : ℕ) → IsLaidOut ns layouts l layout
        → holds (bounds_test l.dims l.courses) (places_at ns t) ≡ true
        → computes_left layouts node (in_bounds layouts (named_spot ns t l)) ≡ holds (owner_test layout.mapping node l.courses) (places_at ns t) }
{}

/// So does the least owner of what is read first.
pub fn least_by_axes()
    ensures { (nodes : ℕ) (ns : List ℕ) (layouts : List Layout) (r : Named) (layout : Layout) (lead : ℕ → ℕ) (node t : ℕ) → node < nodes
        → IsLaidOut ns layouts r layout → ((spot : Spot) → named_spot ns t r ≡ Some spot → AreLed nodes layouts spot lead)
        → holds (bounds_test r.dims r.courses) (places_at ns t) ≡ true
        → (least_or_zero nodes layouts (in_bounds layouts (named_spot ns t r)) == node) ≡ holds (least_test layout.mapping lead node r.courses) (places_at ns t) }
{}

/// Between two places of an axis at which a subscript is in bounds it is in bounds at all: these places are an interval, and its two ends tell of all.
pub fn inside_between()
    ensures { (d : Dim) (first step : ℤ) (a k b : ℕ) → a ≤ k → k ≤ b → is_some (offset d (subscript_on first step a)) ≡ true
        → is_some (offset d (subscript_on first step b)) ≡ true → is_some (offset d (subscript_on first step k)) ≡ true }
{}

/// The places of an axis at which a node owns what is named, by an owned sequence.
pub fn axis_table()
    ensures { AxisTable }
{}
