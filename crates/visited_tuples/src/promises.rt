//! Laws on tuples at which nothing is exchanged.

ghost use Rattle.std.specs.Prelude.{◌≡◌, ℕ, ◌<◌, ◌==◌, ◌&&◌, not, All, Bool, true, List, filter, map, Option, Some, [], ◌∷◌, false, None};
ghost use Rattle.std.specs.List.{list_all, list_any, range_with_len};
ghost use Rattle.hpf_base.specs.ElementOrder.{product};
ghost use Rattle.storage.specs.Storage.{Spot};
ghost use Rattle.machine_steps.specs.Layout.{Layout, owns_spot, in_bounds, owned_by, size_of, AreOwned, first};
ghost use Rattle.machine_steps.specs.Message.{names_spot, Part, computes_left, least_or_zero};
ghost use Rattle.axis_products.specs.Products.{each, passing, places_at};
ghost use Rattle.axis_products.specs.Tests.{holds, ArePlaces};
ghost use Rattle.courses.specs.Owners.{IsLaidOut, bounds_test};
ghost use Rattle.courses.specs.References.{Named, named_spot};
ghost use Rattle.visited_tuples.specs.Owned.{Lies, owns_if_named, owns_named};
ghost use Rattle.visited_tuples.specs.Own.{IsOwn, listed_tuples};
ghost use Rattle.visited_tuples.specs.Visited.{IsTaking, Suffice, IsSending, AreAlike, IsHeld, IsSendingOf};
ghost use Rattle.message_elements.specs.declared.candidates.Candidates.{Candidates};
ghost use Rattle.message_elements.specs.Candidates.{AreCandidates};
ghost use Rattle.visited_tuples.specs.Parts.{IsPartOf};

/// A node owns the element that a reference names at a tuple where its test holds at the tuple's places.
pub fn owned_by_places()
    ensures { (ns : List ℕ) (layouts : List Layout) (r : Named) (layout : Layout) (node t : ℕ) (spot : Spot) → IsLaidOut ns layouts r layout
        → named_spot ns t r ≡ Some spot → owns_spot layouts node spot ≡ holds (owns_named layouts node r) (places_at ns t) }
{}

/// Where at a tuple's places all references name what the node owns, or nothing, it owns all that is read there.
pub fn owned_reads()
    ensures { (ns : List ℕ) (layouts : List Layout) (rs : List Named) (node t : ℕ) (spot : Spot) → All (Lies ns layouts) rs
        → list_all (λ r. holds (owns_if_named layouts node r) (places_at ns t)) rs ≡ true → names_spot (map (named_spot ns t) rs) spot ≡ true
        → owns_spot layouts node spot ≡ true }
{}

/// The tuples that a node computes are those with the places of what it computes.
pub fn own_tuples()
    ensures { (computes : (node tuple : ℕ) → Bool) (nodes : ℕ) (ns : List ℕ) (id : ℕ) (lists : Option (List (List ℕ))) (beside : List ℕ)
        → IsOwn computes nodes ns id lists beside → filter (computes id) (range_with_len 0 (product ns)) ≡ listed_tuples ns lists }
{}

/// It takes something at none of them but those beyond the places at which it owns all that is read.
pub fn taken_beyond()
    ensures { (computes : (node tuple : ℕ) → Bool) (nodes : ℕ) (ns : List ℕ) (id : ℕ) (lists : List (List ℕ)) (beside : List ℕ)
        (layouts : List Layout) (rs : List Named) (b : ℕ → ℕ → Bool) (ts : List ℕ)
        → IsOwn computes nodes ns id (Some lists) beside → All (Lies ns layouts) rs
        → ((places : List ℕ) → each b 0 places ≡ true → list_all (λ r. holds (owns_if_named layouts id r) places) rs ≡ true)
        → All (λ t. t < product ns) ts
        → ((a : ℕ → ℕ → Bool) → lists ≡ passing a 0 ns → (t : ℕ) → t < product ns
        → list_any (λ v. v == t) ts ≡ (each a 0 (places_at ns t) && not (each b 0 (places_at ns t))))
        → IsTaking computes layouts ns rs id ts }
{}

/// Where few references suffice, a node takes at the tuples at which it takes something that these name.
pub fn taken_of_few()
    ensures { (computes : (node tuple : ℕ) → Bool) (layouts : List Layout) (ns : List ℕ) (rs few : List Named) (id : ℕ) (ts : List ℕ)
        → Suffice computes layouts ns rs few → IsTaking computes layouts ns few id ts → IsTaking computes layouts ns rs id ts }
{}

/// These are the tuples of the part that a node has to visit.
pub fn visits_of_part()
    ensures { (who : (node tuple : ℕ) → Bool) (nodes : ℕ) (layouts : List Layout) (ns : List ℕ) (rs : List Named) (id : ℕ)
        (lists : Option (List (List ℕ))) (beside : List ℕ) (v : Candidates) (part : Part)
        → IsOwn who nodes ns id lists beside → v.computed ≡ listed_tuples ns lists → IsTaking who layouts ns rs id v.taking.items
        → IsSending who nodes layouts ns rs id v.sending.items → IsPartOf ns rs who part → AreCandidates nodes layouts part id v }
{}

/// The owners of what is assigned compute, where that is in bounds at every tuple.
pub fn assigned_own()
    ensures { (nodes : ℕ) (layouts : List Layout) (ns : List ℕ) (l : Named) (layout : Layout) (id : ℕ) → IsLaidOut ns layouts l layout
        → ((t : ℕ) → t < product ns → holds (bounds_test l.dims l.courses) (places_at ns t) ≡ true)
        → (lists : Option (List (List ℕ))) (beside : List ℕ) → ArePlaces (owns_named layouts id l) ns lists
        → ((at : ℕ) → at < size_of layout → owned_by layout id at ≡ true → filter (λ other. owned_by layout other at) (range_with_len 0 nodes) ≡ beside)
        → IsOwn (λ node t. computes_left layouts node (in_bounds layouts (named_spot ns t l))) nodes ns id lists beside }
{}

/// The least owner of what is read computes, where that is in bounds at every tuple.
pub fn read_own()
    ensures { (nodes : ℕ) (layouts : List Layout) (ns : List ℕ) (r : Named) (layout : Layout) (id : ℕ) → IsLaidOut ns layouts r layout
        → ((t : ℕ) → t < product ns → holds (bounds_test r.dims r.courses) (places_at ns t) ≡ true) → AreOwned nodes layouts
        → (leads : Bool) → ((at : ℕ) → at < size_of layout → owned_by layout id at ≡ true → (first (λ other. owned_by layout other at) 0 nodes == id) ≡ leads)
        → (lists : Option (List (List ℕ))) → leads ≡ true → ArePlaces (owns_named layouts id r) ns lists
        → IsOwn (λ node t. least_or_zero nodes layouts (in_bounds layouts (named_spot ns t r)) == node) nodes ns id lists (id ∷ []) }
{}

/// A node that isn't the least owner of what it owns computes nothing then.
pub fn unread_own()
    ensures { (nodes : ℕ) (layouts : List Layout) (ns : List ℕ) (r : Named) (layout : Layout) (id : ℕ) → IsLaidOut ns layouts r layout
        → ((t : ℕ) → t < product ns → holds (bounds_test r.dims r.courses) (places_at ns t) ≡ true) → AreOwned nodes layouts
        → (leads : Bool) → ((at : ℕ) → at < size_of layout → owned_by layout id at ≡ true → (first (λ other. owned_by layout other at) 0 nodes == id) ≡ leads)
        → leads ≡ false → IsOwn (λ node t. least_or_zero nodes layouts (in_bounds layouts (named_spot ns t r)) == node) nodes ns id None (id ∷ []) }
{}

/// Node 0 computes all tuples.
pub fn root_own()
    ensures { (nodes : ℕ) (ns : List ℕ) (id : ℕ) (lists : Option (List (List ℕ))) → ArePlaces (record { always = id == 0; at = λ axis place. true }) ns lists
        → IsOwn (λ node t. node == 0) nodes ns id lists (id ∷ []) }
{}

/// The owners of what is assigned own what lies as that does.
pub fn alike_held()
    ensures { (layouts : List Layout) (ns : List ℕ) (l r : Named) (layout : Layout) → IsLaidOut ns layouts l layout → AreAlike layouts l r
        → IsHeld (λ node t. computes_left layouts node (in_bounds layouts (named_spot ns t l))) layouts ns r }
{}

/// A node that isn't the least owner of what it owns sends nothing of it.
pub fn least_alone()
    ensures { (nodes : ℕ) (layouts : List Layout) (ns : List ℕ) (r : Named) (layout : Layout) (id : ℕ) → IsLaidOut ns layouts r layout → AreOwned nodes layouts
        → (computes : (node tuple : ℕ) → Bool)
        → ((at : ℕ) → at < size_of layout → owned_by layout id at ≡ true → (first (λ other. owned_by layout other at) 0 nodes == id) ≡ false)
        → IsSendingOf computes nodes layouts ns r id [] }
{}

/// What all other nodes own too isn't sent.
pub fn all_own()
    ensures { (nodes : ℕ) (layouts : List Layout) (ns : List ℕ) (r : Named) (layout : Layout) (id : ℕ) → IsLaidOut ns layouts r layout → AreOwned nodes layouts
        → (computes : (node tuple : ℕ) → Bool)
        → ((at : ℕ) → at < size_of layout → owned_by layout id at ≡ true → (other : ℕ) → other < nodes → owned_by layout other at ≡ true)
        → IsSendingOf computes nodes layouts ns r id [] }
{}

/// A node sends at tuples where it owns what is named.
pub fn sent_where_owned()
    ensures { (nodes : ℕ) (layouts : List Layout) (ns : List ℕ) (r : Named) (layout : Layout) (id : ℕ) → IsLaidOut ns layouts r layout → AreOwned nodes layouts
        → (computes : (node tuple : ℕ) → Bool) (lists : Option (List (List ℕ)))
        → ArePlaces (owns_named layouts id r) ns lists → IsSendingOf computes nodes layouts ns r id (listed_tuples ns lists) }
{}

/// Where the nodes that compute its own tuples own what it owns, it sends nothing at these.
pub fn sent_beyond()
    ensures { (nodes : ℕ) (layouts : List Layout) (ns : List ℕ) (r : Named) (layout : Layout) (id : ℕ) → IsLaidOut ns layouts r layout → AreOwned nodes layouts
        → (computes : (node tuple : ℕ) → Bool) (lists owned : List (List ℕ)) (beside ts : List ℕ)
        → IsOwn computes nodes ns id (Some lists) beside → ArePlaces (owns_named layouts id r) ns (Some owned)
        → ((at : ℕ) → at < size_of layout → owned_by layout id at ≡ true → (other : ℕ) → other < nodes → list_any (λ n. n == other) beside ≡ true
        → owned_by layout other at ≡ true)
        → All (λ t. t < product ns) ts
        → ((a b : ℕ → ℕ → Bool) → owned ≡ passing a 0 ns → lists ≡ passing b 0 ns → (t : ℕ) → t < product ns
        → list_any (λ v. v == t) ts ≡ (each a 0 (places_at ns t) && not (each b 0 (places_at ns t))))
        → IsSendingOf computes nodes layouts ns r id ts }
{}

/// Where few references suffice, a node sends at the tuples at which it sends something that these name.
pub fn sent_of_few()
    ensures { (computes : (node tuple : ℕ) → Bool) (nodes : ℕ) (layouts : List Layout) (ns : List ℕ) (rs few : List Named) (id : ℕ) (ts : List ℕ)
        → Suffice computes layouts ns rs few → IsSending computes nodes layouts ns few id ts → IsSending computes nodes layouts ns rs id ts }
{}
