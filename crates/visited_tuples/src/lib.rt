//! Which tuples of a part a node has to visit, to compute them and to exchange what is read there: laws.
//!
//! Comes in: nothing. Goes out: laws, each the contract of a function that does nothing. What is read at a tuple is named by references, and
//! a node owns it where a test of each axis holds at the tuple's places (`owned_by_places`). So the tuples that a node computes are told by lists
//! of places, one an axis (`own_tuples`), whoever computes (`assigned_own`, `read_own`, `unread_own`, `root_own`); at those where it owns all that is read it takes nothing (`owned_reads`, `taken_beyond`), nor anywhere where it owns whole rows (`nothing_taken`); and it
//! sends what a reference names only where it owns that, and is the least owner (`least_alone`), where others lack it (`all_own`), at tuples
//! with the places of the reference (`sent_where_owned`), and not at those that it computes itself, if all that compute these own it too
//! (`sent_beyond`). Of what lies as what is assigned, and has its subscripts (`alike_held`), nothing is exchanged, so that few references
//! suffice (`taken_of_few`, `sent_of_few`). All of it together: `visits_of_part`.
//!
//! Words of the field: the tuples of a part are its *iteration space*. What a node computes of it is told by the
//! *owner-computes* rule, or by what is read where nothing is assigned; where it may exchange something are its
//! candidate iterations.
//!
//! *Proved:* By laws alone: which tuples of a part a node computes, by lists of places, whoever computes (`own_tuples`,
//! `assigned_own`, `read_own`, `unread_own`, `root_own`); that it takes something at none of them but those beyond the
//! places at which it owns all that is read (`owned_by_places`, `owned_reads`, `taken_beyond`); and that it sends what
//! a reference names only where it owns that (`sent_where_owned`), as its least owner (`least_alone`), where not all
//! own it (`all_own`), and not at its own tuples where all that compute these own it too (`sent_beyond`). All of it
//! together: `visits_of_part`.
#![tactic(auto)]

mod promises;

pub use promises::{
    alike_held, all_own, assigned_own, least_alone, own_tuples, owned_by_places, owned_reads,
    read_own, root_own, sent_beyond, sent_of_few, sent_where_owned, taken_beyond, taken_of_few,
    unread_own, visits_of_part,
};
