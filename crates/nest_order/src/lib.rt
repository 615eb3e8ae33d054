//! The order of parallel iterations: a nest taken apart means what its loops mean.
//!
//! Comes in: a storage of spots, what the parts of a nest do at its iterations, or the statements of each iteration, with
//! their conditions and inner loops, and what these name. There is no program and no text here, and no code that runs. A
//! scalar that a nest assigns is one object in Fortran's loops. In the parted order each iteration has a copy of it (*scalar
//! expansion*), and so it has in the plain order with which `orders` and `nest` compare that one; `scalars` ties the two
//! kinds of loops. Goes out: laws, each the contract of a function with an empty body, over the definitions in `specs/`.
//!
//! What holds in between, from the bottom up:
//!
//! - `orders`: the law of fission (*loop distribution*) over any acts of parts. Where no iteration stores what another one
//!   touches, the parts may run one after another, each at all iterations: the plain order ends with the storage of the
//!   parted order, or with the fault of the least key.
//! - `items`: statements flatten to guarded parts that do the same, and what an iteration touches is listed for it.
//! - `nest`: both together. The statements of a nest are acts of parts on a storage that also has the stored conditions, and
//!   where the lists of its iterations don't interfere, its plain loops end as the parted order does, and with its stores.
//!   These plain loops have the copies already.
//! - `last_value` and `reduction`: what the scalars are after the nest, by the copies that its iterations have of them.
//! - `scalars`: Fortran's loops end as the plain loops with copies do, where each NEW variable is assigned before it is read,
//!   no two iterations touch another scalar that one of them assigns, and REDUCTION variables stand in reduction statements
//!   alone. So, where the copies' lists don't interfere, Fortran's loops end as the parted order does, scalars included.
//! - `nest_index`: several loops are one count of iterations, the innermost fastest.
//! - `example`: a small nest that meets the premises, and what the laws say of it.
//!
//! Each definition says in its comment what it is and what it isn't.
//!
//! *Proved:* INDEPENDENT nests, over any memory and any statements: taken part by part, a nest without interference
//! ends as its loops do, faults included (`law_of_fission`, `law_of_nests`), where each assigned scalar has a copy an
//! iteration. Fortran's loops, where a scalar is one object, end as those with copies do, given that each NEW variable
//! is assigned before it is read and that other iterations don't touch any other scalar that one assigns:
//! `one_scalar_or_copies`. The two together: `law_of_fortran_nests`. What scalars are after the nest:
//! `scalar_by_its_copies`, `last_value_of_scalar`, `reduction_variable`.
#![tactic(auto)]

mod example;
mod items;
mod last_value;
mod nest;
mod nest_index;
mod orders;
mod reduction;
mod scalars;

pub use example::{
    example_faults, example_finishes, example_is_parallel, example_last_value, example_reads_early,
    example_reduction, example_with_scalars,
};
pub use items::{flattened_items, listed_items};
pub use last_value::{last_value_in_nest, last_value_of_scalar};
pub use nest::{fault_keys, law_of_nests, stores_of_nest};
pub use nest_index::{nested_loops, numbered_tuples};
pub use orders::{law_of_fission, parts_agree};
pub use reduction::reduction_variable;
pub use scalars::{law_of_fortran_nests, one_scalar_or_copies, scalar_by_its_copies};
