//! What copies lie beside, as cases write it at the end of a line: `beside R ( .. )`, with an expression over slots and axes for each subscript, or
//! `along X X` for a triplet by its first value and its stride.

use crate::expressions::read_flat;
use crate::words::Words;
use node_code::{AnchorSub, FlatAnchor};
use std::alloc::Global;

/// Takes what copies lie beside, if it stands there; nothing else does.
pub(crate) fn read_beside(alloc: Global, words: &mut Words<'_>) -> Option<FlatAnchor> {
    if words.front().is_empty() {
        return None;
    }
    words.skip("beside");
    Some(FlatAnchor {
        array: words.row(),
        subscripts: read_anchor_subs(alloc, words),
    })
}

/// Takes its subscripts in parentheses.
fn read_anchor_subs(alloc: Global, words: &mut Words<'_>) -> Vec<AnchorSub> {
    let mut subs = Vec::new(alloc);
    words.skip("(");
    for _ in 0..8 {
        if words.front() == ")" {
            break;
        }
        if subs.push(read_anchor_sub(alloc, words)).is_err() {
            words.are_well = false;
        }
    }
    words.skip(")");
    words.skip("");
    subs
}

fn read_anchor_sub(alloc: Global, words: &mut Words<'_>) -> AnchorSub {
    if words.front() == "along" {
        words.skip("along");
        let first = read_flat(alloc, words);
        let stride = read_flat(alloc, words);
        return AnchorSub::Along(first, stride);
    }
    AnchorSub::At(read_flat(alloc, words))
}
