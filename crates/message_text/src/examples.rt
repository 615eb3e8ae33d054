//! Lines of small programs.

ghost use Rattle.std.specs.Prelude.{◌≡◌, [], codes};
ghost use Rattle.message_text.specs.Examples.{block_to_cyclic, known_condition, left_outside, masked, masked_apart, new_and_reduction, replicated_first, reversal, shift_left, sum_alone, two_dimensions};

/// A shift to the left and a reversal of an array in blocks over four nodes, its redistribution, and a mask and a reduction over an array in
/// blocks and one that is cyclic on two. The copy of that mask lies beside the array that is assigned, and in the next program the first of two
/// arrays lies with it and the second one apart. A FORALL whose mask leaves out an element that isn't there, so that its copy lies in blocks, a
/// reduction whose first array is replicated, and an array of two dimensions in blocks along both of a grid. Then three nests of INDEPENDENT loops
/// over a cyclic array: one with a scalar of its own and a REDUCTION variable and one with a condition, whose copies lie beside the array that
/// they store into, so that nothing is sent; and one that stores into none, whose copies lie in blocks.
pub fn lines_of_examples()
    ensures shift { shift_left ≡ codes "line 4: 1 -> 0: A(4)\nline 4: 2 -> 1: A(7)\nline 4: 3 -> 2: A(10)\n" }
    ensures reverse { reversal
        ≡ codes "line 4: 0 -> 2: A(2) A(3)\nline 4: 0 -> 3: A(1)\nline 4: 1 -> 2: A(4)\nline 4: 2 -> 0: A(8) A(9)\nline 4: 2 -> 1: A(7)\nline 4: 3 -> 0: A(10)\n" }
    ensures moved { block_to_cyclic
        ≡ codes "line 5: round 1: 0 -> 1: A(2)\nline 5: round 1: 1 -> 2: A(3)\nline 5: round 1: 2 -> 0: A(5)\nline 5: round 2: 1 -> 3: A(4)\nline 5: round 2: 2 -> 1: A(6)\nline 5: round 2: 3 -> 2: A(7)\n" }
    ensures mask { masked
        ≡ codes "line 4: 0 -> 1: A(2)\nline 4: 1 -> 0: A(3)\nline 4: 0 -> 1: A(2)\nline 4: 1 -> 0: A(3)\nline 5: 0 -> 1: A(2)\nline 5: 1 -> 0: A(3)\n" }
    ensures apart { masked_apart ≡ codes "line 6: 0 -> 1: A(2) ?@(2)\nline 6: 1 -> 0: A(3) ?@(3)\n" }
    ensures outside { left_outside ≡ codes "line 4: 0 -> 1: B(3) ?@(1) ?@(2)\nline 4: 1 -> 0: B(4) ?@(3)\n" }
    ensures replicated { replicated_first ≡ codes "line 3: 1 -> 0: B(2) B(4)\n" }
    ensures dimensions { two_dimensions ≡ codes "line 3: 1 -> 2: M(3,1) M(4,1) M(3,2) M(4,2)\nline 3: 3 -> 0: M(3,3) M(4,3) M(3,4) M(4,4)\n" }
    ensures nest { new_and_reduction ≡ [] }
    ensures condition { known_condition ≡ [] }
    ensures alone { sum_alone
        ≡ codes "line 5: 0 -> 2: A(5)\nline 5: 1 -> 0: A(2)\nline 5: 1 -> 2: A(6)\nline 5: 2 -> 1: A(3)\nline 5: 3 -> 1: A(4)\n" }
{}
