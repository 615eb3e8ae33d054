//! A law on what a line moves.

ghost use Rattle.std.specs.Prelude.{All, ℕ};
ghost use Rattle.array_maps.specs.declared.maps.Maps.{Maps};
ghost use Rattle.array_maps.specs.Lines.{moves_at};
ghost use Rattle.array_maps.specs.Maps.{AreMaps, IsNewMap};

/// Where the mappings of a program are valid on so many nodes, each new mapping that a line gives is one of one of its arrays, and valid.
pub fn line_moves_are_valid()
    ensures { (nodes : ℕ) (maps : Maps) → AreMaps nodes maps → (line : ℕ) → All (IsNewMap nodes maps.arrays) (moves_at maps.moves line) }
{}
