//! The mappings of a program's arrays.

ghost use Rattle.std.specs.Prelude.{◌≡◌, ◌++◌, map, IfOk, OnOk};
ghost use Rattle.array_maps.specs.Lines.{moves_at, moves_of_line};

use hpf_base::{ArrayId, Name, Shape};
use mappings::Mapping;
use std::alloc::{AllocError, Global};
use std::marker::Model;

/// An array with the mapping that it has when the program starts.
#[derive(Drop)]
pub struct ArrayMap {
    pub name: Name,
    pub shape: Shape,
    pub start: Mapping,
}

/// A mapping that an array is given while the program runs.
#[derive(Drop)]
pub struct NewMap {
    pub array: ArrayId,
    pub map: Mapping,
}

/// The arrays of a program, in the order of their declarations. An `ArrayId` is a place in this list, from 0. Contracts see the list.
#[derive(Drop)]
pub struct ArrayMaps {
    entries: Vec<ArrayMap>,
}

impl Model for ArrayMaps {
    ghost use Rattle.std.specs.Prelude.{List};
    ghost use Rattle.array_maps.specs.declared.maps.ArrayMap.{ArrayMap};

    ghost Value = { List ArrayMap };

    ghost view = { λ a. a.entries.items };
}

impl ArrayMaps {
    /// These arrays, in their order. It takes no memory.
    pub fn new(entries: Vec<ArrayMap>) -> ArrayMaps
        ensures { result ≡ entries.items }
    {
        ArrayMaps { entries }
    }

    /// The arrays in order.
    pub fn as_slice(&self) -> &[ArrayMap]
        ensures { result.now ≡ self.now }
    {
        &self.entries
    }
}

/// What a REDISTRIBUTE does: each array that it moves, once, in the order of the declarations, with its new mapping (HPF 2.0, REDISTRIBUTE).
/// Contracts see the list.
#[derive(Drop)]
pub struct NewMaps {
    entries: Vec<NewMap>,
}

impl Model for NewMaps {
    ghost use Rattle.std.specs.Prelude.{List};
    ghost use Rattle.array_maps.specs.declared.maps.NewMap.{NewMap};

    ghost Value = { List NewMap };

    ghost view = { λ n. n.entries.items };
}

impl NewMaps {
    /// These new mappings, in their order. It takes no memory.
    pub fn new(entries: Vec<NewMap>) -> NewMaps
        ensures { result ≡ entries.items }
    {
        NewMaps { entries }
    }

    /// The new mappings in order.
    pub fn as_slice(&self) -> &[NewMap]
        ensures { result.now ≡ self.now }
    {
        &self.entries
    }
}

/// A REDISTRIBUTE with the number of its line, from 1, by which it is known: a directive line holds one directive.
#[derive(Drop)]
pub struct Redistribution {
    pub line: u32,
    pub maps: NewMaps,
}

/// What each REDISTRIBUTE of a program does, in the order of the text. Contracts see the list.
#[derive(Drop)]
pub struct Redistributions {
    entries: Vec<Redistribution>,
}

impl Model for Redistributions {
    ghost use Rattle.std.specs.Prelude.{List};
    ghost use Rattle.array_maps.specs.declared.maps.Redistribution.{Redistribution};

    ghost Value = { List Redistribution };

    ghost view = { λ r. r.entries.items };
}

impl Redistributions {
    /// These redistributions, in their order. It takes no memory.
    pub fn new(entries: Vec<Redistribution>) -> Redistributions
        ensures { result ≡ entries.items }
    {
        Redistributions { entries }
    }

    /// The redistributions in order.
    pub fn as_slice(&self) -> &[Redistribution]
        ensures { result.now ≡ self.now }
    {
        &self.entries
    }

    /// The new mappings that the redistributions of a line give, in order; none where there is no redistribution. An `Err` is want of memory.
    pub fn moves_at(&self, alloc: Global, line: u32) -> Result<Vec<&NewMap>, AllocError>
        ensures { IfOk result (λ found. map (λ new. new.now) found.items ≡ moves_at self.now line) }
    {
        let mut found = Vec::new(alloc);
        for one in self.as_slice() {
            push_at(one, line, &mut found)?;
        }
        Ok(found)
    }
}

/// Those of a redistribution, if it stands in that line, after the others. An `Err` is want of memory, here and below.
fn push_at<'a>(
    one: &'a Redistribution,
    line: u32,
    found: &mut Vec<&'a NewMap>,
) -> Result<(), AllocError>
    ensures { OnOk result (map (λ new. new.now) found.new.items ≡ map (λ new. new.now) found.old.items ++ moves_of_line one.now line) }
{
    if one.line == line {
        push_all(one.maps.as_slice(), found)
    } else {
        Ok(())
    }
}

/// These after the others.
fn push_all<'a>(maps: &'a [NewMap], found: &mut Vec<&'a NewMap>) -> Result<(), AllocError>
    ensures { OnOk result (map (λ new. new.now) found.new.items ≡ map (λ new. new.now) found.old.items ++ maps.now) }
{
    for new in maps {
        found.push(new)?;
    }
    Ok(())
}

/// The mappings of a program: those with which its arrays start, and those that its redistributions give.
#[derive(Drop)]
pub struct Maps {
    pub arrays: ArrayMaps,
    pub moves: Redistributions,
}
