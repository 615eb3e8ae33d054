//! The arrays of a program at the start, and those that each REDISTRIBUTE moves (HPF 2.0, 3 and 8.3).

ghost use Rattle.std.specs.Prelude.{◌≡◌, ◌≤◌, ◌++◌, ◌+◌, length, map, unwrap_or, All, IfOk, OnOk};
ghost use Rattle.hpf_base.specs.declared.limits.TheConstants.{MAX_RANK};
ghost use Rattle.declarations.specs.declared.limits.TheConstants.{MAX_NAMES};
ghost use Rattle.expression_rules.specs.Symbols.{is_among};
ghost use Rattle.syntax_tree.specs.Directive.{distribution};
ghost use Rattle.syntax_tree.specs.Statement.{block_of};
ghost use Rattle.statement_walk.specs.Heads.{all_heads};
ghost use Rattle.distribution_rules.specs.Setting.{array_of, arrays};
ghost use Rattle.directive_check.specs.ChainSteps.{IsJudged};
ghost use Rattle.directive_check.specs.Limits.{HasFewDims};
ghost use Rattle.directive_check.specs.MappedSteps.{mapped};
ghost use Rattle.directive_check.specs.ProgramMaps.{new_map, new_maps_from, redistribution, replicated, shape_of, start_map, start_maps_in};
ghost use Rattle.directive_check.specs.Redistributes.{redistributes, said};
ghost use Rattle.directive_check.specs.DirectMappings.{moved, started};

use crate::direct_mappings::{distributed_as, replicated, start_of, with_root};
use crate::mapped_object::MappedObject;
use crate::redistributes::{Redistribute, redistributes};
use crate::root_alignments::root_of;
use array_maps::{ArrayMap, ArrayMaps, NewMap, NewMaps, Redistribution, Redistributions};
use distribution_rules::Setting;
use expression_rules::{Dims, extent, is_among};
use hpf_base::{ArrayId, Index, Name, Shape};
use mappings::Mapping;
use name_table::{Entry, Names, What};
use std::alloc::{AllocError, Global};
use syntax_tree::{DistSpec, Stmt};

/// Each declared array, in order, with its name, its shape and its mapping at the start. An `Err` is want of memory, here and below.
pub(crate) fn start_maps(
    alloc: Global,
    setting: &Setting<'_>,
    objects: &[MappedObject<'_>],
    names: &Names,
) -> Result<ArrayMaps, AllocError>
    requires judged { All (IsJudged setting.now) objects.now }
    requires few { length setting.now.names ≤ MAX_NAMES }
    requires dims { All (λ e. HasFewDims e.what) names.now }
    ensures { IfOk result (λ ms. ms ≡ start_maps_in setting.now (mapped objects.now) names.now) }
{
    let mut maps = Vec::new(alloc);
    for place in 0..names.len() {
        match names.get(place) {
            Some(entry) => push_start(alloc, setting, objects, entry, &mut maps)?,
            None => unreachable!(),
        }
    }
    Ok(ArrayMaps::new(maps))
}

/// That of a declared name, after the others.
fn push_start(
    alloc: Global,
    setting: &Setting<'_>,
    objects: &[MappedObject<'_>],
    entry: &Entry,
    maps: &mut Vec<ArrayMap>,
) -> Result<(), AllocError>
    requires judged { All (IsJudged setting.now) objects.now }
    requires few { length setting.now.names ≤ MAX_NAMES }
    requires dims { HasFewDims entry.now.what }
    ensures { OnOk result (maps.new.items ≡ maps.old.items ++ start_map setting.now (mapped objects.now) entry.now.name entry.now.what) }
{
    match &entry.what {
        What::Array(dims, _) => {
            let shape = shape_of(alloc, dims)?;
            let start = start_mapping(alloc, setting, objects, &entry.name)?;
            maps.push(ArrayMap {
                name: entry.name,
                shape,
                start,
            })?;
            Ok(())
        }
        _ => Ok(()),
    }
}

/// The shape of an array.
fn shape_of(alloc: Global, dims: &Dims) -> Result<Shape, AllocError>
    requires { length dims.now ≤ MAX_RANK }
    ensures { IfOk result (λ s. s ≡ shape_of dims.now) }
{
    let mut lower = Vec::new(alloc);
    let mut extents = Vec::new(alloc);
    for dim in dims.as_slice() {
        lower.push(dim.lower)?;
        extents.push(extent(*dim) as i64)?;
    }
    Ok(Shape {
        lower: index_of(alloc, &lower),
        extent: index_of(alloc, &extents),
    })
}

/// The tuple of these numbers. It takes no memory.
fn index_of(alloc: Global, numbers: &[i64]) -> Index
    requires { length numbers.now ≤ MAX_RANK }
    ensures { result ≡ numbers.now }
{
    match Index::new(alloc, numbers) {
        Some(index) => index,
        None => unreachable!(),
    }
}

/// The mapping of an array at the start.
fn start_mapping(
    alloc: Global,
    setting: &Setting<'_>,
    objects: &[MappedObject<'_>],
    name: &Name,
) -> Result<Mapping, AllocError>
    requires judged { All (IsJudged setting.now) objects.now }
    requires few { length setting.now.names ≤ MAX_NAMES }
    ensures { IfOk result (λ m. m ≡ started setting.now (mapped objects.now) name.now) }
{
    let root = start_of(alloc, setting, objects, &root_of(setting, objects, name))?;
    let mapping = with_root(alloc, setting, objects, name, root)?;
    Ok(or_replicated(alloc, setting, mapping))
}

fn or_replicated(alloc: Global, setting: &Setting<'_>, mapping: Option<Mapping>) -> Mapping
    ensures { result ≡ unwrap_or mapping (replicated setting.now.grid) }
{
    match mapping {
        Some(mapping) => mapping,
        None => replicated(alloc, setting),
    }
}

/// What each REDISTRIBUTE does, in the order of the text, with its line.
pub(crate) fn redistributions(
    alloc: Global,
    setting: &Setting<'_>,
    objects: &[MappedObject<'_>],
    names: &Names,
    stmts: &[Stmt],
) -> Result<Redistributions, AllocError>
    requires judged { All (IsJudged setting.now) objects.now }
    requires few { length setting.now.names ≤ MAX_NAMES }
    ensures { IfOk result (λ rs. rs ≡ map (λ d. redistribution setting.now (mapped objects.now) (arrays names.now) d.0 d.1) (redistributes (all_heads (block_of stmts.now)))) }
{
    let found = redistributes(alloc, stmts)?;
    let entries = moved_by_each(alloc, setting, objects, names, &found)?;
    Ok(Redistributions::new(entries))
}

/// What each of these does.
fn moved_by_each(
    alloc: Global,
    setting: &Setting<'_>,
    objects: &[MappedObject<'_>],
    names: &Names,
    found: &[Redistribute<'_>],
) -> Result<Vec<Redistribution>, AllocError>
    requires judged { All (IsJudged setting.now) objects.now }
    requires few { length setting.now.names ≤ MAX_NAMES }
    ensures { IfOk result (λ rs. rs.items ≡ map (λ d. redistribution setting.now (mapped objects.now) (arrays names.now) d.0 d.1) (said found.now)) }
{
    let mut entries = Vec::new(alloc);
    for one in found {
        let maps = new_maps(alloc, setting, objects, names, one.spec)?;
        entries.push(Redistribution {
            line: one.line,
            maps,
        })?;
    }
    Ok(entries)
}

/// The arrays that a REDISTRIBUTE moves, in the order of their declarations, each with its new mapping.
fn new_maps(
    alloc: Global,
    setting: &Setting<'_>,
    objects: &[MappedObject<'_>],
    names: &Names,
    spec: &DistSpec,
) -> Result<NewMaps, AllocError>
    requires judged { All (IsJudged setting.now) objects.now }
    requires few { length setting.now.names ≤ MAX_NAMES }
    ensures { IfOk result (λ ms. ms ≡ new_maps_from setting.now (mapped objects.now) (distribution spec.now) 0 (arrays names.now)) }
{
    let mut maps = Vec::new(alloc);
    let mut number = 0;
    for place in 0..names.len() {
        match names.get(place) {
            Some(entry) => {
                push_moved(alloc, setting, objects, spec, number, entry, &mut maps)?;
                number = after(number, entry)?;
            }
            None => unreachable!(),
        }
    }
    Ok(NewMaps::new(maps))
}

/// The number of the next array. More than 4,294,967,295 arrays, which no program has, find no room.
fn after(number: u32, entry: &Entry) -> Result<u32, AllocError>
    ensures { IfOk result (λ n. n ≡ number + length (array_of entry.now.name entry.now.what)) }
{
    match (&entry.what, number.checked_add(1)) {
        (What::Array(..), Some(next)) => Ok(next),
        (What::Array(..), None) => Err(AllocError),
        _ => Ok(number),
    }
}

/// The array of a declared name with its new mapping, after the others, if it moves.
fn push_moved(
    alloc: Global,
    setting: &Setting<'_>,
    objects: &[MappedObject<'_>],
    spec: &DistSpec,
    number: u32,
    entry: &Entry,
    maps: &mut Vec<NewMap>,
) -> Result<(), AllocError>
    requires judged { All (IsJudged setting.now) objects.now }
    requires few { length setting.now.names ≤ MAX_NAMES }
    ensures { OnOk result (maps.new.items ≡ maps.old.items
        ++ new_maps_from setting.now (mapped objects.now) (distribution spec.now) number (array_of entry.now.name entry.now.what)) }
{
    match &entry.what {
        What::Array(..) => { push_array(alloc, setting, objects, spec, number, &entry.name, maps) }
        _ => Ok(()),
    }
}

/// An array with its new mapping, after the others, if it moves.
fn push_array(
    alloc: Global,
    setting: &Setting<'_>,
    objects: &[MappedObject<'_>],
    spec: &DistSpec,
    number: u32,
    name: &Name,
    maps: &mut Vec<NewMap>,
) -> Result<(), AllocError>
    requires judged { All (IsJudged setting.now) objects.now }
    requires few { length setting.now.names ≤ MAX_NAMES }
    ensures { OnOk result (maps.new.items ≡ maps.old.items ++ new_map setting.now (mapped objects.now) (distribution spec.now) number name.now) }
{
    let root = root_of(setting, objects, name);
    if is_named(spec, &root) {
        let map = moved_mapping(alloc, setting, objects, spec, name, &root)?;
        maps.push(NewMap {
            array: ArrayId(number),
            map,
        })?;
    }
    Ok(())
}

/// The new mapping of an array whose alignments end at this object.
fn moved_mapping(
    alloc: Global,
    setting: &Setting<'_>,
    objects: &[MappedObject<'_>],
    spec: &DistSpec,
    name: &Name,
    root: &Name,
) -> Result<Mapping, AllocError>
    requires judged { All (IsJudged setting.now) objects.now }
    requires few { length setting.now.names ≤ MAX_NAMES }
    ensures { IfOk result (λ m. m ≡ moved setting.now (mapped objects.now) (distribution spec.now) name.now root.now) }
{
    let found = distributed_as(alloc, setting, spec, root)?;
    let mapping = with_root(alloc, setting, objects, name, found)?;
    Ok(or_replicated(alloc, setting, mapping))
}

/// The object is among the names after `::`, or it is the one name before the formats.
fn is_named(spec: &DistSpec, name: &Name) -> bool
    ensures { result ≡ is_among name.now (distribution spec.now).names }
{
    if spec.colons {
        return is_among(name, spec.names.as_slice());
    }
    match spec.names.as_slice() {
        [only] => *name == *only,
        _ => {
            let _ = name.bytes();
            false
        }
    }
}
