//! What stands for the dimensions of an alignee (HPF 2.0, 3.4).

ghost use Rattle.std.specs.Prelude.{◌≡◌, ◌<◌, ◌+◌, ◌^◌, ◌∷◌, ◌++◌, [], map, replicate, if◌then◌else◌, IfOk, OnOk};
ghost use Rattle.std.specs.List.{flat_map};
ghost use Rattle.syntax_tree.specs.Directive.{alignment, source_of, Spread};
ghost use Rattle.name_table.specs.Directives.{dummies, dummy_of};
ghost use Rattle.alignment_rules.specs.AlignmentEntries.{colons_from, dimension_from, is_dummy};
ghost use Rattle.alignment_rules.specs.AlignmentRules.{is_colon};
ghost use Rattle.alignment_rules.specs.AlignmentValues.{sources};

use hpf_base::Name;
use std::alloc::{AllocError, Global};
use syntax_tree::{AlignSpec, Source};

/// The align dummies of an ALIGN, in order. An `Err` is want of memory, here and below.
pub(crate) fn dummies(alloc: Global, spec: &AlignSpec) -> Result<Vec<Name>, AllocError>
    ensures { IfOk result (λ xs. xs.items ≡ dummies (alignment spec.now)) }
{
    match &spec.source {
        None => Ok(Vec::new(alloc)),
        Some(sources) => {
            let names = dummies_of(alloc, sources)?;
            Ok(names)
        }
    }
}

/// Those among the entries of an alignee.
fn dummies_of(alloc: Global, sources: &[Source]) -> Result<Vec<Name>, AllocError>
    ensures { IfOk result (λ xs. xs.items ≡ flat_map dummy_of (map source_of sources.now)) }
{
    let mut names = Vec::new(alloc);
    for source in sources {
        push_dummy(&mut names, source)?;
    }
    Ok(names)
}

/// One more, where there is one.
fn push_dummy(names: &mut Vec<Name>, source: &Source) -> Result<(), AllocError>
    ensures { OnOk result (names.new.items ≡ names.old.items ++ dummy_of (source_of source.now)) }
{
    if let Source::Dummy(name) = source {
        names.push(*name)?;
    }
    Ok(())
}

/// The entries of an alignee of so many dimensions: a list that is left out is all `:`.
pub(crate) fn sources(
    alloc: Global,
    spec: &AlignSpec,
    rank: usize,
) -> Result<Vec<Source>, AllocError>
    ensures { IfOk result (λ ss. map source_of ss.items ≡ sources (alignment spec.now) rank) }
{
    match &spec.source {
        None => {
            let entries = all_colons(alloc, rank)?;
            Ok(entries)
        }
        Some(given) => {
            let entries = copied(alloc, given)?;
            Ok(entries)
        }
    }
}

/// So many `:`.
#[tactic(auto, using(crate::proofs::TargetLists::replicate_next))]
fn all_colons(alloc: Global, rank: usize) -> Result<Vec<Source>, AllocError>
    ensures { IfOk result (λ ss. map source_of ss.items ≡ replicate rank Spread) }
{
    let mut entries = Vec::new(alloc);
    for place in 0..rank {
        let _ = place;
        entries.push(Source::Colon)?;
    }
    Ok(entries)
}

/// A copy of the entries.
fn copied(alloc: Global, sources: &[Source]) -> Result<Vec<Source>, AllocError>
    ensures { IfOk result (λ ss. map source_of ss.items ≡ map source_of sources.now) }
{
    let mut entries = Vec::new(alloc);
    for source in sources {
        entries.push(copy_of(source))?;
    }
    Ok(entries)
}

/// A copy of the entry.
fn copy_of(source: &Source) -> Source
    ensures { source_of result ≡ source_of source.now }
{
    match source {
        Source::Dummy(name) => Source::Dummy(*name),
        Source::Colon => Source::Colon,
        Source::Star => Source::Star,
    }
}

/// It is `:`.
pub(crate) fn is_colon(source: &Source) -> bool
    ensures { result ≡ is_colon (source_of source.now) }
{
    matches!(source, Source::Colon)
}

/// The dimensions, from 0, whose entries are `:`.
pub(crate) fn colons(alloc: Global, sources: &[Source]) -> Result<Vec<usize>, AllocError>
    ensures { IfOk result (λ ns. ns.items ≡ colons_from 0 (map source_of sources.now)) }
{
    let mut places = Vec::new(alloc);
    let mut place = 0;
    for source in sources {
        push_if(&mut places, is_colon(source), place)?;
        place += 1;
    }
    Ok(places)
}

/// A place more, where a test holds.
fn push_if(places: &mut Vec<usize>, test: bool, place: usize) -> Result<(), AllocError>
    ensures { OnOk result (places.new.items ≡ (if test then places.old.items ++ place ∷ [] else places.old.items)) }
{
    if test {
        places.push(place)?;
    }
    Ok(())
}

/// It is this dummy.
fn is_dummy(name: &Name, source: &Source) -> bool
    ensures { result ≡ is_dummy name.now (source_of source.now) }
{
    match source {
        Source::Dummy(other) => *name == *other,
        Source::Colon | Source::Star => false,
    }
}

/// The dimension, from 0, whose entry is this dummy; the number of dimensions where none is.
pub(crate) fn dimension(name: &Name, sources: &[Source]) -> usize
    ensures { result ≡ dimension_from 0 name.now (map source_of sources.now) }
{
    let mut place = 0;
    let mut found = false;
    for source in sources {
        found |= is_dummy(name, source);
        place = next_unless(found, place);
    }
    place
}

/// The next place, unless a test holds.
pub(crate) fn next_unless(test: bool, place: usize) -> usize
    requires { place < 2 ^ 63 }
    ensures { result ≡ (if test then place else place + 1) }
{
    if test { place } else { place + 1 }
}
