//! The align dummies of a directive.

ghost use Rattle.std.specs.Prelude.{◌≡◌, ◌++◌, map, IfOk, OnOk};
ghost use Rattle.std.specs.List.{flat_map};
ghost use Rattle.syntax_tree.specs.Directive.{directive_of, source_of};
ghost use Rattle.name_table.specs.Directives.{directive_dummies, dummy_of};

use hpf_base::Name;
use std::alloc::{AllocError, Global};
use syntax_tree::{Directive, Source};

/// The align dummies of a directive, in order; only ALIGN has any. An `Err` is want of memory.
pub(crate) fn dummies(alloc: Global, directive: &Directive) -> Result<Vec<Name>, AllocError>
    ensures { IfOk result (λ xs. xs.items ≡ directive_dummies (directive_of directive.now)) }
{
    match directive {
        Directive::Align(spec) => match &spec.source {
            None => Ok(Vec::new(alloc)),
            Some(sources) => {
                let names = dummies_in(alloc, sources)?;
                Ok(names)
            }
        },
        _ => Ok(Vec::new(alloc)),
    }
}

/// Those of the dimensions of an alignee.
fn dummies_in(alloc: Global, sources: &[Source]) -> Result<Vec<Name>, AllocError>
    ensures { IfOk result (λ xs. xs.items ≡ flat_map dummy_of (map source_of sources.now)) }
{
    let mut names = Vec::new(alloc);
    for source in sources {
        push_dummy(&mut names, source)?;
    }
    Ok(names)
}

/// One more, where there is one.
fn push_dummy(names: &mut Vec<Name>, source: &Source) -> Result<(), AllocError>
    ensures { OnOk result (names.new.items ≡ names.old.items ++ dummy_of (source_of source.now)) }
{
    if let Source::Dummy(name) = source {
        names.push(*name)?;
    }
    Ok(())
}
