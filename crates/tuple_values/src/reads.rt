//! The elements that are read at a tuple.

ghost use Rattle.std.specs.Prelude.{◌≡◌, ◌++◌, ◌∷◌, [], OnOk, map, option_map};
ghost use Rattle.code_meaning.specs.NestStatements.{row_spots, when_spots};
ghost use Rattle.code_meaning.specs.Parallel.{spot_of};
ghost use Rattle.node_code.specs.Texts.{form, forms_of, subs, when};
ghost use Rattle.tuple_values.specs.Here.{all_reads_here, reads_here, subscripts_here};
ghost use Rattle.tuple_values.specs.Spots.{read_of, reads_of};
ghost use Rattle.tuple_values.specs.Statements.{spot_in_row};

use crate::here::Here;
use crate::sections::section_place;
use hpf_base::OutOfMemory;
use node_code::{ArrayForm, Sub, When};
use storage::Spot;

/// Puts the elements that masks read at a tuple after the others, in order.
pub(crate) fn mask_reads(
    whens: &[When],
    tuple: usize,
    reads: &mut Vec<Option<Spot>>,
) -> Result<(), OutOfMemory>
    ensures { OnOk result (reads_of reads.new.items ≡ reads_of reads.old.items ++ when_spots (map when whens.now) tuple) }
{
    for w in whens {
        reads.push(Some(Spot {
            row: w.copy,
            at: tuple,
        }))?;
    }
    Ok(())
}

/// Puts the elements of copies at a tuple after the others, in order.
pub(crate) fn copy_reads(
    rows: &[usize],
    tuple: usize,
    reads: &mut Vec<Option<Spot>>,
) -> Result<(), OutOfMemory>
    ensures { OnOk result (reads_of reads.new.items ≡ reads_of reads.old.items ++ row_spots rows.now tuple) }
{
    for row in rows {
        reads.push(Some(Spot {
            row: *row,
            at: tuple,
        }))?;
    }
    Ok(())
}

/// Puts the elements that an array expression reads after the others, in order.
#[cycle(form_reads)]
pub(crate) fn form_reads(
    here: &Here<'_>,
    f: &ArrayForm,
    reads: &mut Vec<Option<Spot>>,
) -> Result<(), OutOfMemory>
    ensures { OnOk result (reads_of reads.new.items ≡ reads_of reads.old.items ++ reads_here here.now (form f.now)) }
{
    match f {
        ArrayForm::Flat(_) => Ok(()),
        ArrayForm::Section(a, ds) => section_read(here, *a, ds, reads),
        ArrayForm::Operation(_, fs) => all_form_reads(here, fs, reads),
    }
}

/// Puts the elements that operands read after the others, in order.
#[cycle(form_reads)]
fn all_form_reads(
    here: &Here<'_>,
    fs: &Vec<ArrayForm>,
    reads: &mut Vec<Option<Spot>>,
) -> Result<(), OutOfMemory>
    ensures { OnOk result (reads_of reads.new.items ≡ reads_of reads.old.items ++ all_reads_here here.now (forms_of fs.now.items)) }
{
    for f in fs {
        form_reads(here, f, reads)?;
    }
    Ok(())
}

/// Puts the element of a section after the others.
pub(crate) fn section_read(
    here: &Here<'_>,
    array: usize,
    section: &[Sub],
    reads: &mut Vec<Option<Spot>>,
) -> Result<(), OutOfMemory>
    ensures { OnOk result (reads_of reads.new.items ≡ reads_of reads.old.items ++ spot_of here.now.shapes.now array (subscripts_here here.now (subs section.now)) ∷ []) }
{
    let at = section_place(here, array, section)?;
    reads.push(in_row(array, at))?;
    Ok(())
}

/// The element of a row at a place, where there is one.
pub(crate) fn in_row(row: usize, at: Option<usize>) -> Option<Spot>
    ensures { read_of result ≡ option_map (spot_in_row row) at }
{
    let at = at?;
    Some(Spot { row, at })
}
