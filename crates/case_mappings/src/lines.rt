//! Lines, as cases write them.

ghost use Rattle.std.specs.Prelude.{◌≡◌, ◌≢◌, ◌≤◌, length, sum, All, IfOk, IfSome, IsTrue};
ghost use Rattle.mappings.specs.Mapping.{IsForm, IsLine};
ghost use Rattle.mappings.specs.declared.mapping.Form.TheVariants.{Whole};

use case_texts::TextError;
use hpf_base::{MAX_BOUND, MAX_NODES};
use mappings::{BlockSizes, Form, Line, MAX_BLOCK, MAX_CYCLIC, MAX_TEMPLATE_EXTENT};
use std::alloc::Global;

/// The line of this format; None where the numbers aren't those of a line.
pub fn line_of(form: Form, lower: i64, extent: i64, procs: u32) -> Option<Line>
    ensures { IfSome result IsLine }
{
    let line = read_line(form, lower, extent, procs)?;
    if is_line(&line) { Some(line) } else { None }
}

/// The line with these numbers, which may not be those of a line.
pub(crate) fn read_line(form: Form, lower: i64, extent: i64, procs: u32) -> Option<Line> {
    Some(Line {
        lower,
        extent: u64::try_from(extent).ok()?,
        form,
        procs,
    })
}

/// The format that the text names, with the first of its numbers, and the numbers after these.
pub fn form_of<'a>(
    alloc: Global,
    text: &str,
    numbers: &'a [i64],
) -> Result<(Form, &'a [i64]), TextError> {
    let [size, rest @ ..] = numbers else {
        return Err(TextError::Malformed);
    };
    let size = u64::try_from(*size).ok().ok_or(TextError::Malformed)?;
    let name = text.trim_start();
    if name.starts_with("block") {
        Ok((Form::Block(size), rest))
    } else if name.starts_with("cyclic") {
        Ok((Form::Cyclic(size), rest))
    } else if name.starts_with("whole") {
        Ok((Form::Whole, rest))
    } else if name.starts_with("gen") {
        blocks_of(alloc, size, rest)
    } else {
        Err(TextError::Malformed)
    }
}

/// So many blocks of the sizes at the front of these numbers, and the numbers after the sizes.
fn blocks_of(alloc: Global, count: u64, numbers: &[i64]) -> Result<(Form, &[i64]), TextError> {
    if count > MAX_NODES as u64 || count > numbers.len() as u64 {
        return Err(TextError::Malformed);
    }
    let (written, rest) = numbers.split_at(count as usize);
    let sizes = BlockSizes::new(alloc, sizes_of(alloc, written)?)?;
    Ok((Form::Gen(sizes), rest))
}

/// These sizes of blocks.
fn sizes_of(alloc: Global, numbers: &[i64]) -> Result<Vec<u64>, TextError>
    ensures length { IfOk result (λ sizes. length sizes.items ≡ length numbers.now) }
    ensures small { IfOk result (λ sizes. All (λ size. size ≤ MAX_BLOCK) sizes.items) }
{
    let mut sizes = Vec::new(alloc);
    for number in numbers {
        sizes.push(size_of(*number).ok_or(TextError::Malformed)?)?;
    }
    Ok(sizes)
}

/// The size of a block, where the number may be one.
fn size_of(number: i64) -> Option<u64>
    ensures { IfSome result (λ size. size ≤ MAX_BLOCK) }
{
    let size = u64::try_from(number).ok()?;
    if size <= MAX_BLOCK { Some(size) } else { None }
}

/// Whether the line is distributed.
pub(crate) fn is_distributed(line: &Line) -> bool
    ensures { IsTrue result → line.now.form ≢ Whole }
{
    match &line.form {
        Form::Whole => false,
        Form::Block(_) | Form::Cyclic(_) | Form::Gen(_) => true,
    }
}

/// Whether the numbers are those of a line.
pub(crate) fn is_line(line: &Line) -> bool
    ensures { IsTrue result → IsLine line.now }
{
    1 <= line.procs
        && line.procs <= MAX_NODES
        && line.extent <= MAX_TEMPLATE_EXTENT
        && line.lower.unsigned_abs() <= MAX_BOUND
        && is_form(line)
}

/// Whether the format deals out the line.
fn is_form(line: &Line) -> bool
    requires { line.now.procs ≤ MAX_NODES }
    ensures { IsTrue result → IsForm line.now.form line.now.extent line.now.procs }
{
    match &line.form {
        Form::Whole => line.procs == 1,
        Form::Block(m) => { 1 <= *m && *m <= MAX_BLOCK && line.extent <= *m * line.procs as u64 }
        Form::Cyclic(k) => 1 <= *k && *k <= MAX_CYCLIC,
        Form::Gen(sizes) => {
            sizes.as_slice().len() == line.procs as usize
                && sizes.as_slice().iter().all(|size| *size <= MAX_BLOCK)
                && line.extent <= sum_of(sizes.as_slice())
        }
    }
}

/// How many positions the blocks have.
fn sum_of(sizes: &[u64]) -> u64
    requires few { length sizes.now ≤ MAX_NODES }
    requires small { All (λ size. size ≤ MAX_BLOCK) sizes.now }
    ensures { result ≡ sum sizes.now }
{
    let mut sum: u64 = 0;
    for size in sizes {
        sum += *size;
    }
    sum
}
