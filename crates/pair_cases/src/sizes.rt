//! Whether arrays have as many elements as others.

ghost use Rattle.std.specs.Prelude.{◌≡◌, length, slice_index_or, true};
ghost use Rattle.machine_steps.specs.Layout.{sizes};

use owner_tables::Owners;

/// Whether there are as many arrays, each with as many elements.
pub fn are_of_same_sizes(before: &Owners, after: &Owners) -> bool
    ensures { result ≡ true → sizes before.now.layouts ≡ sizes after.now.layouts }
{
    let rows = before.rows();
    if rows != after.rows() {
        return false;
    }
    are_same(before, after, rows)
}

/// Whether of so many arrays each has as many elements.
fn are_same(before: &Owners, after: &Owners, rows: usize) -> bool
    requires before { rows ≡ length before.now.layouts }
    requires after { rows ≡ length after.now.layouts }
    ensures { result ≡ true → sizes before.now.layouts ≡ sizes after.now.layouts }
{
    for row in 0..rows {
        if !is_same(before, after, row) {
            return false;
        }
    }
    true
}

/// Whether an array has.
fn is_same(before: &Owners, after: &Owners, row: usize) -> bool
    ensures { result ≡ true → slice_index_or (sizes before.now.layouts) row 0 ≡ slice_index_or (sizes after.now.layouts) row 0 }
{
    before.size(row) == after.size(row)
}
