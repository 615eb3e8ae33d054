//! Sections of lines, from their first to their last position.

ghost use Rattle.std.specs.Prelude.{◌≡◌, ◌≤◌, ◌<◌, ◌-◌, ◌^◌, pos, ◌+ℤ◌, ◌*ℤ◌, ◌≤ℤ◌, unsigned_abs, IsTrue};
ghost use Rattle.mappings.specs.Mapping.{IsLine};
ghost use Rattle.gap_table.specs.OwnedSequence.{IsSectionOf, position_of};

use mappings::Line;

/// Whether all positions of a section lie inside the line, which they do where the first and the last do.
pub fn is_section(line: &Line, start: u64, stride: i64, count: u64) -> bool
    requires { IsLine line.now }
    ensures { IsTrue result → IsSectionOf line.now start stride count }
{
    if count == 0 {
        return true;
    }
    if count > line.extent || start < 1 || start > line.extent {
        return false;
    }
    is_position(line, last_position(start, stride, count))
}

/// Whether it is a position of the line.
fn is_position(line: &Line, number: i128) -> bool
    ensures low { IsTrue result → pos 1 ≤ℤ number }
    ensures high { IsTrue result → number ≤ℤ pos line.now.extent }
{
    1 <= number && number <= line.extent as i128
}

/// The last position of a section.
fn last_position(start: u64, stride: i64, count: u64) -> i128
    requires start { start ≤ 2 ^ 63 }
    requires some { 1 ≤ count }
    requires few { count ≤ 2 ^ 63 }
    ensures { result ≡ position_of start stride (count - 1) }
{
    last_of(start as i128, stride as i128, count)
}

/// The last number of a progression.
pub fn last_of(first: i128, stride: i128, count: u64) -> i128
    requires first { unsigned_abs first ≤ 2 ^ 63 }
    requires stride { unsigned_abs stride ≤ 2 ^ 63 }
    requires some { 1 ≤ count }
    requires few { count ≤ 2 ^ 63 }
    ensures { result ≡ first +ℤ (stride *ℤ pos (count - 1)) }
{
    sum(first, product(stride, count - 1))
}

fn product(stride: i128, steps: u64) -> i128
    requires stride { unsigned_abs stride ≤ 2 ^ 63 }
    requires steps { steps ≤ 2 ^ 63 }
    ensures value { result ≡ stride *ℤ pos steps }
    ensures small { unsigned_abs result ≤ 2 ^ 126 }
{
    stride * steps as i128
}

fn sum(first: i128, distance: i128) -> i128
    requires first { unsigned_abs first ≤ 2 ^ 63 }
    requires distance { unsigned_abs distance ≤ 2 ^ 126 }
    ensures { result ≡ first +ℤ distance }
{
    first + distance
}
