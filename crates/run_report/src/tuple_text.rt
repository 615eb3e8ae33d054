//! Tuples of numbers in a text.

ghost use Rattle.std.specs.Prelude.{◌≡◌, ◌++◌, ◌∷◌, [], OnOk};
ghost use Rattle.std.specs.Fmt.{signed_decimal};
ghost use Rattle.std.specs.List.{flat_map};
ghost use Rattle.run_report.specs.TupleText.{numbers_text, tuple_text};

use itoa::Buffer;
use std::alloc::AllocError;

/// Adds a tuple, as `(2,3)`.
pub fn add_tuple(text: &mut Vec<u8>, numbers: &[i64]) -> Result<(), AllocError>
    ensures { OnOk result (text.new.items ≡ text.old.items ++ tuple_text numbers.now) }
{
    text.push(b'(')?;
    add_numbers(text, numbers)?;
    text.push(b')')?;
    Ok(())
}

/// Adds numbers, with a comma between two.
fn add_numbers(text: &mut Vec<u8>, numbers: &[i64]) -> Result<(), AllocError>
    ensures { OnOk result (text.new.items ≡ text.old.items ++ numbers_text numbers.now) }
{
    if let [first, rest @ ..] = numbers {
        add_number(text, *first)?;
        add_more(text, rest)?;
    }
    Ok(())
}

/// Adds numbers, each after a comma.
fn add_more(text: &mut Vec<u8>, numbers: &[i64]) -> Result<(), AllocError>
    ensures { OnOk result (text.new.items ≡ text.old.items ++ flat_map (λ n. 44 ∷ signed_decimal n) numbers.now) }
{
    for number in numbers {
        text.push(b',')?;
        add_number(text, *number)?;
    }
    Ok(())
}

/// Adds a number in decimal.
pub(crate) fn add_number(text: &mut Vec<u8>, number: i64) -> Result<(), AllocError>
    ensures { OnOk result (text.new.items ≡ text.old.items ++ signed_decimal number) }
{
    let mut buffer = Buffer::new();
    text.extend_from_slice(buffer.format(number).as_bytes())?;
    Ok(())
}
