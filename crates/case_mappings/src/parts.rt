//! Parts of a case, and numbers among their words.

use std::alloc::{AllocError, Global};

/// The part up to the first semicolon, and what stands after it.
pub fn first_part(written: &str) -> (&str, &str) {
    written.split_once(';').unwrap_or((written, ""))
}

/// The words of a text that are numbers, in their order.
pub fn numbers(alloc: Global, text: &str) -> Result<Vec<i64>, AllocError> {
    let mut numbers = Vec::new(alloc);
    for word in text.split(' ') {
        if let Ok(number) = word.parse::<i64>() {
            numbers.push(number)?;
        }
    }
    Ok(numbers)
}
