//! The line that the program writes to standard error where a text is refused, and where it comes to a fault.

/// Whether bytes are the line of a refusal, and nothing more.
pub fn is_refusal(bytes: &[u8]) -> bool {
    is_line(bytes, b": refused ")
}

/// Whether bytes are the line of a fault, and nothing more.
pub fn is_fault(bytes: &[u8]) -> bool {
    is_line(bytes, b": fault ")
}

/// Whether bytes are one line that begins with the number of a line and these words, and goes on.
fn is_line(bytes: &[u8], words: &[u8]) -> bool {
    let rest = after_number(bytes).strip_prefix(words).unwrap_or(&[]);
    match rest.strip_suffix(b"\n") {
        Some(rest) => !rest.is_empty() && !rest.contains(&b'\n'),
        None => false,
    }
}

/// What stands after `hpf: line` and a number; nothing where these aren't in front.
fn after_number(bytes: &[u8]) -> &[u8] {
    let rest = bytes.strip_prefix(b"hpf: line ").unwrap_or(&[]);
    match rest.iter().position(|byte| !byte.is_ascii_digit()) {
        Some(digits) if digits > 0 => rest.get(digits..).unwrap_or(&[]),
        _ => &[],
    }
}
