//! The lines of a case, and the letters of its arrays.

/// The row of a letter.
pub fn row_of(word: &str) -> Option<usize> {
    match word.as_bytes() {
        [letter @ b'A'..=b'Z'] => Some((*letter - b'A') as usize),
        _ => None,
    }
}

/// What stands after a word in the first of these lines that begins with it; nothing where there is none.
pub fn line_of<'a>(lines: &'a [String], word: &str) -> &'a str {
    for line in lines {
        let (first, rest) = line.as_str().split_once(' ').unwrap_or(("", ""));
        if first == word {
            return rest;
        }
    }
    ""
}
