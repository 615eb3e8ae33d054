//! The words of a line, read one after the other.

/// What is left of a line, whose words are parted by one blank, and whether all that was asked for stood there. What was asked for and doesn't
/// stand there is 0.
#[derive(Drop)]
pub struct Words<'a> {
    rest: &'a str,
    pub are_well: bool,
}

impl<'a> Words<'a> {
    /// The whole line.
    pub fn new(line: &'a str) -> Words<'a> {
        Words {
            rest: line,
            are_well: true,
        }
    }

    /// The next word, which stays.
    pub(crate) fn front(&self) -> &'a str {
        let (word, _) = self.rest.split_once(' ').unwrap_or((self.rest, ""));
        word
    }

    /// The next word, which is taken; nothing at the end of the line.
    pub fn word(&mut self) -> &'a str {
        let (word, rest) = self.rest.split_once(' ').unwrap_or((self.rest, ""));
        self.rest = rest;
        word
    }

    /// Takes a word that has to stand there.
    pub(crate) fn skip(&mut self, word: &str) {
        if self.word() != word {
            self.are_well = false;
        }
    }

    /// Takes a number.
    pub fn number(&mut self) -> usize {
        let number = self.word().parse::<usize>().ok();
        self.known(number)
    }

    /// Takes the number of a line.
    pub fn line(&mut self) -> u32 {
        match self.word().parse::<u32>() {
            Ok(line) => line,
            Err(_) => {
                self.are_well = false;
                0
            }
        }
    }

    /// Takes a slot, as `s3`.
    pub(crate) fn slot(&mut self) -> usize {
        let slot = numbered(self.word(), 's');
        self.known(slot)
    }

    /// Takes a row, as `A`.
    pub fn row(&mut self) -> usize {
        let row = row_of(self.word());
        self.known(row)
    }

    /// A number that stands there, or 0.
    fn known(&mut self, number: Option<usize>) -> usize {
        match number {
            Some(number) => number,
            None => {
                self.are_well = false;
                0
            }
        }
    }
}

/// The number after a letter.
pub(crate) fn numbered(word: &str, letter: char) -> Option<usize> {
    word.strip_prefix(letter)?.parse::<usize>().ok()
}

/// The row of a letter.
pub fn row_of(word: &str) -> Option<usize> {
    match word.as_bytes() {
        [letter @ b'A'..=b'Z'] => Some((*letter - b'A') as usize),
        _ => None,
    }
}

/// What stands after a word in the first of these lines that begins with it; nothing where there is none.
pub fn line_of<'a>(lines: &'a [String], word: &str) -> &'a str {
    for line in lines {
        let (first, rest) = line.as_str().split_once(' ').unwrap_or(("", ""));
        if first == word {
            return rest;
        }
    }
    ""
}
