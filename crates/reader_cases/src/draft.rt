//! Texts in the fixed source form made by numbers.

ghost use Rattle.std.specs.Prelude.{◌<◌};

use case_texts::{Numbers, spoil};
use std::alloc::{AllocError, Global};

/// A statement that may stand after declarations, by a number.
fn statement_of(number: u64) -> &'static str {
    match number % 28 {
        0 => "S = S + I",
        1 => "A(I) = S",
        2 => "a = b + 1; b = A",
        3 => "PRINT *, 'it''s & ; ! so', S",
        4 => "PRINT *, \"C' !\", A",
        5 => "IF (I > 2) S = S / (I - 3)",
        6 => "FORALL (I=1:4, A(I) > 1) B(I) = A(I) / S",
        7 => "WHERE (A > 2) B = A",
        8 => "DO I = 1, 3; S = S + I; END DO",
        9 => ";S = 1;;",
        10 => "A(1:4) = B ! it's & so; on",
        11 => "PRINT *, 'S'",
        12 => "IF (S == 0) THEN; S = 7; ELSE; A = A / S; END IF",
        13 => "",
        14 => "\tS\t=\t1\t",
        15 => "DO I = 1, 2",
        16 => "END DO",
        17 => "S = SUM(A) &",
        18 => "A = #",
        19 => "A = 1 2",
        20 => "PRINT *, '",
        21 => "PRINT *, MAXVAL(A), \"S\"",
        22 => "B(2:4) = A(1:3) * 2",
        _ => "A = 1",
    }
}

/// A directive, by a number.
fn directive_of(number: u64) -> &'static str {
    match number % 12 {
        0 => "REDISTRIBUTE A(CYCLIC)",
        1 => "REDISTRIBUTE (BLOCK) :: A, B ! it's & so; on",
        2 => "redistribute b(cyclic(3))",
        3 => "DISTRIBUTE A(BLOCK)",
        4 => "",
        5 => "REDISTRIBUTE A(BLOCK) ;",
        6 => "REDISTRIBUTE A(BLOCK) &",
        7 => "REDISTRIBUTE(BLOCK)::AAAA,BBBB,CCCC,DDDD,EEEE,FFFF,GGGG,HHHH,IIIII",
        8 => "REDISTRIBUTE 'A'",
        _ => "REDISTRIBUTE B(BLOCK)",
    }
}

/// Columns 1 to 5 of a directive line, by a number.
fn margin_of(number: u64) -> &'static str {
    match number % 6 {
        0 => "!HPF$",
        1 => "!hpf$",
        2 => "chpf$",
        3 => "*HPF$",
        4 => "*hPf$",
        _ => "CHPF$",
    }
}

/// Column 6 of a line that continues another, by a number.
fn mark_of(number: u64) -> &'static str {
    match number % 64 {
        0 => "\t",
        1 => "\u{1}",
        2 => "\u{e9}",
        3..=8 => "&",
        9..=14 => "!",
        15..=20 => ";",
        21..=26 => "'",
        27..=30 => "\"",
        31..=36 => "9",
        37..=40 => "C",
        41..=44 => "*",
        _ => "1",
    }
}

/// A line that is passed over, by a number.
fn passed_of(number: u64) -> &'static str {
    match number % 16 {
        0 => "",
        1 => "   ",
        2 => "\t",
        3 => "C it's & so; on",
        4 => "chello & '",
        5 => "* \u{e9}\u{1}",
        6 => "! A = 1",
        7 => "    ! A = 1",
        8 => "      ! A = 1",
        9 => "\t! A = 1",
        10 => " !HPF$ DYNAMIC A",
        11 => "!HPF DYNAMIC A",
        12 => "C    1+ 2",
        13 => "     0",
        14 => "                                                                        it's & so",
        _ => "C",
    }
}

/// A line that may break a rule, by a number.
fn rough_of(number: u64) -> &'static str {
    match number % 32 {
        0 => "\tA = 1",
        1 => "     \tA = 1",
        2 => "10    CONTINUE",
        3 => "    1 CONTINUE",
        4 => "   A = 1",
        5 => "!HPF$\tREDISTRIBUTE A(BLOCK)",
        6 => "!HPF$",
        7 => "!HPF$1",
        8 => "     1",
        9 => "     ! A = 1",
        10 => "CHPF$1, B",
        11 => "      A = 'x",
        12 => "      A = 1 &",
        13 => "      PRINT *, '&'",
        14 => "      A = \u{e9}",
        15 => "      PRINT *, '\u{e9}'",
        16 => "      PRINT *, '\u{1}'",
        17 => "      A\r= 1",
        18 => "     \u{e9}A = 1",
        19 => "     1+ 1",
        20 => "     &'x'",
        21 => "END",
        22 => "      EN",
        23 => "     1D",
        24 => "!HPF$ REDISTRIBUTE A(BLOCK); B = 1",
        25 => "      &",
        26 => "     0S = 1",
        27 => "CHPF$ REDISTRIBUTE A",
        28 => "CHPF$2(BLOCK)",
        29 => "                                                                   A = 1 + 2",
        30 =>
            "C\t                                                                                                                                  C",
        _ => "     2",
    }
}

/// A text in the making: the numbers that it is made of, the place where its last line begins, and what ends its lines.
#[derive(Drop)]
struct Draft {
    text: Vec<u8>,
    numbers: Numbers,
    start: usize,
    end: &'static str,
}

impl Draft {
    /// The text of a number, of which nothing is written.
    fn new(alloc: Global, number: u64) -> Draft {
        Draft {
            text: Vec::new(alloc),
            numbers: Numbers::of(number),
            start: 0,
            end: if number % 5 == 4 { "\r\n" } else { "\n" },
        }
    }

    /// Whether something is so that is so one time in so many.
    fn is_one_in(&mut self, count: u64) -> bool
        requires { 0 < count }
    {
        self.numbers.next() % count == 0
    }

    /// Goes on with the line.
    fn write(&mut self, bytes: &str) -> Result<(), AllocError> {
        self.text.extend_from_slice(bytes.as_bytes())?;
        Ok(())
    }

    /// Goes on with blanks until the line has so many bytes.
    fn fill(&mut self, count: usize) -> Result<(), AllocError> {
        let written = self.text.len().saturating_sub(self.start);
        for _ in written..count {
            self.text.push(b' ')?;
        }
        Ok(())
    }

    /// Ends the line.
    fn end_line(&mut self) -> Result<(), AllocError> {
        self.write(self.end)?;
        self.start = self.text.len();
        Ok(())
    }

    /// Ends the line, mostly with nothing between what it says and its end.
    fn leave_line(&mut self) -> Result<(), AllocError> {
        match self.numbers.next() % 40 {
            0 => self.write(" ! it's & so; on")?,
            1 => {
                self.fill(72)?;
                self.write("it's & so; \u{1}\u{e9}")?;
            }
            2 => {
                self.fill(72)?;
                self.write("12345678")?;
            }
            3 => {
                self.fill(71)?;
                self.write("! it's")?;
            }
            4 => self.fill(132)?,
            5 => self.fill(133)?,
            6 => self.write("\t ")?,
            7 => {
                self.fill(72)?;
                self.write("\r")?;
            }
            _ => {}
        }
        self.end_line()
    }

    /// A line that is passed over.
    fn pass_line(&mut self) -> Result<(), AllocError> {
        let number = self.numbers.next();
        self.write(passed_of(number))?;
        self.end_line()
    }

    /// Goes on with what the line says on a line that continues it, with this margin. Lines that are passed over stand between more often
    /// where they may.
    fn continue_line(&mut self, margin: &str) -> Result<(), AllocError> {
        self.leave_line()?;
        let may_pass = margin.starts_with(' ');
        if may_pass && self.is_one_in(4) || self.is_one_in(40) {
            self.pass_line()?;
        }
        let mark = self.numbers.next();
        self.write(margin)?;
        self.write(mark_of(mark))
    }

    /// A statement or a directive with this margin, from column 7 on, cut where numbers say.
    fn write_cut(&mut self, margin: &str, content: &str) -> Result<(), AllocError> {
        self.write(margin)?;
        let mark = if self.is_one_in(4) { "0" } else { " " };
        self.write(mark)?;
        if self.is_one_in(8) {
            self.continue_line(margin)?;
        }
        if self.is_one_in(8) {
            let column = self.numbers.next() % 5;
            self.fill(70usize.saturating_sub(content.len()) + column as usize)?;
        }
        for byte in content.as_bytes() {
            if self.is_cut(*byte) {
                self.continue_line(margin)?;
            }
            self.text.push(*byte)?;
        }
        if self.is_one_in(12) {
            self.continue_line(margin)?;
        }
        self.leave_line()
    }

    /// Whether the line is cut before a byte.
    fn is_cut(&mut self, byte: u8) -> bool {
        if byte == b' ' {
            self.is_one_in(10)
        } else {
            self.is_one_in(200)
        }
    }

    /// A statement with about as many lines that continue it as are allowed.
    fn write_long(&mut self) -> Result<(), AllocError> {
        self.write("      A = 1")?;
        let count = 18 + self.numbers.next() % 3;
        for _ in 0..count {
            self.continue_line("     ")?;
            self.write("+ 1")?;
        }
        self.leave_line()
    }

    /// Lines of one kind, which may break a rule where the text is a rough one.
    fn write_lines(&mut self, rough: bool) -> Result<(), AllocError> {
        let kind = self.numbers.next() % 16;
        let number = self.numbers.next();
        match kind {
            0..=2 => self.pass_line(),
            3..=5 => {
                let margin = self.numbers.next();
                self.write_cut(margin_of(margin), directive_of(number))
            }
            6 => {
                if self.is_one_in(4) {
                    self.write_long()
                } else {
                    self.write_cut("     ", statement_of(number))
                }
            }
            7..=9 if rough => {
                self.write(rough_of(number))?;
                self.leave_line()
            }
            _ => self.write_cut("     ", statement_of(number)),
        }
    }
}

/// The text of a number in the fixed form, with END at its end. Where four divides the number each line may break a rule, and elsewhere few do.
/// In every fourth text one byte is changed, and in some the last line has no end.
pub fn made(alloc: Global, number: u64) -> Result<Vec<u8>, AllocError> {
    let mut draft = Draft::new(alloc, number);
    let rough = number % 4 == 0;
    if !rough {
        draft.write_cut("     ", "INTEGER A(4), B(4), I, S")?;
        draft.write_cut("CHPF$", "DISTRIBUTE A(BLOCK)")?;
        draft.write_cut("!HPF$", "DYNAMIC B")?;
    }
    let count = draft.numbers.next() % 8;
    for _ in 0..count {
        draft.write_lines(rough)?;
    }
    draft.write("      END")?;
    if !draft.is_one_in(4) {
        draft.end_line()?;
    }
    if number % 4 == 1 {
        let (place, byte) = (draft.numbers.next(), draft.numbers.next());
        spoil(&mut draft.text, place, byte);
    }
    Ok(draft.text)
}
