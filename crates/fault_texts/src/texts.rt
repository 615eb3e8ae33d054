//! Texts that are made by numbers.

use case_texts::{Numbers, spoil};
use std::alloc::{AllocError, Global};

/// A line of a program, by a number.
fn line_of(number: u64) -> &'static str {
    match number % 20 {
        0 => "S = S + I\n",
        1 => "I = I + 1\n",
        2 => "A(I) = S\n",
        3 => "A = B + 1\n",
        4 => "B(2:4) = A(1:3) * 2\n",
        5 => "S = SUM(A)\n",
        6 => "PRINT *, S, I\n",
        7 => "PRINT *, A\n",
        8 => "IF (I > 2) S = S / (I - 3)\n",
        9 => "FORALL (I=1:4, A(I) > 1) B(I) = A(I) / S\n",
        10 => "WHERE (A > 2) B = A\n",
        11 => "DO I = 1, 3\n",
        12 => "END DO\n",
        13 => "S = A(I + 1)\n",
        14 => "A(1:S) = B\n",
        15 => "!HPF$ REDISTRIBUTE B(CYCLIC)\n",
        16 => "PRINT *, MAXVAL(A), 'S', S\n",
        17 => "A(4:1:-1) = B\n",
        18 => "DO I = 1, 2\n!HPF$ INDEPENDENT\nDO S = 1, 4\nB(S) = A(S) - I\nEND DO\nEND DO\n",
        _ => "IF (S == 0) THEN\nS = 7\nELSE\nA = A / S\nEND IF\n",
    }
}

/// A word, a sign or a byte without sense, by a number.
fn word_of(number: u64) -> &'static str {
    match number % 24 {
        0 => "INTEGER",
        1 => " :: ",
        2 => "A",
        3 => "(",
        4 => ")",
        5 => ",",
        6 => "\n",
        7 => "!HPF$ ",
        8 => "DISTRIBUTE ",
        9 => "BLOCK",
        10 => "CYCLIC(3)",
        11 => "END",
        12 => "DO ",
        13 => "IF ",
        14 => " = ",
        15 => "9223372036854775807",
        16 => "'",
        17 => "&\n",
        18 => "*",
        19 => "**",
        20 => ";",
        21 => "\t",
        22 => "\u{1}",
        _ => "\u{e9}",
    }
}

/// The text of a number, with END at its end: words in no order where four divides the number, and else lines that may stand in a program. In every
/// fourth text one byte is changed.
pub fn text_of_number(alloc: Global, text: u64) -> Result<Vec<u8>, AllocError> {
    let mut numbers = Numbers::of(text);
    let mut made = Vec::new(alloc);
    let of_lines = text % 4 != 0;
    if of_lines {
        made.extend_from_slice(
            b"INTEGER :: A(4) = 3, B(4), I, S\n!HPF$ DISTRIBUTE A(BLOCK)\n!HPF$ DYNAMIC B\n",
        )?;
    }
    let count = numbers.next() % 12;
    for _ in 0..count {
        let number = numbers.next();
        let piece = if of_lines {
            line_of(number)
        } else {
            word_of(number)
        };
        made.extend_from_slice(piece.as_bytes())?;
    }
    made.extend_from_slice(b"END\n")?;
    if text % 4 == 1 {
        spoil(&mut made, numbers.next(), numbers.next());
    }
    Ok(made)
}
