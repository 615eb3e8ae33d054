//! From the input of a test program to what it prints.

use crate::case::Case;
use std::alloc::{AllocError, Global};
use std::io;
use std::io::{BufRead, BufReader};

/// What answers the cases of a test program.
pub trait Answers {
    /// The answer to a case, in lines; none to a remark.
    fn answer_to(&self, alloc: Global, case: &Case) -> Result<String, AllocError>;
}

/// Prints the lines of standard input, and after each case its answer. A line that begins with a bar goes on with the text of the line
/// before; any other begins a case or is a remark.
pub fn print_answers(
    rt: &(impl Print + Input + AllocGlobal),
    answers: &impl Answers,
) -> io::Result<()> {
    let alloc = rt.alloc();
    let mut open: Option<Case> = None;
    for line in BufReader::new(alloc, rt.reader())?.lines(alloc) {
        let line = line?;
        if line.as_str().starts_with('|') {
            if let Some(case) = &mut open {
                case.go_on(line.as_str())?;
            }
        } else {
            print_answer(rt, answers, open.take())?;
            open = Some(Case::begin(alloc, line.as_str())?);
        }
        println!(rt; "{line}")?;
    }
    print_answer(rt, answers, open)
}

/// Prints the answer to a case.
fn print_answer(
    rt: &(impl Print + AllocGlobal),
    answers: &impl Answers,
    case: Option<Case>,
) -> io::Result<()> {
    if let Some(case) = case {
        print!(rt; "{}", answers.answer_to(rt.alloc(), &case)?)?;
    }
    Ok(())
}
