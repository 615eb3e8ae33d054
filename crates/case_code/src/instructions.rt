//! Instructions, as cases write them, each after its place. L is a line of the text, P a place in the code, X an expression over slots, F an
//! array expression, R a row, (..) subscripts.
//!
//! - `set L s1 = X`, `fetch L s1 = R (..)`, `store L R (..) = X`, `bounds L R (..)`, `stride L s1`, `jump P`, `unless s1 jump P`, `halt`
//! - `trips L s1 s2 s3 left s4 else P`: the slots of the first value, the last value and the step
//! - `limits`, `par` and `forall`: `L R (..) = F over (..)`, and after it `where R` or `unless R` for a mask
//! - `nest`: `L ROLE LEFT = F over (..)`, where `assigns`, `tests`, `else` or `mark` is the role, and `R (..)` or the copy `R` what is assigned; after
//!   it `reads ( R .. )` for the copies whose values are the axes after those of the indices, and any number of `where R` and `unless R`
//! - `makecopies R = X over (..)`: copies of a nest, one for each of its iterations
//! - `ownlimits`, `parcopy`, `forallcopy` and `makecopy`: `L R = F over (..)`, for the copy R
//! - `reduce L s1 = sum F over (..)`, `foralllimits L over (..) of (..)`, `onetoone L over (..) of (..)`, `verdict`, `inside L R (..)`
//! - `print` and items: `text WORD`, `number X`, `section R (..)`
//! - `foldcopy s1 sum R`, also with `max`, `min`, `iand`, `ior` or `ieor`, `lastcopy s1 R set R`, and `scancopy sum R`
//! - `remap`: what the next REDISTRIBUTE of the text says
//!
//! Where an array expression, a copy or a mask stands, `beside R ( .. )` may follow at the end, as `anchors` says.

use crate::anchors::read_beside;
use crate::expressions::{read_flat, read_flats, read_form, read_subs};
use crate::nests::{read_copies, read_nest};
use crate::words::Words;
use node_code::{Assignment, Evaluation, Instruction, NewMapping, PrintItem, When};
use op_tables::{Join, Made, Reduction};
use std::alloc::Global;
use std::collections::VecDeque;

/// The code of a case: the instructions of the lines that begin with a number. REDISTRIBUTE comes to these moves, one after the other.
pub fn read_code(
    alloc: Global,
    case: &[String],
    moves: &mut VecDeque<Vec<NewMapping>>,
) -> Option<Vec<Instruction>> {
    let mut code = Vec::new(alloc);
    for line in case {
        let mut words = Words::new(line.as_str());
        if words.word().parse::<usize>().is_ok() {
            code.push(read_instruction(alloc, &mut words, moves)).ok()?;
            if !words.are_well {
                return None;
            }
        }
    }
    Some(code)
}

/// The instruction of a line. `remap` has the first of these moves.
fn read_instruction(
    alloc: Global,
    words: &mut Words<'_>,
    moves: &mut VecDeque<Vec<NewMapping>>,
) -> Instruction {
    match words.word() {
        "remap" => read_remap(alloc, words, moves),
        "print" => Instruction::Print(read_items(alloc, words)),
        "halt" => Instruction::Halt,
        "verdict" => Instruction::Verdict,
        "jump" => Instruction::Jump {
            target: words.number(),
        },
        "unless" => read_unless(words),
        "foldcopy" => Instruction::FoldCopy {
            slot: words.slot(),
            join: read_join(words).0,
            copy: words.row(),
        },
        "lastcopy" => read_last(words),
        "scancopy" => Instruction::ScanCopy {
            join: read_join(words).0,
            copy: words.row(),
        },
        "makecopies" => read_copies(alloc, words),
        word => read_with_line(alloc, word, words),
    }
}

fn read_remap(
    alloc: Global,
    words: &mut Words<'_>,
    moves: &mut VecDeque<Vec<NewMapping>>,
) -> Instruction {
    let new = match moves.pop_front() {
        Some(new) => new,
        None => {
            words.are_well = false;
            Vec::new(alloc)
        }
    };
    Instruction::Remap { line: 0, new }
}

fn read_unless(words: &mut Words<'_>) -> Instruction {
    let slot = words.slot();
    words.skip("jump");
    Instruction::JumpIfZero {
        target: words.number(),
        slot,
    }
}

fn read_last(words: &mut Words<'_>) -> Instruction {
    let slot = words.slot();
    let copy = words.row();
    words.skip("set");
    Instruction::LastCopy {
        copy,
        set: words.row(),
        slot,
    }
}

/// Takes what joins numbers, by the name of a reduction or of an operator of REDUCTION, and what is made of each element.
fn read_join(words: &mut Words<'_>) -> (Join, Made) {
    match words.word() {
        "sum" => (Join::Sum, Made::Value),
        "count" => (Join::Sum, Made::Truth),
        "product" => (Join::Product, Made::Value),
        "maxval" | "max" => (Join::Greatest, Made::Value),
        "minval" | "min" => (Join::Least, Made::Value),
        "iand" => (Join::And, Made::Value),
        "ior" => (Join::Or, Made::Value),
        "ieor" => (Join::ExclusiveOr, Made::Value),
        "any" => (Join::Any, Made::Truth),
        "all" => (Join::All, Made::Truth),
        _ => {
            words.are_well = false;
            (Join::Sum, Made::Value)
        }
    }
}

fn read_items(alloc: Global, words: &mut Words<'_>) -> Vec<PrintItem> {
    let mut items = Vec::new(alloc);
    for _ in 0..16 {
        if words.front().is_empty() {
            break;
        }
        if items.push(read_item(alloc, words)).is_err() {
            words.are_well = false;
        }
    }
    words.skip("");
    items
}

fn read_item(alloc: Global, words: &mut Words<'_>) -> PrintItem {
    match words.word() {
        "text" => PrintItem::Bytes(read_bytes(alloc, words)),
        "number" => PrintItem::Number(read_flat(alloc, words)),
        word => {
            words.are_well = words.are_well && word == "section";
            PrintItem::Section(words.row(), read_subs(alloc, words))
        }
    }
}

fn read_bytes(alloc: Global, words: &mut Words<'_>) -> Vec<u8> {
    match Vec::from_slice(alloc, words.word().as_bytes()) {
        Ok(bytes) => bytes,
        Err(_) => {
            words.are_well = false;
            Vec::new(alloc)
        }
    }
}

/// The instruction of a word after which a line of the text stands.
fn read_with_line(alloc: Global, word: &str, words: &mut Words<'_>) -> Instruction {
    let line = words.line();
    match word {
        "set" => read_set(alloc, line, words),
        "fetch" => read_fetch(alloc, line, words),
        "store" => read_store(alloc, line, words),
        "bounds" => Instruction::TestBounds {
            line,
            array: words.row(),
            subscripts: read_flats(alloc, words),
        },
        "stride" => Instruction::TestStride {
            line,
            slot: words.slot(),
        },
        "trips" => read_trips(line, words),
        "inside" => Instruction::Inside {
            line,
            array: words.row(),
            subscripts: read_subs(alloc, words),
        },
        _ => read_parallel(alloc, word, line, words),
    }
}

fn read_set(alloc: Global, line: u32, words: &mut Words<'_>) -> Instruction {
    let slot = words.slot();
    words.skip("=");
    Instruction::Set {
        line,
        slot,
        value: read_flat(alloc, words),
    }
}

fn read_fetch(alloc: Global, line: u32, words: &mut Words<'_>) -> Instruction {
    let slot = words.slot();
    words.skip("=");
    Instruction::Fetch {
        line,
        array: words.row(),
        subscripts: read_flats(alloc, words),
        slot,
    }
}

fn read_store(alloc: Global, line: u32, words: &mut Words<'_>) -> Instruction {
    let array = words.row();
    let subscripts = read_flats(alloc, words);
    words.skip("=");
    Instruction::Store {
        line,
        array,
        subscripts,
        value: read_flat(alloc, words),
    }
}

fn read_trips(line: u32, words: &mut Words<'_>) -> Instruction {
    let first = words.slot();
    let last = words.slot();
    let step = words.slot();
    words.skip("left");
    let left = words.slot();
    words.skip("else");
    Instruction::Trips {
        line,
        first,
        last,
        step,
        left,
        target: words.number(),
    }
}

/// The instruction of a word that speaks of a space.
fn read_parallel(alloc: Global, word: &str, line: u32, words: &mut Words<'_>) -> Instruction {
    match word {
        "limits" => Instruction::Limits(read_assignment(alloc, line, words)),
        "par" => Instruction::Par(read_assignment(alloc, line, words)),
        "forall" => Instruction::ParForall(read_assignment(alloc, line, words)),
        "nest" => Instruction::ParNest(read_nest(alloc, line, words)),
        "reduce" => read_reduce(alloc, line, words),
        "foralllimits" => Instruction::ForallLimits {
            line,
            over: read_over(alloc, words),
            subscripts: read_of(alloc, words),
        },
        "onetoone" => Instruction::OneToOne {
            line,
            over: read_over(alloc, words),
            left: read_of(alloc, words),
        },
        _ => read_of_copy(alloc, word, line, words),
    }
}

/// The instruction of a word after whose line a copy and an array expression stand.
fn read_of_copy(alloc: Global, word: &str, line: u32, words: &mut Words<'_>) -> Instruction {
    let copy = words.row();
    words.skip("=");
    let evaluation = read_evaluation(alloc, line, words);
    match word {
        "ownlimits" => Instruction::OwnLimits(evaluation),
        "makecopy" => Instruction::MakeCopy { copy, evaluation },
        "parcopy" => Instruction::ParCopy { copy, evaluation },
        _ => {
            words.are_well = words.are_well && word == "forallcopy";
            Instruction::ParForallCopy { copy, evaluation }
        }
    }
}

/// Takes the subscripts of a space.
pub(crate) fn read_over(alloc: Global, words: &mut Words<'_>) -> Vec<node_code::Sub> {
    words.skip("over");
    read_subs(alloc, words)
}

fn read_of(alloc: Global, words: &mut Words<'_>) -> Vec<node_code::Flat> {
    words.skip("of");
    read_flats(alloc, words)
}

fn read_assignment(alloc: Global, line: u32, words: &mut Words<'_>) -> Assignment {
    let array = words.row();
    let left = read_subs(alloc, words);
    words.skip("=");
    Assignment {
        line,
        array,
        left,
        right: read_form(alloc, words),
        over: read_over(alloc, words),
        mask: read_mask(words),
        beside: read_beside(alloc, words),
    }
}

/// Takes a mask, if one stands there.
pub(crate) fn read_mask(words: &mut Words<'_>) -> Option<When> {
    let value = words.front() == "where";
    if !value && words.front() != "unless" {
        return None;
    }
    let _mask = words.word();
    Some(When {
        copy: words.row(),
        value,
    })
}

fn read_evaluation(alloc: Global, line: u32, words: &mut Words<'_>) -> Evaluation {
    Evaluation {
        line,
        form: read_form(alloc, words),
        over: read_over(alloc, words),
        beside: read_beside(alloc, words),
    }
}

fn read_reduce(alloc: Global, line: u32, words: &mut Words<'_>) -> Instruction {
    let slot = words.slot();
    words.skip("=");
    let (join, made) = read_join(words);
    Instruction::Reduce {
        evaluation: read_evaluation(alloc, line, words),
        reduction: Reduction { join, made },
        slot,
    }
}
