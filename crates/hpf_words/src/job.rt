//! From the words to the job.

ghost use Rattle.std.specs.Prelude.{◌≡◌, Some, None, map, string_bytes, IfOk, IfErr};
ghost use Rattle.std.specs.Prelude.{option_map, option_and_then, ◌∷◌, []};
ghost use Rattle.hpf_words.specs.Jobs.{action_of, grid_of, job_by, job_of, number_of, or_default};

use crate::texts::{Texts, texts_of};
use crate::values;
use hpf_base::Grid;
use std::alloc::Global;
use thiserror::Error;

/// What the program is asked to do.
#[derive(Debug, Clone, Copy, PartialEq, Eq)]
pub enum Action {
    /// Runs a program on the nodes, and prints what it prints.
    Run,
    /// Runs a program in one order, and prints what it prints.
    Serial,
    /// Says whether a text is accepted.
    Check,
    /// Prints the first mapping of every array.
    Map,
    /// Prints the messages between the nodes.
    Messages,
    /// Runs the program of bulk work, and reads no text.
    Bulk,
}

/// Why there is no job.
#[derive(Debug, Clone, Copy, PartialEq, Eq, Error)]
pub enum WordsError {
    /// The words are no job.
    #[error("no job")]
    Usage,
    /// A growth was refused.
    #[error("out of memory")]
    Memory,
}

/// What the words ask for: the action and, for it, the arrangement of the nodes, the number of threads, the size of the bulk
/// work, whether the last arrays are printed too, and the source form. What isn't given is at its default.
#[derive(Drop)]
pub struct Job {
    pub action: Action,
    pub grid: Grid,
    /// From 1 to 64.
    pub threads: u32,
    /// From 8 to 512.
    pub size: u32,
    pub arrays: bool,
    /// Whether the text is in the fixed source form.
    pub fixed: bool,
}

/// The job that the words are, in their order and without the program's own name. `Usage` comes only where they are no
/// job, and `Memory` where a growth was refused, for whatever words. It takes memory.
pub fn read_words(alloc: Global, words: &[String]) -> Result<Job, WordsError>
    ensures ok { IfOk result (λ job. job_of (map string_bytes words.now) ≡ Some job) }
    ensures err { IfErr result (λ e. e ≡ WordsError.Usage → job_of (map string_bytes words.now) ≡ None) }
{
    let texts = texts_of(alloc, words)?;
    job_of_texts(alloc, &texts)
}

/// The job that the texts are.
fn job_of_texts(alloc: Global, texts: &Texts<'_>) -> Result<Job, WordsError>
    ensures ok { IfOk result (λ job. job_by (option_map (λ s. s.now) texts.now.action) (option_map (λ s. s.now) texts.now.grid)
        (option_map (λ s. s.now) texts.now.threads) (option_map (λ s. s.now) texts.now.size)
        texts.now.arrays texts.now.fixed ≡ Some job) }
    ensures err { IfErr result (λ e. e ≡ WordsError.Usage → job_by (option_map (λ s. s.now) texts.now.action)
        (option_map (λ s. s.now) texts.now.grid) (option_map (λ s. s.now) texts.now.threads) (option_map (λ s. s.now) texts.now.size)
        texts.now.arrays texts.now.fixed ≡ None) }
{
    let Some(action) = action_in(texts.action) else {
        return Err(WordsError::Usage);
    };
    let Some(grid) = grid_in(alloc, texts.grid)? else {
        return Err(WordsError::Usage);
    };
    let Some(threads) = number_or(texts.threads, 2, 1, 64, grid.node_count()) else {
        return Err(WordsError::Usage);
    };
    let Some(size) = number_or(texts.size, 3, 8, 512, 64) else {
        return Err(WordsError::Usage);
    };
    if !values::is_allowed(
        action,
        texts.threads.is_some(),
        texts.size.is_some(),
        texts.arrays,
        texts.fixed,
    ) {
        return Err(WordsError::Usage);
    }
    Ok(Job {
        action,
        grid,
        threads,
        size,
        arrays: texts.arrays,
        fixed: texts.fixed,
    })
}

/// The action, where a word names one.
fn action_in(word: Option<&str>) -> Option<Action>
    ensures { result ≡ option_and_then action_of (option_map (λ s. s.now) word.entry) }
{
    match word {
        Some(word) => values::action(word),
        None => None,
    }
}

/// The grid of the text; one node where there is none.
fn grid_in(alloc: Global, text: Option<&str>) -> Result<Option<Grid>, WordsError>
    ensures ok { IfOk result (λ grid. grid ≡ or_default grid_of (1 ∷ []) (option_map (λ s. s.now) text.entry)) }
    ensures err { IfErr result (λ e. e ≡ WordsError.Memory) }
{
    match text {
        Some(text) => match values::grid(alloc, text) {
            Ok(grid) => Ok(grid),
            Err(_) => Err(WordsError::Memory),
        },
        None => Ok(values::one_node(alloc)),
    }
}

/// The number of the text, or else the default.
fn number_or(
    text: Option<&str>,
    digits: usize,
    least: u32,
    greatest: u32,
    default: u32,
) -> Option<u32>
    ensures { result ≡ or_default (number_of digits least greatest) default (option_map (λ s. s.now) text.entry) }
{
    match text {
        Some(text) => values::number(text, digits, least, greatest),
        None => Some(default),
    }
}
