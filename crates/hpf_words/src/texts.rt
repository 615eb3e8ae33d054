//! The texts that the words give, as `clap` finds them.

ghost use Rattle.std.specs.Prelude.{◌≡◌, Some, None, map, string_bytes, option_map, codes, true, false, IfOk, IfErr, ◌↔◌};
ghost use Rattle.clap.specs.Words.{app_of, rule_of};
ghost use Rattle.hpf_words.specs.Jobs.{job_by, job_of};
ghost use Rattle.hpf_words.specs.Command.{flag_rule, hpf_app, value_rule};

use crate::job::WordsError;
use clap::error::ErrorKind;
use clap::{Arg, ArgAction, Command};
use std::alloc::{AllocError, Global};

/// The text of each thing that is given.
#[derive(Drop)]
pub(crate) struct Texts<'a> {
    pub action: Option<&'a str>,
    pub grid: Option<&'a str>,
    pub threads: Option<&'a str>,
    pub size: Option<&'a str>,
    pub arrays: bool,
    pub fixed: bool,
}

/// An option that takes one value.
fn option<'a>(alloc: Global, name: &'a str) -> Arg<'a>
    ensures rule { rule_of result ≡ value_rule name.entry.now }
    ensures local { result.global ≡ false }
{
    Arg::new(alloc, name).long(name).action(ArgAction::Set)
}

/// An option that takes no value.
fn flag<'a>(alloc: Global, name: &'a str) -> Arg<'a>
    ensures rule { rule_of result ≡ flag_rule name.entry.now }
    ensures local { result.global ≡ false }
{
    Arg::new(alloc, name).long(name).action(ArgAction::SetTrue)
}

/// The command line, as `clap` reads it.
fn command<'a>(alloc: Global) -> Result<Command<'a>, AllocError>
    ensures { IfOk result (λ c. app_of c ≡ hpf_app) }
{
    Command::new(alloc, "hpf")
        .no_binary_name(true)
        .disable_help_flag(true)
        .arg(option(alloc, "grid"))?
        .arg(option(alloc, "threads"))?
        .arg(option(alloc, "size"))?
        .arg(flag(alloc, "arrays"))?
        .arg(flag(alloc, "fixed"))?
        .arg(Arg::new(alloc, "action"))
}

/// The texts that the words give. Usage comes only where the words are no job; where it doesn't, the words are the
/// job that the texts are, if any.
pub(crate) fn texts_of<'a>(alloc: Global, words: &'a [String]) -> Result<Texts<'a>, WordsError>
    ensures ok { IfOk result (λ t. job_of (map string_bytes words.entry.now) ≡ job_by (option_map (λ s. s.now) t.action)
        (option_map (λ s. s.now) t.grid) (option_map (λ s. s.now) t.threads) (option_map (λ s. s.now) t.size) t.arrays t.fixed) }
    ensures err { IfErr result (λ e. e ≡ WordsError.Usage → job_of (map string_bytes words.entry.now) ≡ None) }
{
    let command = match command(alloc) {
        Ok(command) => command,
        Err(_) => return Err(WordsError::Memory),
    };
    let matches = match command.try_get_matches_from(words) {
        Ok(matches) => matches,
        Err(error) => return Err(error_of(error.kind())),
    };
    Ok(Texts {
        action: matches.get_str("action"),
        grid: matches.get_str("grid"),
        threads: matches.get_str("threads"),
        size: matches.get_str("size"),
        arrays: matches.get_flag("arrays"),
        fixed: matches.get_flag("fixed"),
    })
}

/// Want of memory is told from every other fault of a parse.
fn error_of(kind: ErrorKind) -> WordsError
    ensures { kind ≡ ErrorKind.OutOfMemory ↔ (result ≡ WordsError.Memory) }
{
    match kind {
        ErrorKind::OutOfMemory => WordsError::Memory,
        _ => WordsError::Usage,
    }
}
