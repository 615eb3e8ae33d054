//! The program `hpf`: its words, the standard streams, and the top call.
//!
//! Comes in: the words of the command line and standard input. Goes out: standard output, standard error and the
//! exit status, all by `hpf_run`'s top call.
//!
//! *Proved:* The program is safe. That it ends isn't proved of `hpf run` and `hpf bulk`, which wait for threads.
#![tactic(auto)]

use hpf_base::Status;
use hpf_ports::{OpenGate, StdSink, StdSource};
use hpf_run::hpf_top;
use std::alloc::Global;
use std::io::ErrorKind;
use std::process::ExitCode;
use std::rt::Env;
use std::{env, io};

/// The words after the program's own name.
fn words(rt: &(impl Env + AllocGlobal), alloc: Global) -> io::Result<Vec<String>> {
    let words = env::args(rt)?.skip(1).collect(alloc)?;
    Ok(words)
}

/// Words that can't be had as texts are no command, and are answered as no words are.
fn main(rt: HostRuntime) -> ExitCode {
    let alloc = rt.alloc();
    let words = match words(&rt, alloc) {
        Ok(words) => words,
        Err(error) if error.kind() == ErrorKind::OutOfMemory => {
            return ExitCode::from(Status::Memory.exit_code());
        }
        Err(_) => Vec::new(alloc),
    };
    let mut src = StdSource::new(rt.stdin());
    let mut out = StdSink::new(rt.stdout());
    let mut err = StdSink::new(rt.stderr());
    let answer = hpf_top(&rt, alloc, &words, &mut src, &mut out, &mut err, &OpenGate);
    ExitCode::from(answer.into_status().exit_code())
}
