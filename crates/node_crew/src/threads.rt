//! Crews in threads of their own.

ghost use Rattle.std.specs.Prelude.{◌≡◌, ◌<◌, ◌≤◌, ◌+◌, ◌^◌, [], ◌∷◌, ◌++◌, IfOk, IfErr, length, vec_capacity};

use crate::crews::{Crew, Turn, joined};
use hpf_base::OutOfMemory;
use hpf_ports::Gate;
use std::alloc::Global;
use std::marker::Model;
use std::snapshot::Snapshot;
use std::sync::Wait;
use std::sync::atomic::{AtomicU64, Ordering};
use std::thread;
use std::thread::{Promise, PromisedHandle, Scope, Threads};

/// The promise that a thread gives back the stations of its crew, in order.
#[derive(Drop)]
pub(crate) struct SameStations(Snapshot<Crew>);

impl Promise<Crew> for SameStations {
    ghost use Rattle.std.specs.Prelude.{◌≡◌};

    ghost kept_by = { λ p r. r ≡ p.0.value };
}

/// A crew in a thread of its own. Contracts see it as the crew.
#[derive(Drop)]
pub(crate) struct Started {
    child: PromisedHandle<Crew, SameStations>,
}

impl Model for Started {
    ghost use Rattle.std.specs.Prelude.{List};
    ghost use Rattle.array_meaning.specs.Faults.{Fault};
    ghost use Rattle.machine_steps.specs.Node.{Node as NodeState};
    ghost use Rattle.code_meaning.specs.ProgramText.{Text};
    ghost use Rattle.sendable_nodes.specs.contracts.Node as n;
    ghost use Rattle.std.specs.Coded.{codes};
    ghost use Rattle.stations.specs.Stations.{Fixed};

    ghost Value = { List (Fixed (NodeState Text Fault)) };

    ghost coded = { Prim.hlevel (codes, n.the_row.coded) };

    ghost view = { λ s. s.child.promise.0.value };
}

// Starts a thread for the crew. Where the system refuses it, the crew comes back: the thread's work comes back unbegun, and done here it ends at once, since
// `recall` is set before.
fn start<'s, E, R: Threads + Wait + Sync, G: Gate>(
    scope: &Scope<'s, E>,
    rt: &'s R,
    gate: &'s G,
    crew: Crew,
    halt: &'s AtomicU64,
    recall: &'s AtomicU64,
) -> Result<Started, Crew>
    ensures started { IfOk result (λ s. s ≡ crew) }
    ensures refused { IfErr result (λ c. c ≡ crew) }
{
    let promise = SameStations(Snapshot::of(&crew));
    match scope.spawn_with(promise, move || crew.run(rt, gate, halt, recall)) {
        Ok(child) => Ok(Started { child }),
        Err(refused) => {
            recall.store(1, Ordering::SeqCst);
            Err((refused.value)())
        }
    }
}

// Starts a thread for the crew, or puts the crew after those that the caller runs, once there are any.
fn start_or_keep<'s, E, R: Threads + Wait + Sync, G: Gate>(
    scope: &Scope<'s, E>,
    rt: &'s R,
    gate: &'s G,
    crew: Crew,
    halt: &'s AtomicU64,
    recall: Option<&'s AtomicU64>,
    started: &mut Vec<Started>,
    here: &mut Vec<Crew>,
)
    requires room { (length started.old.items < vec_capacity started.old) × (length here.old.items < vec_capacity here.old) }
    ensures crews { started.new.items ++ here.new.items ≡ (started.old.items ++ here.old.items) ++ crew ∷ [] }
    ensures room { (vec_capacity started.new ≡ vec_capacity started.old) × (vec_capacity here.new ≡ vec_capacity here.old) }
{
    match recall {
        Some(recall) if here.is_empty() => match start(scope, rt, gate, crew, halt, recall) {
            Ok(child) => started.push_reserved(child),
            Err(crew) => here.push_reserved(crew),
        },
        _ => here.push_reserved(crew),
    }
}

// Starts threads for the crews in order, until one is refused: those that have a thread, and the others.
fn start_all<'s, E, R: Threads + Wait + Sync, G: Gate>(
    scope: &Scope<'s, E>,
    rt: &'s R,
    gate: &'s G,
    crews: Vec<Crew>,
    mut started: Vec<Started>,
    mut here: Vec<Crew>,
    halt: &'s AtomicU64,
    recalls: &'s [AtomicU64],
) -> (Vec<Started>, Vec<Crew>)
    requires empty { (started.items ≡ []) × (here.items ≡ []) }
    requires room { (length crews.items ≤ vec_capacity started) × (length crews.items + 1 ≤ vec_capacity here) }
    ensures crews { result.0.items ++ result.1.items ≡ crews.items }
    ensures room { length crews.items + 1 ≤ vec_capacity result.1 }
{
    let mut recalls = recalls.iter();
    for crew in crews {
        start_or_keep(
            scope,
            rt,
            gate,
            crew,
            halt,
            recalls.next(),
            &mut started,
            &mut here,
        );
    }
    (started, here)
}

// One step of each station of the crews that the caller runs.
fn step_here<R: Wait, G: Gate>(rt: &R, gate: &G, here: &mut Vec<Crew>, halt: &AtomicU64) -> Turn
    ensures { here.new.items ≡ here.old.items }
{
    let mut turn = Turn::Over;
    for crew in here.iter_mut() {
        turn = joined(turn, crew.step_all(rt, gate, halt));
    }
    turn
}

// The crews that the caller runs, after their work: all their stations have ended, or `halt` was set.
fn run_here<R: Wait, G: Gate>(rt: &R, gate: &G, mut here: Vec<Crew>, halt: &AtomicU64) -> Vec<Crew>
    ensures { result.items ≡ here.items }
{
    for _ in rt.forever() {
        if halt.load(Ordering::SeqCst) != 0 {
            break;
        }
        match step_here(rt, gate, &mut here, halt) {
            Turn::Over => break,
            Turn::Moved => {}
            Turn::Still => thread::yield_now(),
        }
    }
    here
}

// Joins the threads, in order, and puts the crews that the caller ran after theirs.
fn finish_all<R: Threads>(
    rt: &R,
    started: Vec<Started>,
    here: Vec<Crew>,
    mut done: Vec<Crew>,
) -> Vec<Crew>
    requires empty { done.items ≡ [] }
    requires room { length started.items + length here.items ≤ vec_capacity done }
    ensures { result.items ≡ started.items ++ here.items }
{
    for crew in started {
        done.push_reserved(crew.child.join(rt));
    }
    for crew in here {
        done.push_reserved(crew);
    }
    done
}

// So many words, none of them set.
fn unset_words(alloc: Global, count: usize) -> Result<Vec<AtomicU64>, OutOfMemory> {
    let mut words = Vec::with_capacity(alloc, count)?;
    for _ in 0..count {
        words.push(AtomicU64::new(0))?;
    }
    Ok(words)
}

/// Runs each crew in a thread of its own, and the last one in the calling thread. Where a thread is refused, the calling thread runs that crew too, and
/// all after it. The crews come back in order, once all their stations have ended or a node was refused memory. All memory that this takes is
/// taken before the first thread starts.
pub(crate) fn run_crews<R: Threads + Wait + Sync, G: Gate>(
    rt: &R,
    alloc: Global,
    gate: &G,
    crews: Vec<Crew>,
    last: Crew,
) -> Result<Vec<Crew>, OutOfMemory>
    requires { length crews.items < 2 ^ 32 }
    ensures { IfOk result (λ r. r.items ≡ crews.items ++ last ∷ []) }
{
    let count = crews.len();
    let recalls = unset_words(alloc, count)?;
    let started = Vec::with_capacity(alloc, count)?;
    let here = Vec::with_capacity(alloc, count + 1)?;
    let done = Vec::with_capacity(alloc, count + 1)?;
    Ok(run_started(
        rt,
        gate,
        crews,
        last,
        started,
        here,
        done,
        recalls.as_slice(),
    ))
}

// The crews after their run. The empty `Vec`s have room for those that get a thread, those that don't, and all.
fn run_started<R: Threads + Wait + Sync, G: Gate>(
    rt: &R,
    gate: &G,
    crews: Vec<Crew>,
    last: Crew,
    started: Vec<Started>,
    here: Vec<Crew>,
    done: Vec<Crew>,
    recalls: &[AtomicU64],
) -> Vec<Crew>
    requires empty { (started.items ≡ []) × (here.items ≡ []) × (done.items ≡ []) }
    requires room { (length crews.items ≤ vec_capacity started) × (length crews.items + 1 ≤ vec_capacity here) × (length crews.items + 1 ≤ vec_capacity done) }
    ensures { result.items ≡ crews.items ++ last ∷ [] }
{
    let halt = AtomicU64::new(0);
    let halt = &halt;
    thread::scope(
        thread::scope_env(),
        rt,
        move |scope| -> Vec<Crew>
            requires { ((started.items ≡ []) × (here.items ≡ []) × (done.items ≡ []))
                × ((length crews.items ≤ vec_capacity started) × (length crews.items + 1 ≤ vec_capacity here) × (length crews.items + 1 ≤ vec_capacity done)) }
            ensures { result.items ≡ crews.items ++ last ∷ [] }
        {
            let (started, mut here) = start_all(
                scope, rt, gate, crews, started, here, halt, recalls,
            );
            here.push_reserved(last);
            let here = run_here(rt, gate, here, halt);
            finish_all(rt, started, here, done)
        },
    )
}
