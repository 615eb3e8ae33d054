//! The machine with whole arrays, and nodes of a distributed run.
//!
//! Comes in: what the instructions of node code mean, as functions of the slots; the text of an instruction is of any type. Goes out, in
//! `specs/`: what one state over whole arrays does at each instruction, what each node does, and when nodes agree with that state. There is
//! no function here.
//!
//! What holds in between, from the bottom up:
//!
//! - `Layout`: who owns a position of a row, and what a node holds of it. An owner is a node that owns the element by its mapping; where an
//!   element has several, the least of them sends it.
//! - `Instr`, `Machine`: the *reference machine*. It runs one instruction at a step, but for a Reduce and a Print, which have
//!   several steps. It is total: a read of no element is 0, a store to none changes nothing, past the code's end the run is
//!   finished.
//! - `Message`, `Tree`: who sends which elements to whom in the phase of a part, in a round of a redistribution, in a tree and in a
//!   *scan* (a parallel prefix). A Verdict is an *all-reduce*, up a tree and down, of the faults that nodes keep, by the first of them.
//! - `Node`: a node makes the same steps of its instructions, with letters in phases. In each phase it opens by a local step, sends in
//!   ascending order of targets and then takes in ascending order of sources; the last of these moves turns its phase number.
//! - `Agrees`: a node that agrees with the machine is the one that is made of it: all is alike but for its number, its pieces, the fault
//!   that it keeps, its part of a reduction and the numbers of its letters.
//!
//! *Proved:* Definitions alone: a machine that runs instructions over whole arrays, and nodes that run them with
//! letters, with the layout of a copy, when two layouts are the same, and the rounds of a redistribution.
#![tactic(auto)]
