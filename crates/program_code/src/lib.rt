//! The node code of a program, as a function of it.
//!
//! Comes in: programs whose names are resolved, in `array_meaning`'s definitions. Goes out, as definitions in `specs/`: the instructions of
//! `node_code` that are their code. What these do is said elsewhere: there is no machine here, no node, no law and no function.
//!
//! What holds in between, from the bottom up:
//!
//! - `ExpressionCode`: what is evaluated once in an expression is put into slots by its code, in order, and with it all that may fault. What is
//!   left is an expression over the slots, or for an array expression a form over them.
//! - `NestTexts`, `NestInstructions`, `Places`, `NestCode`: of a nest of INDEPENDENT loops which scalars have copies, where these lie among the
//!   rows, and the innermost block as parallel statements over all iterations; round it the bounds of the loops and their indices.
//! - `StatementCode`: all statements, and whole programs. Targets are places of the whole code. Slots from `b` on are free for a statement; a DO
//!   keeps four from its body. Rows are the declared names, by their places, and then the copies that the code names: `block_copies` of them.
//!
//! *Proved:* Definitions alone: the node code of a program, as a function of it. Each statement of a nest of
//! INDEPENDENT loops is one instruction for all iterations, over copies with a value for each. A nest without
//! statements runs as plain loops. Rows are the declared names, and then as many copies as the code names:
//! `block_copies`.
#![tactic(auto)]
