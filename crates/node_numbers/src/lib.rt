//! How the nodes of a distributed run number their letters.
//!
//! Comes in: the steps of nodes (`machine_steps`), what it is that a node numbers its letters (`stations`), by the rule of a pair's queue
//! (`pair_mailbox`), and the numbers that a node keeps (`node_run`). Goes out: one law, the contract of a function that does nothing.
//!
//! What holds in between: the law asks nothing of code, layouts or owners, nor that a letter which was taken was the awaited one. So it
//! holds in every order of steps, and of a node whose letters come from anywhere.
//!
//! *Proved:* Each node at the beginning of a run numbers its letters, whatever moves it makes and whatever it takes in
//! them: what it is to send is its pair's next letter, and it awaits its pair's next letter where it is to take one:
//! `nodes_number_letters`.
#![tactic(auto)]

mod promises;

pub use promises::nodes_number_letters;
