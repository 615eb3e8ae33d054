//! Cores of three nodes.

ghost use Rattle.std.specs.Prelude.{◌≡◌, IfOk, length};
ghost use Rattle.node_law.specs.Cores.{start};
ghost use Rattle.node_core.specs.CoreView.{state, IsReady};
ghost use Rattle.node_core_tests.specs.Passer.{passer_steps};
ghost use Rattle.node_core_tests.specs.Three.{three, at_start};

use crate::passer::Passer;
use hpf_base::OutOfMemory;
use node_core::Core;
use std::alloc::Global;

// A node at the beginning of its first phase.
fn passer(next: u32, before: u32, number: u64) -> Passer
    ensures { result ≡ at_start next before number }
{
    Passer {
        next,
        before,
        turn: 0,
        phase: 1,
        number,
    }
}

/// Three nodes with these numbers at the beginning of their first phase.
pub fn three_nodes(alloc: Global, a: u64, b: u64, c: u64) -> Result<Core<Passer>, OutOfMemory>
    ensures start { IfOk result (λ core. state core ≡ start (three a b c)) }
    ensures ready { IfOk result (λ core. IsReady passer_steps core) }
{
    let mut nodes = Vec::new(alloc);
    nodes.push(passer(1, 2, a))?;
    nodes.push(passer(2, 0, b))?;
    nodes.push(passer(0, 1, c))?;
    Core::new(alloc, nodes)
}
