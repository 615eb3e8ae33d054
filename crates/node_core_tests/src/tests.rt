//! Steps in several orders, and a queue that fills. The numbers at the end are worked out by hand: in the first phase
//! 7, 8 and 9 go round to 9, 7 and 8, and then node 0 sends its 9 to node 1.

ghost use Rattle.std.specs.Prelude.{◌≡◌, ◌<◌, length};

use super::*;
use hpf_base::OutOfMemory;
use node_core::{Core, NodeId, Stepped};
use std::test::Fail;

/// So many steps of the node.
fn steps(core: &mut Core<Passer>, node: u32, times: u64) -> Result<(), OutOfMemory>
    requires { node < length core.old.lists.nodes }
    ensures { length core.new.lists.nodes ≡ length core.old.lists.nodes }
{
    for _ in 0..times {
        core.step(NodeId(node))?;
    }
    Ok(())
}

/// Rounds of so many steps of each of these nodes.
fn rounds(core: &mut Core<Passer>, order: [u32; 3], times: u64) -> Result<(), OutOfMemory>
    requires { length core.old.lists.nodes ≡ 3 }
    ensures { length core.new.lists.nodes ≡ 3 }
{
    for _ in 0..30 {
        for node in order {
            if node < 3 {
                steps(core, node, times)?;
            }
        }
    }
    Ok(())
}

/// Whether the core is finished with these numbers.
fn ends_with(core: Core<Passer>, numbers: [u64; 3]) -> bool {
    if !core.finished() {
        return false;
    }
    let mut place = 0;
    for node in &core.into_nodes() {
        if place >= 3 || node.number != numbers[place] {
            return false;
        }
        place += 1;
    }
    place == 3
}

#[test]
fn every_order_ends_alike(rt: HostRuntime) -> Result<(), Fail> {
    let mut core = three_nodes(rt.alloc(), 7, 8, 9)?;
    core.run_lockstep()?;
    assert!(rt; ends_with(core, [9, 9, 8]));

    let mut core = three_nodes(rt.alloc(), 7, 8, 9)?;
    core.run_rotation()?;
    assert_eq!(rt; core.step(NodeId(0))?, Stepped::Ended);
    assert!(rt; ends_with(core, [9, 9, 8]));

    let mut core = three_nodes(rt.alloc(), 7, 8, 9)?;
    rounds(&mut core, [2, 1, 0], 1)?;
    assert!(rt; ends_with(core, [9, 9, 8]));

    let mut core = three_nodes(rt.alloc(), 7, 8, 9)?;
    rounds(&mut core, [0, 1, 2], 30)?;
    assert!(rt; ends_with(core, [9, 9, 8]));
    Ok(())
}

#[test]
fn queue_fills(rt: HostRuntime) -> Result<(), Fail> {
    let mut core = three_nodes(rt.alloc(), 7, 8, 9)?;
    assert!(rt; core.enabled(NodeId(0)));

    // Node 0 makes its letter of the first phase and takes node 2's, then makes those of three later phases.
    core.run_choices(&[
        NodeId(0),
        NodeId(0),
        NodeId(2),
        NodeId(2),
        NodeId(0),
        NodeId(0),
        NodeId(0),
        NodeId(0),
    ])?;
    assert!(rt; !core.enabled(NodeId(0)));
    assert_eq!(rt; core.step(NodeId(0))?, Stepped::NotReady);

    // Node 1 takes one of the four letters, and there is room for the fifth.
    core.run_choices(&[NodeId(1), NodeId(1), NodeId(1)])?;
    assert_eq!(rt; core.step(NodeId(0))?, Stepped::Moved);
    assert_eq!(rt; core.step(NodeId(0))?, Stepped::Ended);

    // The letter of node 1 has come to node 2.
    assert_eq!(rt; core.step(NodeId(2))?, Stepped::Moved);
    Ok(())
}
