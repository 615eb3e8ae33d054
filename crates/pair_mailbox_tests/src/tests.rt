//! A queue that fills, empties and is closed.

use super::*;
use pair_mailbox::close_pair;
use std::test::Fail;

#[test]
fn the_fifth_letter_waits_for_room(rt: HostRuntime) -> Result<(), Fail> {
    let alloc = rt.alloc();
    let (mut out, mut inn) = open_one_pair(&rt, alloc)?;
    assert!(rt; send_value(&rt, alloc, &mut out, 1, 10)?);
    assert!(rt; send_value(&rt, alloc, &mut out, 2, 20)?);
    assert!(rt; send_value(&rt, alloc, &mut out, 3, 30)?);
    assert!(rt; send_value(&rt, alloc, &mut out, 4, 40)?);
    assert!(rt; !send_value(&rt, alloc, &mut out, 5, 50)?);
    assert_eq!(rt; take_number(&rt, &mut inn), Some(1));
    assert!(rt; send_value(&rt, alloc, &mut out, 5, 50)?);
    assert_eq!(rt; take_number(&rt, &mut inn), Some(2));
    assert_eq!(rt; take_number(&rt, &mut inn), Some(3));
    let closed = close_pair(&rt, out, inn);
    assert_eq!(rt; closed.run(), 1);
    assert_eq!(rt; closed.from().0, 0);
    assert_eq!(rt; closed.to().0, 1);
    assert_eq!(rt; closed.sent(), 5);
    assert_eq!(rt; closed.left(), 2);
    Ok(())
}

#[test]
fn an_empty_queue_gives_no_letter(rt: HostRuntime) -> Result<(), Fail> {
    let alloc = rt.alloc();
    let (mut out, mut inn) = open_one_pair(&rt, alloc)?;
    assert_eq!(rt; take_number(&rt, &mut inn), None);
    assert!(rt; send_value(&rt, alloc, &mut out, 1, 10)?);
    assert_eq!(rt; take_number(&rt, &mut inn), Some(1));
    assert_eq!(rt; take_number(&rt, &mut inn), None);
    assert_eq!(rt; close_pair(&rt, out, inn).left(), 0);
    Ok(())
}
