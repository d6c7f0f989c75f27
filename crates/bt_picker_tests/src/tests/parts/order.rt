//! Numbers in groups.

ghost use Rattle.std.specs.Prelude.{◌≡◌, ◌<◌};

use bt_tables::Order;
use std::process::Abort;
use std::test::*;

/// Whether the group has these numbers, in any order.
fn has(order: &Order, group: u32, numbers: &[u32]) -> bool
    requires { group < order.now.count }
{
    let found = order.group(group);
    found.len() == numbers.len() && numbers.iter().all(|number| found.contains(number))
}

/// Three of five numbers are in other groups than the first.
fn have_moved(rt: &impl Abort, order: &Order)
    requires { order.now.count ≡ 4 }
{
    assert!(rt; has(order, 0, &[2, 3]));
    assert!(rt; has(order, 1, &[]));
    assert!(rt; has(order, 2, &[0, 1]));
    assert!(rt; has(order, 3, &[4]));
}

/// One of them is in the first group again, and one in another.
fn have_moved_again(rt: &impl Abort, order: &Order)
    requires { order.now.count ≡ 4 }
{
    assert!(rt; has(order, 0, &[2, 3, 4]));
    assert!(rt; has(order, 2, &[1]));
    assert!(rt; has(order, 3, &[0]));
}

#[test]
fn numbers_move_between_groups(rt: HostRuntime) -> Result<(), Fail> {
    let mut order = Order::new(rt.alloc(), 5, 4)?;
    assert!(rt; has(&order, 0, &[0, 1, 2, 3, 4]));
    order.put(1, 2);
    order.put(4, 3);
    order.put(0, 2);
    have_moved(&rt, &order);
    order.put(4, 0);
    order.put(0, 3);
    order.put(1, 2);
    have_moved_again(&rt, &order);
    Ok(())
}

/// Two of three numbers are one group higher than the first.
fn are_higher(rt: &impl Abort, order: &Order)
    requires { order.now.count ≡ 3 }
{
    assert!(rt; has(order, 0, &[0]));
    assert!(rt; has(order, 1, &[1, 2]));
    assert!(rt; has(order, 2, &[]));
}

#[test]
fn numbers_move_by_one_group(rt: HostRuntime) -> Result<(), Fail> {
    let mut order = Order::new(rt.alloc(), 3, 3)?;
    order.raise(1);
    order.raise(1);
    order.raise(2);
    order.lower(1);
    are_higher(&rt, &order);
    Ok(())
}

#[test]
fn no_numbers(rt: HostRuntime) -> Result<(), Fail> {
    let order = Order::new(rt.alloc(), 0, 1)?;
    assert!(rt; order.group(0).is_empty());
    Ok(())
}
