//! Links by example: on one thread, and between two.

ghost use Rattle.std.specs.Prelude.{◌≡◌, []};
ghost use Rattle.sig_link.specs.Ends.{put_link, take_link, sent, taken, OfOneLink};

use sig_base::Full;
use sig_link::{LinkAnswer, Put, Settled, Take, link, settle};
use std::alloc::{AllocError, Global};
use std::sync::Wait;
use std::test::Fail;
use std::thread;
use std::thread::Threads;

#[test]
fn keeps_to_its_capacity(rt: HostRuntime) -> Result<(), Fail> {
    let (mut put, mut take) = link::<i64>(rt.alloc(), 1)?;
    assert_eq!(rt; put.push(&rt, 7), Ok(()));
    assert_eq!(rt; put.push(&rt, 8), Err(Full));
    assert_eq!(rt; take.pop(&rt), Some(7));
    assert_eq!(rt; take.pop(&rt), None);
    assert_eq!(rt; put.push(&rt, 9), Ok(()));
    assert_eq!(rt; settle(&rt, put, take), Settled { left: 1 });
    Ok(())
}

// Puts all items, each as soon as there is room.
fn put_all<R: Wait>(rt: &R, mut put: Put<i64>, items: &[i64]) -> Put<i64>
    requires new { sent put ≡ [] }
    ensures end { put_link result ≡ put_link put }
    ensures all { sent result ≡ items.now }
{
    let mut next = 0;
    for _ in rt.forever() {
        if next >= items.len() {
            break;
        }
        match put.push(rt, items[next]) {
            Ok(()) => next += 1,
            Err(Full) => thread::yield_now(),
        }
    }
    put
}

// Takes as many items as the list has, and writes them into it.
fn take_all<R: Wait>(rt: &R, mut take: Take<i64>, mut copy: Vec<i64>) -> (Take<i64>, Vec<i64>)
    requires { taken take ≡ [] }
    ensures end { take_link result.0 ≡ take_link take }
    ensures all { taken result.0 ≡ result.1.items }
{
    let mut next = 0;
    for _ in rt.forever() {
        if next >= copy.len() {
            break;
        }
        match take.pop(rt) {
            Some(item) => {
                copy[next] = item;
                next += 1;
            }
            None => thread::yield_now(),
        }
    }
    (take, copy)
}

// What arrives at another thread through a link of two items, and how many items are left.
fn relay<R: Threads + Wait + Sync>(
    rt: &R,
    alloc: Global,
    items: &[i64],
) -> Result<(Vec<i64>, u32), LinkAnswer> {
    let copy = Vec::from_elem(alloc, 0, items.len())?;
    let (put, take) = link::<i64>(alloc, 2)?;
    let (put, (take, copy)) = thread::join(
        rt,
        move || put_all(rt, put, items),
        move || take_all(rt, take, copy),
    );
    let settled = settle(rt, put, take);
    Ok((copy, settled.left))
}

#[test]
fn passes_items_between_two_threads(rt: HostRuntime) -> Result<(), Fail> {
    let items = [5, -4, 3, i64::MIN, 1, 0, i64::MAX, 8, 7];
    let (copy, left) = relay(&rt, rt.alloc(), &items)?;
    assert_eq!(rt; copy.as_slice(), items.as_slice());
    assert_eq!(rt; left, 0);
    Ok(())
}
