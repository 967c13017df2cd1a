//! Failure words by example: on one thread, and between two.

ghost use Rattle.std.specs.Prelude.{◌≡◌, ◌<◌};
ghost use Rattle.sig_halt.specs.Seats.{parts, IsSeatOf};

use sig_base::Place;
use sig_halt::{Halt, HaltAnswer, HaltSeat};
use std::alloc::Global;
use std::sync::Wait;
use std::sync::atomic::{AtomicBool, Ordering};
use std::test::Fail;
use std::thread;
use std::thread::Threads;

#[test]
fn keeps_the_least_place(rt: HostRuntime) -> Result<(), Fail> {
    let (halt, mut first) = Halt::new(rt.alloc(), 2)?;
    let mut second = first.seat(&halt);
    assert_eq!(rt; second.look(&halt), u64::MAX);
    first.fail(&halt, Place { instant: 2, pos: 4 });
    assert_eq!(rt; second.look(&halt), 8_589_934_596);
    second.fail(&halt, Place { instant: 1, pos: 6 });
    assert_eq!(rt; first.look(&halt), 4_294_967_302);
    first.join(&halt, second);
    assert_eq!(rt; halt.close(first), 4_294_967_302);
    Ok(())
}

#[test]
fn closes_with_none(rt: HostRuntime) -> Result<(), Fail> {
    let (halt, seat) = Halt::new(rt.alloc(), 1)?;
    assert_eq!(rt; halt.close(seat), u64::MAX);
    Ok(())
}

// Records a place in each instant below 100, the latest first, and looks after each.
fn fail_from(halt: &Halt, mut seat: HaltSeat, first: u32, pos: u32) -> HaltSeat
    requires { IsSeatOf halt.now seat }
    ensures { IsSeatOf halt.now result × (parts result ≡ parts seat) }
{
    for instant in (first..100).rev() {
        seat.fail(halt, Place { instant, pos });
        let _seen = seat.look(halt);
    }
    seat
}

// What two threads leave in a word in which each of them records places.
fn least_of_two<R: Threads + Sync>(rt: &R, alloc: Global) -> Result<u64, HaltAnswer> {
    let (word, mut mine) = Halt::new(alloc, 2)?;
    let halt = &word;
    let theirs = mine.seat(halt);
    let (mut mine, theirs) = thread::join(
        rt,
        move || fail_from(halt, mine, 3, 5),
        move || fail_from(halt, theirs, 2, 9),
    );
    mine.join(halt, theirs);
    Ok(word.close(mine))
}

#[test]
fn two_threads_record_in_one_word(rt: HostRuntime) -> Result<(), Fail> {
    let least = least_of_two(&rt, rt.alloc())?;
    assert_eq!(rt; Place::unpack(least), Place { instant: 2, pos: 9 });
    Ok(())
}

#[test]
fn a_rest_ends_behind_a_wake(rt: HostRuntime) -> Result<(), Fail> {
    let (halt, _seat) = Halt::new(rt.alloc(), 1)?;
    let rest = halt.rest();
    halt.wake();
    rest.sleep(&rt);
    Ok(())
}

#[test]
fn a_rest_for_a_link_ends_where_its_use_is_told(rt: HostRuntime) -> Result<(), Fail> {
    let (halt, _seat) = Halt::new(rt.alloc(), 2)?;
    let rest = halt.rest_in(1, Some(7));
    halt.note(1, 7);
    halt.tell();
    rest.sleep(&rt);
    Ok(())
}

#[test]
fn a_rest_for_any_link_ends_where_a_bed_with_it_is_told(rt: HostRuntime) -> Result<(), Fail> {
    let (halt, _seat) = Halt::new(rt.alloc(), 3)?;
    halt.share_bed(0, 2);
    halt.rest_in(2, Some(7)).give_up();
    let rest = halt.rest_in(2, None);
    halt.note(0, 3);
    halt.tell();
    rest.sleep(&rt);
    Ok(())
}

// Sleeps until it is woken, and tells so.
fn sleep_once<R: Wait>(rt: &R, halt: &Halt, woken: &AtomicBool) {
    halt.rest().sleep(rt);
    woken.store(true, Ordering::SeqCst);
}

// Wakes until the other thread has told that it is woken.
fn wake_it<R: Wait>(rt: &R, halt: &Halt, woken: &AtomicBool) {
    for _ in rt.forever() {
        if woken.load(Ordering::SeqCst) {
            break;
        }
        halt.wake();
        thread::yield_now();
    }
}

// Whether a thread that slept was woken.
fn was_woken<R: Threads + Wait + Sync>(rt: &R, alloc: Global) -> Result<bool, HaltAnswer> {
    let (word, _seat) = Halt::new(alloc, 1)?;
    let flag = AtomicBool::new(false);
    let (halt, woken) = (&word, &flag);
    thread::join(
        rt,
        move || sleep_once(rt, halt, woken),
        move || wake_it(rt, halt, woken),
    );
    Ok(flag.load(Ordering::SeqCst))
}

#[test]
fn a_thread_that_sleeps_is_woken(rt: HostRuntime) -> Result<(), Fail> {
    assert!(rt; was_woken(&rt, rt.alloc())?);
    Ok(())
}
