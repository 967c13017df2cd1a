//! Links by chunks by example, on one thread.

use sig_base::Full;
use sig_chunk::{chunked, settle};
use std::test::Fail;

#[test]
fn hands_over_a_chunk_that_is_whole(rt: HostRuntime) -> Result<(), Fail> {
    let (mut inlet, mut outlet) = chunked(rt.alloc(), 16, 8)?;
    for item in 1..4 {
        assert_eq!(rt; inlet.push(&rt, item), Ok(()));
    }
    assert_eq!(rt; outlet.pop(&rt), None);
    assert!(rt; inlet.holds());
    assert_eq!(rt; inlet.push(&rt, 4), Ok(()));
    assert!(rt; !inlet.holds());
    for item in 1..5 {
        assert_eq!(rt; outlet.pop(&rt), Some(item));
    }
    assert_eq!(rt; outlet.pop(&rt), None);
    Ok(())
}

#[test]
fn hands_over_what_it_holds(rt: HostRuntime) -> Result<(), Fail> {
    let (mut inlet, mut outlet) = chunked(rt.alloc(), 64, 8)?;
    assert_eq!(rt; (inlet.capacity(), outlet.capacity()), (64, 64));
    assert!(rt; inlet.hand_over(&rt));
    assert_eq!(rt; inlet.push(&rt, -7), Ok(()));
    assert!(rt; inlet.hand_over(&rt));
    assert_eq!(rt; outlet.pop(&rt), Some(-7));
    assert!(rt; outlet.began_chunk());
    assert_eq!(rt; outlet.pop(&rt), None);
    settle(&rt, inlet, outlet);
    Ok(())
}

#[test]
fn keeps_to_its_capacity_of_chunks(rt: HostRuntime) -> Result<(), Fail> {
    let (mut inlet, mut outlet) = chunked(rt.alloc(), 1, 8)?;
    assert_eq!(rt; inlet.push(&rt, 1), Ok(()));
    assert_eq!(rt; inlet.push(&rt, 2), Err(Full));
    assert_eq!(rt; outlet.pop(&rt), Some(1));
    let (mut inlet, mut outlet) = chunked(rt.alloc(), 16, 8)?;
    for item in 0..11 {
        assert_eq!(rt; inlet.push(&rt, item), Ok(()));
    }
    assert_eq!(rt; inlet.push(&rt, 11), Err(Full));
    assert!(rt; !inlet.hand_over(&rt));
    assert_eq!(rt; outlet.pop(&rt), Some(0));
    assert_eq!(rt; inlet.push(&rt, 11), Ok(()));
    Ok(())
}
