// Links between one producer and one consumer, in one thread and in two.
ghost use Rattle.pipes_link.specs.Ends.{SameOutlet, SameInlet};

use pipes_link::*;
use std::test::Fail;
use std::thread;

#[test]
fn messages_keep_their_order(rt: HostRuntime) -> Result<(), Fail> {
    let (mut outlet, mut inlet) = link(rt.alloc(), 2)?;
    assert_eq!(rt; (outlet.free(), inlet.waiting()), (2, 0));
    assert_eq!(rt; inlet.take(), None);
    assert_eq!(rt; outlet.put(1u32), Ok(()));
    assert_eq!(rt; outlet.put(2), Ok(()));
    assert_eq!(rt; outlet.put(3), Err(Full(3)));
    assert_eq!(rt; (outlet.free(), inlet.waiting()), (0, 2));
    assert_eq!(rt; inlet.take(), Some(1));
    assert_eq!(rt; (outlet.free(), inlet.waiting()), (1, 1));
    assert_eq!(rt; inlet.take(), Some(2));
    assert_eq!(rt; inlet.take(), None);
    Ok(())
}

// No call of `free` or `waiting` is between, so each end has to look by itself.
#[test]
fn each_end_looks_where_it_knows_of_nothing(rt: HostRuntime) -> Result<(), Fail> {
    let (mut outlet, mut inlet) = link(rt.alloc(), 1)?;
    for number in 0..100u32 {
        assert_eq!(rt; outlet.put(number), Ok(()));
        assert_eq!(rt; outlet.put(1000), Err(Full(1000)));
        assert_eq!(rt; inlet.take(), Some(number));
        assert_eq!(rt; inlet.take(), None);
    }
    Ok(())
}

#[test]
fn settles_and_links_anew(rt: HostRuntime) -> Result<(), Fail> {
    let (mut outlet, mut inlet) = link(rt.alloc(), 1)?;
    assert_eq!(rt; outlet.put('a'), Ok(()));
    assert_eq!(rt; outlet.put('b'), Err(Full('b')));
    assert_eq!(rt; settle(&mut outlet, &mut inlet), 1);
    assert_eq!(rt; inlet.take(), Some('a'));
    assert_eq!(rt; inlet.take(), None);
    let waiting = settle(&mut outlet, &mut inlet);
    assert_eq!(rt; waiting, 0);
    if waiting == 0 {
        relink(rt.alloc(), &mut outlet, &mut inlet)?;
    }
    assert_eq!(rt; outlet.put('c'), Ok(()));
    assert_eq!(rt; settle(&mut outlet, &mut inlet), 1);
    assert_eq!(rt; inlet.take(), Some('c'));
    assert_eq!(rt; outlet.free(), 1);
    assert_eq!(rt; outlet.put('d'), Ok(()));
    assert_eq!(rt; inlet.waiting(), 1);
    Ok(())
}

const TRIES: u32 = 20_000;

// Puts the numbers from 0 on as places come free, and answers how many.
fn count_in(outlet: &mut Outlet<u32>) -> u32
    ensures { SameOutlet outlet.old outlet.new }
{
    let mut next = 0;
    for _ in 0..TRIES {
        if outlet.put(next).is_ok() {
            next = next.saturating_add(1);
        }
    }
    next
}

// Takes what waits, and answers how many were the numbers from 0 on.
fn count_out(inlet: &mut Inlet<u32>) -> u32
    ensures { SameInlet inlet.old inlet.new }
{
    let mut next = 0;
    for _ in 0..TRIES {
        if inlet.take() == Some(next) {
            next = next.saturating_add(1);
        }
    }
    next
}

#[test]
fn numbers_go_from_thread_to_thread(rt: HostRuntime) -> Result<(), Fail> {
    let (mut outlet, mut inlet) = link(rt.alloc(), 64)?;
    let (put, took) = thread::join_mut(
        &rt,
        &mut || count_in(&mut outlet),
        &mut || { count_out(&mut inlet) },
    );
    let waiting = settle(&mut outlet, &mut inlet);
    assert_eq!(rt; took as u64 + waiting, put as u64);
    for number in took..put {
        assert_eq!(rt; inlet.take(), Some(number));
    }
    assert_eq!(rt; inlet.take(), None);
    Ok(())
}
