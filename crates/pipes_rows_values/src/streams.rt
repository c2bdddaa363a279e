// Messages of a stream, and a watch over them.
use pipes_stream::{Elem, Message, Watch};
use pipes_time::{CLOSED, Interval};
use pipes_tuple::{Tuple, Value};
use std::alloc::Global;
use std::test::Fail;

// An element of one number.
fn elem(alloc: Global, number: i64, start: u64, end: u64) -> Result<Elem, Fail> {
    let values = Vec::from_array(alloc, [Value::Int(number)])?;
    let tuple = Tuple::new(values).ok_or("no tuple")?;
    let span = Interval::new(start, end).ok_or("no interval")?;
    Ok(Elem { tuple, span })
}

#[test]
fn a_copy_is_equal(rt: HostRuntime) -> Result<(), Fail> {
    let message = Message::Elem(elem(rt.alloc(), 7, 3, 9)?);
    assert!(rt; message.copy()? == message);
    assert!(rt; Message::Beat(4).copy()? == Message::Beat(4));
    assert!(rt; Message::End.copy()? == Message::End);
    Ok(())
}

#[test]
fn a_watch_over_a_list(rt: HostRuntime) -> Result<(), Fail> {
    let alloc = rt.alloc();
    let mut watch = Watch::new();
    assert_eq!(rt; watch.beat_now(), 0);
    for (message, is_valid, beat) in [
        (Message::Elem(elem(alloc, 7, 3, 9)?), true, 3),
        (Message::Elem(elem(alloc, 8, 2, 9)?), false, 3),
        (Message::Beat(3), true, 3),
        (Message::Beat(5), true, 5),
        (Message::Beat(4), false, 5),
        (Message::Elem(elem(alloc, 9, 5, 6)?), true, 5),
        (Message::Beat(CLOSED + 1), false, 5),
        (Message::End, true, CLOSED),
        (Message::Beat(CLOSED), false, CLOSED),
        (Message::End, false, CLOSED),
    ] {
        assert_eq!(rt; watch.step(&message), is_valid, "{message:?}");
        assert_eq!(rt; watch.beat_now(), beat, "{message:?}");
    }
    Ok(())
}
