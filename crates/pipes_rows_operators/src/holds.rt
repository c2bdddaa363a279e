// What waits for its start.
use pipes_stream::Elem;
use pipes_sweep::Hold;
use pipes_time::Interval;
use pipes_tuple::{Tuple, Value};
use std::alloc::Global;
use std::test::Fail;

// An element of one number.
fn elem(alloc: Global, number: i64, start: u64) -> Result<Elem, Fail> {
    let values = Vec::from_array(alloc, [Value::Int(number)])?;
    let tuple = Tuple::new(values).ok_or("no tuple")?;
    let span = Interval::new(start, 100).ok_or("no interval")?;
    Ok(Elem { tuple, span })
}

// Whether the elements are these numbers, each with its start.
fn are(elems: &[Elem], wanted: &[(i64, u64)]) -> bool {
    elems.len() == wanted.len()
        && elems.iter().zip(wanted).all(|(elem, (number, start))| {
            elem.tuple.get(0) == Some(&Value::Int(*number)) && elem.span.start() == *start
        })
}

// Five elements that wait.
fn five(alloc: Global) -> Result<Hold, Fail> {
    let mut hold = Hold::new(alloc);
    for (number, start) in &[(1, 5), (2, 3), (3, 5), (4, 9), (5, 3)] {
        hold.put(elem(alloc, *number, *start)?)?;
    }
    Ok(hold)
}

// Whether the elements that are due at the instant are these, and the first that waits on starts
// there.
fn releases(
    alloc: Global,
    hold: &mut Hold,
    at: u64,
    wanted: &[(i64, u64)],
    first: Option<u64>,
) -> Result<bool, Fail> {
    let mut out = Vec::new(alloc);
    hold.release(at, &mut out)?;
    Ok(are(out.as_slice(), wanted) && hold.first() == first)
}

#[test]
fn elements_go_by_start_and_then_by_putting(rt: HostRuntime) -> Result<(), Fail> {
    let alloc = rt.alloc();
    let mut hold = five(alloc)?;
    assert_eq!(rt; (hold.first(), hold.len()), (Some(3), 5));
    assert!(rt; releases(alloc, &mut hold, 2, &[], Some(3))?);
    let due = [(2, 3), (5, 3), (1, 5), (3, 5)];
    assert!(rt; releases(alloc, &mut hold, 5, &due, Some(9))?);
    assert!(rt; releases(alloc, &mut hold, 9, &[(4, 9)], None)?);
    Ok(())
}
