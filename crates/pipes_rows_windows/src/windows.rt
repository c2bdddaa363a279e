// Windows over the rows of a source.
ghost use Rattle.std.specs.Prelude.{◌≡◌, false, OnOk};

use pipes_stream::Elem;
use pipes_time::{CLOSED, HORIZON};
use pipes_tuple::{Tuple, Value};
use pipes_window::{Item, RowsAt, Window, WindowKind, elements};
use std::alloc::Global;
use std::test::Fail;

// The row of one number.
fn tuple(alloc: Global, number: i64) -> Result<Tuple, Fail> {
    let values = Vec::from_array(alloc, [Value::Int(number)])?;
    Ok(Tuple::new(values).ok_or("no tuple")?)
}

fn is_number(tuple: &Tuple, number: i64) -> bool {
    tuple.len() == 1 && tuple.get(0) == Some(&Value::Int(number))
}

// Whether the elements are these numbers, each with its start and end.
fn are(elems: &[Elem], wanted: &[(i64, u64, u64)]) -> bool {
    elems.len() == wanted.len()
        && elems.iter().zip(wanted).all(|(elem, (number, start, end))| {
            is_number(&elem.tuple, *number)
                && elem.span.start() == *start
                && elem.span.end() == *end
        })
}

// The elements that these rows make known, stamps and numbers of which are given.
fn passed(alloc: Global, window: &mut Window, rows: &[(u64, i64)]) -> Result<Vec<Elem>, Fail>
    requires { window.old.ended ≡ false }
    ensures { OnOk result (window.new.ended ≡ false) }
{
    let mut out = Vec::new(alloc);
    'rows: for (stamp, number) in rows {
        let row = tuple(alloc, *number)?;
        if window.last() <= *stamp && *stamp < HORIZON {
            window.take(*stamp, row, &mut out)?;
        }
    }
    Ok(out)
}

// The elements of a source of these rows.
fn whole(alloc: Global, kind: WindowKind, rows: &[(u64, i64)]) -> Result<Vec<Elem>, Fail> {
    let mut window = Window::new(alloc, kind).ok_or("no window")?;
    let mut out = passed(alloc, &mut window, rows)?;
    window.finish(&mut out)?;
    Ok(out)
}

#[test]
fn whole_sources(rt: HostRuntime) -> Result<(), Fail> {
    let time = whole(rt.alloc(), WindowKind::Time(5), &[(3, 5), (HORIZON - 2, 6)])?;
    assert!(rt; are(time.as_slice(), &[(5, 3, 8), (6, HORIZON - 2, HORIZON)]));
    // A row that is followed by one of the same stamp has no validity.
    let count = whole(rt.alloc(), WindowKind::Count(1), &[(1, 7), (1, 8)])?;
    assert!(rt; are(count.as_slice(), &[(8, 1, HORIZON)]));
    let slide = whole(
        rt.alloc(),
        WindowKind::Slide(10, 5),
        &[(3, 7), (5, 8), (12, 9)],
    )?;
    assert!(rt; are(slide.as_slice(), &[(7, 5, 15), (8, 5, 15), (9, 15, 25)]));
    // Neither has one that is gone before the window moves.
    let short = whole(rt.alloc(), WindowKind::Slide(2, 5), &[(1, 7), (4, 8)])?;
    assert!(rt; are(short.as_slice(), &[(8, 5, 10)]));
    Ok(())
}

#[test]
fn all_at_once(rt: HostRuntime) -> Result<(), Fail> {
    let alloc = rt.alloc();
    let rows = [Item::Row(3, tuple(alloc, 5)?), Item::Beat(4)];
    let items = Vec::from_array(alloc, rows)?;
    let out = elements(alloc, WindowKind::Time(5), items)?;
    assert!(rt; are(out.as_slice(), &[(5, 3, 8)]));
    Ok(())
}

#[test]
fn a_count_window_step_by_step(rt: HostRuntime) -> Result<(), Fail> {
    let alloc = rt.alloc();
    let mut window = Window::new(alloc, WindowKind::Count(2)).ok_or("no window")?;
    let mut out = Vec::new(alloc);
    assert!(rt; passed(alloc, &mut window, &[(1, 8), (1, 7)])?.is_empty());
    let known = passed(alloc, &mut window, &[(4, 9)])?;
    assert!(rt; are(known.as_slice(), &[(8, 1, 4)]));
    assert_eq!(rt; (window.last(), window.beat_now()), (4, 1));
    window.finish(&mut out)?;
    assert!(rt; are(out.as_slice(), &[(7, 1, HORIZON), (9, 4, HORIZON)]));
    assert_eq!(rt; window.beat_now(), CLOSED);
    Ok(())
}

#[test]
fn heartbeats_of_a_sliding_window(rt: HostRuntime) -> Result<(), Fail> {
    let mut window = Window::new(rt.alloc(), WindowKind::Slide(10, 7)).ok_or("no window")?;
    assert_eq!(rt; window.beat_now(), 0);
    window.beat(1);
    assert_eq!(rt; window.beat_now(), 7);
    window.beat(14);
    assert_eq!(rt; window.beat_now(), 14);
    window.beat(HORIZON - 1);
    assert_eq!(rt; window.beat_now(), HORIZON);
    Ok(())
}

// The rows of a source with these stamps and numbers that are valid at the instant, as numbers.
fn are_valid(alloc: Global, kind: WindowKind, time: u64, wanted: &[i64]) -> Result<bool, Fail> {
    let mut gathered = RowsAt::new(alloc, kind, time);
    for (stamp, number) in [(1, 8), (1, 7), (4, 9), (6, 2)] {
        gathered.take(stamp, tuple(alloc, number)?)?;
    }
    let rows = gathered.into_rows();
    Ok(
        rows.len() == wanted.len()
            && rows
                .iter()
                .zip(wanted)
                .all(|(row, number)| is_number(row, *number)),
    )
}

#[test]
fn rows_at_instants(rt: HostRuntime) -> Result<(), Fail> {
    let alloc = rt.alloc();
    for (kind, time, wanted) in [
        (WindowKind::Count(2), 0, &[][..]),
        (WindowKind::Count(2), 3, &[8, 7][..]),
        (WindowKind::Count(2), 4, &[7, 9][..]),
        (WindowKind::Count(2), 9, &[9, 2][..]),
        (WindowKind::Count(1), 1, &[7][..]),
        (WindowKind::Time(3), 3, &[8, 7][..]),
        (WindowKind::Time(3), 4, &[9][..]),
        (WindowKind::Time(3), 6, &[9, 2][..]),
        (WindowKind::Slide(4, 5), 4, &[][..]),
        (WindowKind::Slide(4, 5), 5, &[9][..]),
        (WindowKind::Slide(4, 5), 9, &[9][..]),
        (WindowKind::Slide(5, 5), 5, &[8, 7, 9][..]),
        (WindowKind::Slide(4, 5), 10, &[][..]),
    ] {
        assert!(rt; are_valid(alloc, kind, time, wanted)?, "{kind:?} at {time}");
    }
    Ok(())
}
