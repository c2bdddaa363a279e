// Normal texts, as they are written while elements come.
use pipes_output::Normal;
use pipes_settled::Settled;
use pipes_stream::Elem;
use pipes_time::Interval;
use pipes_tuple::{Tuple, Value};
use std::alloc::Global;
use std::test::Fail;

// An element of one number: its start, its end, and the number.
type Row = (u64, u64, i64);

fn elem(alloc: Global, row: &Row) -> Result<Elem, Fail> {
    let mut values = Vec::new(alloc);
    values.push(Value::Int(row.2))?;
    let tuple = Tuple::new(values).ok_or("no tuple")?;
    let span = Interval::new(row.0, row.1).ok_or("no interval")?;
    Ok(Elem { tuple, span })
}

// The text written when the start of the element is reached, before it is added.
fn step(settled: &mut Settled, elem: Elem, out: &mut Vec<u8>) -> Result<usize, Fail> {
    settled.advance(elem.span.start(), out)?;
    settled.add(elem)?;
    Ok(out.len())
}

// The whole text, and how much of it is written before each element is added.
fn written(alloc: Global, rows: &[Row]) -> Result<(Vec<u8>, Vec<usize>), Fail> {
    let mut settled = Settled::new(alloc);
    let mut out = Vec::new(alloc);
    let mut lens = Vec::new(alloc);
    for row in rows {
        let len = step(&mut settled, elem(alloc, row)?, &mut out)?;
        lens.push(len)?;
    }
    settled.finish(&mut out)?;
    Ok((out, lens))
}

// The normal text of the elements.
fn normal(alloc: Global, rows: &[Row]) -> Result<Vec<u8>, Fail> {
    let mut normal = Normal::new(alloc);
    for row in rows {
        normal.add(elem(alloc, row)?)?;
    }
    let mut out = Vec::new(alloc);
    normal.print(&mut out)?;
    Ok(out)
}

#[test]
fn lines_once_their_ends_are_passed(rt: HostRuntime) -> Result<(), Fail> {
    let rows = [(0, 3, 7), (1, 2, 8), (2, 4, 7), (3, 5, 9), (6, 7, 9)];
    let (text, lens) = written(rt.alloc(), &rows)?;
    let first = b"= 0 2 1 7\n= 1 2 1 8\n".as_slice();
    let whole = b"= 0 2 1 7\n= 1 2 1 8\n= 2 3 2 7\n= 3 4 1 7\n= 3 5 1 9\n= 6 7 1 9\n".as_slice();
    assert_eq!(rt; text.as_slice(), whole);
    let all_but_last = whole.len() - b"= 6 7 1 9\n".len();
    assert_eq!(rt;
        lens.as_slice(),
        [0, 0, 0, first.len(), all_but_last].as_slice()
    );
    Ok(())
}

#[test]
fn lines_wait_for_those_before(rt: HostRuntime) -> Result<(), Fail> {
    let rows = [(0, 100, 1), (1, 2, 2), (50, 60, 3), (101, 102, 4)];
    let (text, lens) = written(rt.alloc(), &rows)?;
    let before = b"= 0 100 1 1\n= 1 2 1 2\n= 50 60 1 3\n".as_slice();
    let whole = b"= 0 100 1 1\n= 1 2 1 2\n= 50 60 1 3\n= 101 102 1 4\n".as_slice();
    assert_eq!(rt; text.as_slice(), whole);
    assert_eq!(rt; lens.as_slice(), [0, 0, 0, before.len()].as_slice());
    Ok(())
}

#[test]
fn an_element_carries_another_on(rt: HostRuntime) -> Result<(), Fail> {
    let rows = [
        (0, 5, 7),
        (5, 9, 7),
        (9, 10, 7),
        (999_999_999_999_999, 1_000_000_000_000_000, 7),
    ];
    let (text, lens) = written(rt.alloc(), &rows)?;
    let first = b"= 0 10 1 7\n".as_slice();
    let whole = b"= 0 10 1 7\n= 999999999999999 1000000000000000 1 7\n".as_slice();
    assert_eq!(rt; text.as_slice(), whole);
    assert_eq!(rt; lens.as_slice(), [0, 0, 0, first.len()].as_slice());
    Ok(())
}

#[test]
fn as_the_normal_text(rt: HostRuntime) -> Result<(), Fail> {
    let lists = [
        [].as_slice(),
        [(0, 4, 7), (0, 9, 7), (4, 9, 7), (20, 21, 7)].as_slice(),
        [(0, 4, 3), (0, 4, -2), (1, 9, 1), (1, 2, 2), (1, 9, 0)].as_slice(),
        [(2, 6, 1), (2, 6, 1), (3, 6, 1), (6, 7, 1), (6, 8, 2)].as_slice(),
    ];
    for rows in lists {
        let (text, _) = written(rt.alloc(), rows)?;
        let wanted = normal(rt.alloc(), rows)?;
        assert_eq!(rt; text.as_slice(), wanted.as_slice());
    }
    Ok(())
}
