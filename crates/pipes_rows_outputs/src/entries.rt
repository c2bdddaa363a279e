// Entries and normal texts.
use pipes_output::{Entries, Entry, EntryFault, Normal};
use pipes_stream::Elem;
use pipes_time::Interval;
use pipes_tuple::{Tuple, Value};
use std::alloc::Global;
use std::test::Fail;

// The text with which an entry's line is printed.
fn printed(alloc: Global, entry: &Entry) -> Result<Vec<u8>, Fail> {
    let mut out = Vec::new(alloc);
    entry.print(&mut out)?;
    Ok(out)
}

#[test]
fn lines_are_read_and_printed(rt: HostRuntime) -> Result<(), Fail> {
    let lines = [
        "+ 0 3 7",
        "+ 5 1000000000000000 -9223372036854775808 true \"\" false",
        r#"+ 0 1 "a b \\ \" \n \r é""#,
        "~ 0",
        "~ 18446744073709551615",
        "m 1 11",
        "x 2 steps 3",
        "x 2 busy 1000000000000001",
        "x 65 limit",
        "o 1",
        "z 4294967295",
        "d 5 1000000000000001",
        "end",
        "stop",
    ];
    for line in lines {
        let entry = Entry::read(rt.alloc(), line.as_bytes())?;
        let out = printed(rt.alloc(), &entry)?;
        assert_eq!(rt; out.len(), line.len() + 1, "{line}");
        assert!(rt; out.starts_with(line.as_bytes()), "{line}");
        assert!(rt; out.ends_with(b"\n"), "{line}");
    }
    Ok(())
}

#[test]
fn no_lines(rt: HostRuntime) -> Result<(), Fail> {
    let lines = [
        "",
        "end ",
        "end\n",
        "ends",
        "sto",
        "+",
        "+ 0 3",
        "+ 0 3 ",
        "+ 00 3 7",
        "+ 0 3 07",
        "+ 0 3 -0",
        "+ 0 3 +7",
        "+ 5 3 7",
        "+ 3 3 7",
        "+ 0 1000000000000001 7",
        "+ 0 3  7",
        "+ 0 3 7 ",
        "+ 0 3 9223372036854775808",
        "+ 0 3 yes",
        "+ 0 3 \"a",
        "+ 0 3 \"a\"b\"",
        "+ 0 3 \"a\"7",
        "+ 0 3 \"\\x\"",
        "+ 0 3 \"a\nb\"",
        "~ 18446744073709551616",
        "~ +1",
        "~ 1 2",
        "m 4294967296 1",
        "m 1",
        "x 1 limit 3",
        "x 1 steps",
        "x 1 step 3",
        "d 1",
        "y 1",
        " 1",
    ];
    for line in lines {
        let read = Entry::read(rt.alloc(), line.as_bytes());
        assert!(rt; matches!(read, Err(EntryFault::NotALine)), "{line}");
    }
    Ok(())
}

#[test]
fn entries_in_order(rt: HostRuntime) -> Result<(), Fail> {
    let mut entries = Entries::new(rt.alloc());
    entries.push(Entry::Beat(5))?;
    entries.push(Entry::Stopped)?;
    assert_eq!(rt;
        entries.as_slice(),
        [Entry::Beat(5), Entry::Stopped].as_slice()
    );
    let mut out = Vec::new(rt.alloc());
    entries.print(&mut out)?;
    assert_eq!(rt; out.as_slice(), b"~ 5\nstop\n".as_slice());
    Ok(())
}

// An element of one number.
fn elem(alloc: Global, start: u64, end: u64, number: i64) -> Result<Elem, Fail> {
    let mut values = Vec::new(alloc);
    values.push(Value::Int(number))?;
    let tuple = Tuple::new(values).ok_or("no tuple")?;
    let span = Interval::new(start, end).ok_or("no interval")?;
    Ok(Elem { tuple, span })
}

// The normal text of elements of one number each.
fn normal(alloc: Global, elems: &[(u64, u64, i64)]) -> Result<Vec<u8>, Fail> {
    let mut normal = Normal::new(alloc);
    for (start, end, number) in elems {
        normal.add(elem(alloc, *start, *end, *number)?)?;
    }
    let mut out = Vec::new(alloc);
    normal.print(&mut out)?;
    Ok(out)
}

#[test]
fn counts_in_normal_texts(rt: HostRuntime) -> Result<(), Fail> {
    let none = normal(rt.alloc(), &[])?;
    assert_eq!(rt; none.as_slice(), b"".as_slice());
    let overlap = normal(rt.alloc(), &[(0, 5, 7), (3, 8, 7)])?;
    assert_eq!(rt;
        overlap.as_slice(),
        b"= 0 3 1 7\n= 3 5 2 7\n= 5 8 1 7\n".as_slice()
    );
    let touching = normal(rt.alloc(), &[(5, 9, 7), (0, 5, 7), (9, 10, 7)])?;
    assert_eq!(rt; touching.as_slice(), b"= 0 10 1 7\n".as_slice());
    let kept = normal(rt.alloc(), &[(0, 4, 7), (0, 9, 7), (4, 9, 7), (20, 21, 7)])?;
    assert_eq!(rt; kept.as_slice(), b"= 0 9 2 7\n= 20 21 1 7\n".as_slice());
    Ok(())
}

#[test]
fn order_of_normal_texts(rt: HostRuntime) -> Result<(), Fail> {
    let text = normal(
        rt.alloc(),
        &[(1, 9, 1), (0, 4, 3), (1, 2, 2), (0, 4, -2), (1, 9, 0)],
    )?;
    let wanted = b"= 0 4 1 -2\n= 0 4 1 3\n= 1 2 1 2\n= 1 9 1 0\n= 1 9 1 1\n".as_slice();
    assert_eq!(rt; text.as_slice(), wanted);
    let last = normal(
        rt.alloc(),
        &[(999_999_999_999_999, 1_000_000_000_000_000, 7)],
    )?;
    assert_eq!(rt;
        last.as_slice(),
        b"= 999999999999999 1000000000000000 1 7\n".as_slice()
    );
    Ok(())
}

#[test]
fn periods_one_by_one(rt: HostRuntime) -> Result<(), Fail> {
    let mut normal = Normal::new(rt.alloc());
    normal.add(elem(rt.alloc(), 0, 5, 7)?)?;
    normal.add(elem(rt.alloc(), 3, 5, 8)?)?;
    let periods = normal.periods()?;
    assert_eq!(rt; periods.len(), 2);
    let mut out = Vec::new(rt.alloc());
    for period in periods.as_slice() {
        period.print(&mut out)?;
    }
    assert_eq!(rt; out.as_slice(), b"= 0 5 1 7\n= 3 5 1 8\n".as_slice());
    Ok(())
}
