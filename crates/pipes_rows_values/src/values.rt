// Values and tuples: their texts, and maps of them.
use pipes_time::{Interval, slide_span};
use pipes_tuple::{Cols, Key, Kind, Schema, Text, Tuple, Value, append_quoted};
use std::alloc::Global;
use std::collections::{BTreeMap, HashMap};
use std::test::Fail;

fn tuple_of<const N: usize>(alloc: Global, values: [Value; N]) -> Result<Tuple, Fail> {
    Ok(Tuple::new(Vec::from_array(alloc, values)?).ok_or("no tuple")?)
}

fn columns<const N: usize>(alloc: Global, columns: [u32; N]) -> Result<Cols, Fail> {
    Ok(Cols::new(Vec::from_array(alloc, columns)?).ok_or("no columns")?)
}

#[test]
fn spans_of_sliding_windows(rt: HostRuntime) -> Result<(), Fail> {
    for (stamp, size, slide, span) in [
        (3, 10, 5, Interval::new(5, 15)),
        (5, 10, 5, Interval::new(5, 15)),
        (6, 10, 5, Interval::new(10, 20)),
        (1, 2, 5, None),
        (4, 2, 5, Interval::new(5, 10)),
        (999_999_999_999_999, 10, 7, None),
        (3, 10, 0, None),
        (3, 0, 5, None),
    ] {
        assert_eq!(rt;
            slide_span(stamp, size, slide),
            span,
            "{stamp} {size} {slide}"
        );
    }
    Ok(())
}

#[test]
fn printed_and_read(rt: HostRuntime) -> Result<(), Fail> {
    let alloc = rt.alloc();
    for (kind, text) in [
        (Kind::Int, "0"),
        (Kind::Int, "-12"),
        (Kind::Int, "9223372036854775807"),
        (Kind::Int, "-9223372036854775808"),
        (Kind::Flag, "true"),
        (Kind::Flag, "false"),
    ] {
        let value = Value::read(alloc, kind, text.as_bytes())?;
        let mut out = Vec::new(alloc);
        value.copy()?.print(&mut out)?;
        assert_eq!(rt; out.as_slice(), text.as_bytes());
    }
    Ok(())
}

#[test]
fn texts_between_quotes(rt: HostRuntime) -> Result<(), Fail> {
    let alloc = rt.alloc();
    for (text, quoted) in [
        ("ab", "\"ab\""),
        ("", "\"\""),
        ("\\ \" \n \r \t é", "\"\\\\ \\\" \\n \\r \t é\""),
    ] {
        let mut out = Vec::new(alloc);
        append_quoted(text.as_bytes(), &mut out)?;
        Value::Text(Text::new(alloc, text)?).print(&mut out)?;
        assert_eq!(rt; out.len(), 2 * quoted.len());
        assert!(rt; out.starts_with(quoted.as_bytes()), "{text}");
        assert!(rt; out.ends_with(quoted.as_bytes()), "{text}");
    }
    Ok(())
}

#[test]
fn parts_of_tuples(rt: HostRuntime) -> Result<(), Fail> {
    let alloc = rt.alloc();
    let text = Value::Text(Text::new(alloc, "a")?);
    let tuple = tuple_of(alloc, [Value::Int(1), text, Value::Flag(true)])?;
    let turned = tuple_of(alloc, [Value::Flag(true), Value::Int(1)])?;
    assert!(rt; tuple.project(&columns(alloc, [2, 0])?)? == turned);
    Ok(())
}

#[test]
fn an_empty_key(rt: HostRuntime) -> Result<(), Fail> {
    let none = Cols::new(Vec::new(rt.alloc())).ok_or("no columns")?;
    let tuple = tuple_of(rt.alloc(), [Value::Int(1), Value::Flag(true)])?;
    assert!(rt; tuple.key(&none)?.as_slice().is_empty());
    assert!(rt; tuple.copy()? == tuple);
    Ok(())
}

#[test]
fn appended_tuples(rt: HostRuntime) -> Result<(), Fail> {
    let alloc = rt.alloc();
    let one = tuple_of(alloc, [Value::Int(1)])?;
    let two = tuple_of(alloc, [Value::Int(2)])?;
    let both = tuple_of(alloc, [Value::Int(1), Value::Int(2)])?;
    assert!(rt; one.len() + two.len() == both.len());
    assert!(rt; one.append(&two)? == both);
    assert!(rt; one < both && both < two);
    Ok(())
}

#[test]
fn a_tuple_fits_its_kinds(rt: HostRuntime) -> Result<(), Fail> {
    let alloc = rt.alloc();
    let tuple = tuple_of(alloc, [Value::Int(1), Value::Flag(true)])?;
    let kinds = Vec::from_array(alloc, [Kind::Int, Kind::Flag])?;
    let schema = Schema::new(kinds).ok_or("no schema")?;
    assert!(rt; tuple.fits(&schema.copy()?));
    Ok(())
}

#[test]
fn tuples_in_maps(rt: HostRuntime) -> Result<(), Fail> {
    let alloc = rt.alloc();
    let one = tuple_of(alloc, [Value::Int(1)])?;
    let two = tuple_of(alloc, [Value::Int(2)])?;
    let mut names = HashMap::new(alloc);
    names.insert(one.copy()?, "one")?;
    assert_eq!(rt; (names.get(&one), names.get(&two)), (Some(&"one"), None));
    Ok(())
}

#[test]
fn keys_in_maps(rt: HostRuntime) -> Result<(), Fail> {
    let alloc = rt.alloc();
    let empty = Key::new(Vec::new(alloc)).ok_or("no key")?;
    let mut places = BTreeMap::new(alloc);
    places.insert(empty.copy()?, 7)?;
    assert_eq!(rt; places.get(&empty), Some(&7));
    Ok(())
}
