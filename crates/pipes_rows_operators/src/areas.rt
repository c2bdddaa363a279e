// Elements that are kept until they end, and found by key.
use pipes_rows_kit::{Cell, Said, are_wanted, cells, message, row};
use pipes_stream::{Elem, Message};
use pipes_sweep::Area;
use pipes_tuple::Cols;
use std::alloc::Global;
use std::test::Fail;

// What is done with an area, and what is to come of it.
#[derive(Clone, Copy)]
enum Act<'a> {
    // This element is kept.
    Keep(Said<'a>),
    // A probe with the key and the interval of the first finds the others.
    Find(Said<'a>, &'a [Said<'a>]),
    // A purge at an instant removes so many, and leaves so many.
    Purge(u64, u64, usize),
}

// A probe with the key and the interval of the first finds the others.
fn find<'a>(given: Said<'a>, found: &'a [Said<'a>]) -> Act<'a> {
    Act::Find(given, found)
}

// An area by these columns.
fn area_by(alloc: Global, columns: &[u32]) -> Result<Area, Fail> {
    let columns = Vec::from_slice(alloc, columns)?;
    Ok(Area::new(alloc, Cols::new(columns).ok_or("no columns")?))
}

fn elem(alloc: Global, said: &Said<'_>) -> Result<Elem, Fail> {
    match message(alloc, said)? {
        Message::Elem(elem) => Ok(elem),
        Message::Beat(_) => Ok(Err("a heartbeat")?),
        Message::End => Ok(Err("the end")?),
    }
}

fn keep(alloc: Global, area: &mut Area, said: &Said<'_>) -> Result<(), Fail> {
    let elem = elem(alloc, said)?;
    let key = area.key_of(&elem.tuple)?.ok_or("no key")?;
    area.insert_keyed(key, elem)?;
    Ok(())
}

// What a probe with the key and the interval of this element finds.
fn probed(alloc: Global, area: &Area, said: &Said<'_>) -> Result<Vec<Elem>, Fail> {
    let elem = elem(alloc, said)?;
    let key = area.key_of(&elem.tuple)?.ok_or("no key")?;
    let mut found = Vec::new(alloc);
    area.probe(&key, &elem.span, &mut found)?;
    Ok(found)
}

fn messages(alloc: Global, elems: Vec<Elem>) -> Result<Vec<Message>, Fail> {
    let mut list = Vec::new(alloc);
    for elem in elems {
        list.push(Message::Elem(elem))?;
    }
    Ok(list)
}

fn finds(alloc: Global, area: &Area, said: &Said<'_>, wanted: &[Said<'_>]) -> Result<bool, Fail> {
    let found = messages(alloc, probed(alloc, area, said)?)?;
    are_wanted(alloc, found.as_slice(), wanted)
}

fn does(alloc: Global, area: &mut Area, act: &Act<'_>) -> Result<bool, Fail> {
    match act {
        Act::Keep(said) => {
            keep(alloc, area, said)?;
            Ok(true)
        }
        Act::Find(said, wanted) => finds(alloc, area, said, wanted),
        Act::Purge(at, gone, left) => Ok(area.purge(*at) == *gone && area.len() == *left),
    }
}

// How many of the acts come to what they are to, up to the first that doesn't.
fn acts_done(alloc: Global, area: &mut Area, acts: &[Act<'_>]) -> Result<usize, Fail> {
    let mut done = 0_usize;
    for act in acts {
        if !does(alloc, area, act)? {
            break;
        }
        done = done.saturating_add(1);
    }
    Ok(done)
}

// The same, in an area by these columns that has no elements yet.
fn done(alloc: Global, columns: &[u32], acts: &[Act<'_>]) -> Result<usize, Fail> {
    let mut area = area_by(alloc, columns)?;
    acts_done(alloc, &mut area, acts)
}

#[test]
fn an_area_keeps_elements_until_they_end(rt: HostRuntime) -> Result<(), Fail> {
    let one = [row(&[1, 10], 0, 5)];
    let acts = [
        Act::Keep(one[0]),
        Act::Keep(row(&[2, 20], 3, 8)),
        find(row(&[1], 2, 7), &one),
        // intervals that only touch have no instant in common
        find(row(&[1], 5, 7), &[]),
        find(row(&[2], 0, 3), &[]),
        // a key that no element has
        find(row(&[3], 0, 9), &[]),
        Act::Purge(4, 0, 2),
        Act::Purge(5, 1, 1),
        find(row(&[1], 0, 9), &[]),
        Act::Purge(8, 1, 0),
    ];
    assert_eq!(rt; done(rt.alloc(), &[0], &acts)?, 10);
    Ok(())
}

#[test]
fn elements_of_one_key_are_found_in_the_order_of_insertion(rt: HostRuntime) -> Result<(), Fail> {
    let long = row(&[1, 1], 0, 9);
    let short = row(&[1, 2], 0, 3);
    let other = [row(&[2, 3], 0, 9)];
    let late = row(&[1, 4], 2, 9);
    let new = row(&[1, 5], 3, 4);
    let all = [long, short, late, short];
    let later = [long, late];
    let rest = [long, late, new];
    let acts = [
        Act::Keep(long),
        Act::Keep(short),
        Act::Keep(other[0]),
        Act::Keep(late),
        Act::Keep(short),
        find(row(&[1], 0, 9), &all),
        find(row(&[1], 3, 4), &later),
        Act::Purge(3, 2, 3),
        Act::Keep(new),
        find(row(&[1], 0, 9), &rest),
        find(row(&[2], 0, 1), &other),
    ];
    assert_eq!(rt; done(rt.alloc(), &[0], &acts)?, 11);
    Ok(())
}

#[test]
fn a_key_of_no_columns_is_the_key_of_all(rt: HostRuntime) -> Result<(), Fail> {
    let all = [row(&[1, 1], 0, 9), row(&[2, 2], 0, 3), row(&[3, 3], 5, 9)];
    let acts = [
        Act::Keep(all[0]),
        Act::Keep(all[1]),
        Act::Keep(all[2]),
        find(row(&[4], 0, 9), &all),
    ];
    assert_eq!(rt; done(rt.alloc(), &[], &acts)?, 4);
    Ok(())
}

const LONG: [Cell; 1] = [Cell::Text("ab")];

const SHORT: [Cell; 1] = [Cell::Text("a")];

#[test]
fn a_key_of_text(rt: HostRuntime) -> Result<(), Fail> {
    let long = cells(&LONG, 0, 9);
    let short = cells(&SHORT, 0, 9);
    let both = [long, long];
    let acts = [
        Act::Keep(long),
        Act::Keep(short),
        Act::Keep(long),
        find(long, &both),
    ];
    assert_eq!(rt; done(rt.alloc(), &[0], &acts)?, 4);
    Ok(())
}

// An area of a thousand elements of one key, each ten instants long.
fn thousand(alloc: Global) -> Result<Area, Fail> {
    let mut area = area_by(alloc, &[0])?;
    for start in 0..1000_u64 {
        keep(alloc, &mut area, &row(&[1, 7], start, start + 10))?;
    }
    Ok(area)
}

#[test]
fn a_thousand_elements_of_another_key(rt: HostRuntime) -> Result<(), Fail> {
    let alloc = rt.alloc();
    let mut area = thousand(alloc)?;
    let other = [row(&[2, 8], 0, 2000)];
    let six = [
        row(&[1, 7], 0, 10),
        row(&[1, 7], 1, 11),
        row(&[1, 7], 2, 12),
        row(&[1, 7], 3, 13),
        row(&[1, 7], 4, 14),
        row(&[1, 7], 5, 15),
    ];
    let acts = [
        Act::Keep(other[0]),
        find(row(&[2], 5, 6), &other),
        find(row(&[1], 5, 6), &six),
        // those that end at 510 or before it started at 0 to 500
        Act::Purge(510, 501, 500),
    ];
    assert_eq!(rt; acts_done(alloc, &mut area, &acts)?, 4);
    Ok(())
}
