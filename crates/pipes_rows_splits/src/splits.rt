// The split book, and elements cut at a split.
ghost use Rattle.std.specs.Prelude.{◌≡◌, true, IfOk};
ghost use Rattle.std.specs.Arc.{arc_value};
ghost use Rattle.pipes_split.specs.Seats.{IsSeatOf};
ghost use Rattle.pipes_split.specs.Knowledge.{seat_knows};

use pipes_split::{EPOCHS, LAST_EPOCH, Raised, SplitBook, SplitSeat, cut};
use pipes_stream::Elem;
use pipes_time::{HORIZON, Interval, Memory};
use pipes_tuple::{Tuple, Value};
use std::alloc::Global;
use std::sync::Arc;
use std::test::Fail;
use std::thread;

#[test]
fn one_seat_on_a_book(rt: HostRuntime) -> Result<(), Fail> {
    let (book, mut seats) = SplitBook::new(rt.alloc(), 1)?;
    let mut seat = seats.pop().ok_or("no seat")?;
    assert!(rt; seats.pop().is_none());
    assert_eq!(rt; book.raise(&mut seat, 0, 10), Raised::Free);
    assert_eq!(rt; book.close_split(&mut seat, 0), 11);
    assert_eq!(rt; book.raise(&mut seat, 0, 4), Raised::Cut(11));
    assert_eq!(rt; book.raise(&mut seat, 1, 4), Raised::Free);
    assert_eq!(rt; book.raise(&mut seat, 1, 3), Raised::Free);
    assert_eq!(rt; book.close_split(&mut seat, 1), 5);
    assert_eq!(rt; book.close_split(&mut seat, 1), 5);
    assert_eq!(rt; book.close_split(&mut seat, 2), 1);
    assert_eq!(rt; book.raise(&mut seat, LAST_EPOCH, HORIZON), Raised::Free);
    Ok(())
}

#[test]
fn one_seat_looks_and_halts(rt: HostRuntime) -> Result<(), Fail> {
    let (book, mut seats) = SplitBook::new(rt.alloc(), 1)?;
    let mut seat = seats.pop().ok_or("no seat")?;
    assert_eq!(rt; book.raise(&mut seat, 0, 10), Raised::Free);
    assert_eq!(rt; book.close_split(&mut seat, 0), 11);
    assert_eq!(rt; book.look(&mut seat, 0), Some(11));
    assert_eq!(rt; book.look(&mut seat, 1), None);
    assert!(rt; !book.halted(&mut seat, 0));
    book.halt(&mut seat, 0);
    assert!(rt; book.halted(&mut seat, 0));
    assert!(rt; !book.halted(&mut seat, 1));
    Ok(())
}

#[test]
fn two_seats_on_a_book(rt: HostRuntime) -> Result<(), Fail> {
    let (book, mut seats) = SplitBook::new(rt.alloc(), 2)?;
    let mut closer = seats.pop().ok_or("no seat")?;
    let mut other = seats.pop().ok_or("no seat")?;
    assert_eq!(rt; book.raise(&mut other, 0, 7), Raised::Free);
    assert_eq!(rt; book.raise(&mut closer, 0, 5), Raised::Free);
    assert_eq!(rt; book.close_split(&mut closer, 0), 8);
    assert_eq!(rt; book.look(&mut other, 0), Some(8));
    book.agree(&mut other, &mut closer);
    book.halt(&mut other, 15);
    assert!(rt; book.halted(&mut closer, 15));
    Ok(())
}

#[test]
fn an_element_cut(rt: HostRuntime) -> Result<(), Fail> {
    let parts = [
        (11, Interval::new(5, 11), Interval::new(11, 15)),
        (5, None, Interval::new(5, 15)),
        (15, Interval::new(5, 15), None),
        (3, None, Interval::new(5, 15)),
    ];
    for (split, below, above) in parts {
        let values = Vec::from_array(rt.alloc(), [Value::Int(7)])?;
        let tuple = Tuple::new(values).ok_or("no tuple")?;
        let span = Interval::new(5, 15).ok_or("no interval")?;
        let (first, second) = cut(Elem { tuple, span }, split)?;
        assert_eq!(rt; first.map(|elem| elem.span), below);
        assert_eq!(rt; second.map(|elem| elem.span), above);
    }
    Ok(())
}

// Of each epoch a number: an end or a split time.
type Epochs = Vec<(u32, u64)>;

// What a thread saw: the greatest end that it registered in each epoch, and each split time that
// it met.
#[derive(Drop)]
struct Seen {
    ends: Epochs,
    splits: Epochs,
}

const STEPS: u32 = 1_000_000;

// Closed one after the other, each 1,000 times.
const CLOSED_EPOCHS: u32 = 1_000;

// Registers rising ends, each in the first epoch that was still open.
fn raise_all(
    book: &SplitBook,
    mut seat: SplitSeat,
    alloc: Global,
) -> Result<(SplitSeat, Seen), Memory>
    requires { IsSeatOf book.now seat }
    ensures { IfOk result (λ back. IsSeatOf book.now back.0) }
{
    let mut ends = Vec::new(alloc);
    let mut splits = Vec::new(alloc);
    let mut top = 0;
    let mut epoch = 0;
    for end in 1..=STEPS {
        match book.raise(&mut seat, epoch, end as u64) {
            Raised::Free => top = end as u64,
            Raised::Cut(split) => {
                ends.push((epoch, top))?;
                splits.push((epoch, split))?;
                top = 0;
                if epoch < LAST_EPOCH {
                    epoch += 1;
                }
            }
        }
    }
    ends.push((epoch, top))?;
    Ok((seat, Seen { ends, splits }))
}

// Closes one epoch after the other.
fn close_all(
    book: &SplitBook,
    mut seat: SplitSeat,
    alloc: Global,
) -> Result<(SplitSeat, Seen), Memory>
    requires seat { IsSeatOf book.now seat }
    requires closes { (seat_knows seat).closes ≡ true }
    ensures seat { IfOk result (λ back. IsSeatOf book.now back.0) }
    ensures closes { IfOk result (λ back. (seat_knows back.0).closes ≡ true) }
{
    let mut splits = Vec::new(alloc);
    for step in 0..STEPS {
        let epoch = step / (STEPS / CLOSED_EPOCHS);
        let split = book.close_split(&mut seat, epoch);
        splits.push((epoch, split))?;
    }
    Ok((
        seat,
        Seen {
            ends: Vec::new(alloc),
            splits,
        },
    ))
}

// The split time of an epoch, where it is closed.
fn look_up(book: &SplitBook, seat: &mut SplitSeat, epoch: u32) -> Option<u64>
    requires { IsSeatOf book.now seat.old }
    ensures { IsSeatOf book.now seat.new }
{
    if epoch < EPOCHS {
        book.look(seat, epoch)
    } else {
        None
    }
}

// Whether these are the split times that a seat finds.
fn finds_all(book: &SplitBook, seat: &mut SplitSeat, splits: &[(u32, u64)]) -> bool
    requires { IsSeatOf book.now seat.old }
    ensures { IsSeatOf book.now seat.new }
{
    'splits: for (epoch, split) in splits {
        if look_up(book, seat, *epoch) != Some(*split) {
            return false;
        }
    }
    true
}

// Whether both seats find these split times.
fn both_find(
    book: &SplitBook,
    one: &mut SplitSeat,
    other: &mut SplitSeat,
    splits: &[(u32, u64)],
) -> bool
    requires one { IsSeatOf book.now one.old }
    requires other { IsSeatOf book.now other.old }
    ensures one { IsSeatOf book.now one.new }
    ensures other { IsSeatOf book.now other.new }
{
    let found = finds_all(book, one, splits);
    let found_again = finds_all(book, other, splits);
    found && found_again
}

// Whether each end lies below the split time that a seat finds, where its epoch is closed.
fn finds_above(book: &SplitBook, seat: &mut SplitSeat, ends: &[(u32, u64)]) -> bool
    requires { IsSeatOf book.now seat.old }
    ensures { IsSeatOf book.now seat.new }
{
    'ends: for (epoch, end) in ends {
        if let Some(split) = look_up(book, seat, *epoch) {
            if split <= *end {
                return false;
            }
        }
    }
    true
}

#[test]
fn two_threads_agree_on_splits(rt: HostRuntime) -> Result<(), Fail> {
    let alloc = rt.alloc();
    let (book, mut seats) = SplitBook::new(alloc, 2)?;
    let closer = seats.pop().ok_or("no seat")?;
    let other = seats.pop().ok_or("no seat")?;
    let theirs = Arc::try_clone(&book)?;
    let ours = Arc::try_clone(&book)?;
    let (raised, closed) = thread::join(
        &rt,
        move || -> Result<(SplitSeat, Seen), Memory>
            requires { IsSeatOf (arc_value theirs) other }
            ensures { IfOk result (λ back. IsSeatOf (arc_value theirs) back.0) }
        { raise_all(&theirs, other, alloc) },
        move || -> Result<(SplitSeat, Seen), Memory>
            requires seat { IsSeatOf (arc_value ours) closer }
            requires closes { (seat_knows closer).closes ≡ true }
            ensures seat { IfOk result (λ back. IsSeatOf (arc_value ours) back.0) }
            ensures closes { IfOk result (λ back. (seat_knows back.0).closes ≡ true) }
        { close_all(&ours, closer, alloc) },
    );
    let ((mut other, raised), (mut closer, closed)) = (raised?, closed?);
    book.agree(&mut other, &mut closer);
    assert_eq!(rt; closed.splits.len(), STEPS as usize);
    // All who know a split time know the same.
    assert!(rt; both_find(&book, &mut other, &mut closer, raised.splits.as_slice()));
    assert!(rt; both_find(&book, &mut other, &mut closer, closed.splits.as_slice()));
    // Each end that was registered lies below it.
    assert!(rt; finds_above(&book, &mut other, raised.ends.as_slice()));
    assert!(rt; finds_above(&book, &mut closer, raised.ends.as_slice()));
    Ok(())
}
