// Differences, message by message.
use pipes_minus::Minus;
use pipes_rows_kit::{Said, Step, at_port, schema, steps_done};
use pipes_time::CLOSED;
use pipes_tuple::Kind;
use std::alloc::Global;
use std::test::Fail;

fn done(alloc: Global, steps: &[Step<'_>]) -> Result<usize, Fail> {
    let mut minus = Minus::new(alloc, schema(alloc, &[Kind::Int])?)?;
    steps_done(alloc, &mut minus, steps)
}

// A row over an interval.
fn row(start: u64, end: u64, numbers: &[i64; 1]) -> Said<'_> {
    Said::Numbers(numbers, start, end)
}

const SEVEN: [i64; 1] = [7];

const THREE: [i64; 1] = [3];

const FOUR: [i64; 1] = [4];

#[test]
fn a_difference_is_by_counts(rt: HostRuntime) -> Result<(), Fail> {
    let once = [row(0, 1, &SEVEN), Said::Beat(1)];
    let twice = [row(1, 2, &SEVEN), row(1, 2, &SEVEN), Said::Beat(2)];
    let last = [row(2, 4, &SEVEN), Said::End];
    let steps = [
        at_port(0, row(0, 4, &SEVEN), &[], 0, 1),
        at_port(0, row(1, 5, &SEVEN), &[], 0, 2),
        at_port(1, row(2, 6, &SEVEN), &once, 1, 3),
        at_port(0, Said::End, &twice, 2, 3),
        at_port(1, Said::End, &last, CLOSED, 0),
    ];
    assert_eq!(rt; done(rt.alloc(), &steps)?, 5);
    Ok(())
}

#[test]
fn more_at_the_right_leave_nothing(rt: HostRuntime) -> Result<(), Fail> {
    // Two at the right for [1, 5), one at the left for [0, 9), and another row at the left.
    let before = [row(0, 1, &THREE), Said::Beat(2)];
    let after = [row(2, 3, &FOUR), row(5, 9, &THREE), Said::End];
    let steps = [
        at_port(1, row(1, 5, &THREE), &[], 0, 1),
        at_port(1, row(1, 5, &THREE), &[], 0, 2),
        at_port(1, Said::End, &[], 0, 2),
        at_port(0, row(0, 9, &THREE), &[], 0, 3),
        at_port(0, row(2, 3, &FOUR), &before, 2, 4),
        at_port(0, Said::End, &after, CLOSED, 0),
    ];
    assert_eq!(rt; done(rt.alloc(), &steps)?, 6);
    Ok(())
}
