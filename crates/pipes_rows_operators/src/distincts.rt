// Each row once, message by message.
use pipes_group::Distinct;
use pipes_rows_kit::{Said, at_port, schema, steps_done};
use pipes_time::CLOSED;
use pipes_tuple::Kind;
use std::test::Fail;

const ONE: [i64; 1] = [1];

const TWO: [i64; 1] = [2];

#[test]
fn a_distinct_goes_on_where_a_longer_element_ends(rt: HostRuntime) -> Result<(), Fail> {
    let alloc = rt.alloc();
    let mut distinct = Distinct::new(alloc, schema(alloc, &[Kind::Int])?)?;
    let first = [Said::Numbers(&ONE, 0, 4)];
    let other = [Said::Numbers(&TWO, 3, 6)];
    let rest = [Said::Numbers(&ONE, 4, 7), Said::Beat(5)];
    let again = [Said::Numbers(&TWO, 6, 8)];
    let steps = [
        at_port(0, first[0], &first, 0, 1),
        // a longer one, of which the part beyond is sent later, and a shorter one
        at_port(0, Said::Numbers(&ONE, 2, 7), &[Said::Beat(2)], 2, 1),
        at_port(0, Said::Numbers(&ONE, 3, 5), &[Said::Beat(3)], 3, 1),
        at_port(0, other[0], &other, 3, 2),
        at_port(0, Said::Beat(5), &rest, 5, 2),
        at_port(0, again[0], &again, 6, 2),
        at_port(0, Said::End, &[Said::End], CLOSED, 0),
    ];
    assert_eq!(rt; steps_done(alloc, &mut distinct, &steps)?, 7);
    Ok(())
}
