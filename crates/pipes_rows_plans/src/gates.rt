// Gates at work: workers that turn their nodes at once, and every node passing its gate.
use crate::boxes::box_of;
use pipes_edge::Gate;
use std::sync::atomic::{AtomicU64, Ordering};
use std::test::Fail;

// Places 0 and 1 each set a flag and wait for the other's, with a limit of looks.
#[derive(Drop)]
struct Meeting {
    flags: [AtomicU64; 2],
    met: AtomicU64,
    passed: AtomicU64,
}

fn new_meeting() -> Meeting {
    Meeting {
        flags: [AtomicU64::new(0), AtomicU64::new(0)],
        met: AtomicU64::new(0),
        passed: AtomicU64::new(0),
    }
}

impl Gate for Meeting {
    fn pass(&self, place: u32) {
        self.passed.fetch_add(1 << (place % 32), Ordering::SeqCst);
        if place >= 2 {
            return;
        }
        self.flags[place as usize].store(1, Ordering::SeqCst);
        for _ in 0..200_000_000u64 {
            if self.flags[1 - place as usize].load(Ordering::SeqCst) == 1 {
                self.met.fetch_add(1, Ordering::SeqCst);
                return;
            }
        }
    }
}

#[test]
fn two_workers_meet(rt: HostRuntime) -> Result<(), Fail> {
    let mut b = box_of(rt.alloc(), "plan filter((0 < $0), a)", 4)?;
    let gate = new_meeting();
    b.round(&rt, 2, &gate)?;
    assert_eq!(rt; gate.met.load(Ordering::SeqCst), 2);
    Ok(())
}

// A round passes the gate once with the number of each node.
#[test]
fn each_node_passes_the_gate(rt: HostRuntime) -> Result<(), Fail> {
    let plan = "plan map([($0 + 1)], union(filter((0 < $0), a), b))";
    let mut b = box_of(rt.alloc(), plan, 4)?;
    let gate = new_meeting();
    gate.flags[0].store(1, Ordering::SeqCst);
    gate.flags[1].store(1, Ordering::SeqCst);
    b.round(&rt, 1, &gate)?;
    assert_eq!(rt; gate.passed.load(Ordering::SeqCst), 31);
    Ok(())
}
