// Numbers summed up over the nodes of a box.
ghost use Rattle.std.specs.Prelude.{◌≡◌, ◌≤◌, ◌<◌, ◌-◌, ◌^◌, ℕ, length, get_or, min, false};
ghost use Rattle.std.specs.List.{sum_by};
ghost use Rattle.pipes_node.specs.Nodes.{held_in, total_ready};
ghost use Rattle.pipes_box.specs.Backlog.{lowered_first, known_backlog, sum_at};
ghost use Rattle.pipes_node.specs.Nodes.{pends_with};

use pipes_node::Node;

// Whether memory was refused to a node.
pub(crate) fn has_failed(nodes: &[Node]) -> bool
    ensures { result ≡ false → (k : ℕ) (d : Node) → k < length nodes.now
        → (get_or nodes.now k d).failed ≡ false }
{
    for k in 0..nodes.len() {
        if nodes[k].failed {
            return true;
        }
    }
    false
}

// How many messages moved in the nodes' last turns, clamped to 64 bits.
pub(crate) fn total_moved(nodes: &[Node]) -> u64
    ensures { result ≡ min (sum_by (λ n. n.moved) nodes.now) (2 ^ 64 - 1) }
{
    let mut moved: u64 = 0;
    for node in nodes {
        moved = moved.saturating_add(node.moved);
    }
    moved
}

// How many elements the nodes' operators keep, clamped to 64 bits.
pub(crate) fn total_held(nodes: &[Node]) -> u64
    ensures { result ≡ min (sum_by (λ n. held_in n.operator) nodes.now) (2 ^ 64 - 1) }
{
    let mut held: u64 = 0;
    for node in nodes {
        held = held.saturating_add(node.held());
    }
    held
}

// The earlier of two places.
fn earlier(a: u32, b: u32) -> u32
    ensures { result ≡ min a b }
{
    a.min(b)
}

// The place of the first number of the backlog that the nodes' last turns lowered, 64 where none.
pub(crate) fn first_lowered(nodes: &[Node]) -> u32
    requires { (k : ℕ) (d : Node) → k < length nodes.now → (get_or nodes.now k d).depth ≤ 31 }
    ensures { result ≡ lowered_first nodes.now }
{
    let mut place = 64;
    for node in nodes {
        place = earlier(place, node.place_lowered());
    }
    place
}

// How many messages the nodes at this depth know to wait at their ports.
fn total_waiting(nodes: &[Node], depth: u32) -> u128
    requires { (k : ℕ) (d : Node) → k < length nodes.now
        → length (get_or nodes.now k d).ports.items ≤ 2 }
    ensures { result ≡ sum_at depth (λ n. total_ready n.ports.items) nodes.now }
{
    let mut total: u128 = 0;
    for node in nodes {
        total += node.ready_at(depth) as u128;
    }
    total
}

// How many messages are pending with the nodes at this depth.
fn total_pending(nodes: &[Node], depth: u32) -> u128
    ensures { result ≡ sum_at depth pends_with nodes.now }
{
    let mut total: u128 = 0;
    for node in nodes {
        total += node.pending_at(depth) as u128;
    }
    total
}

// The number at a place of the backlog, as far as the nodes know what waits.
pub(crate) fn number_at(nodes: &[Node], place: u32) -> u128
    requires in_range { place < 64 }
    requires few { (k : ℕ) (d : Node) → k < length nodes.now
        → length (get_or nodes.now k d).ports.items ≤ 2 }
    ensures { result ≡ known_backlog nodes.now place }
{
    let depth = 31 - place / 2;
    if place % 2 == 0 {
        return total_waiting(nodes, depth);
    }
    total_pending(nodes, depth)
}
