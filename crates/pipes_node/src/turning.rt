// A turn of each node, by one thread or several.
ghost use Rattle.std.specs.Prelude.{◌≡◌, ◌≤◌, ◌<◌, ℕ, All, length, get_or};
ghost use Rattle.pipes_node.specs.Nodes.{IsCounted, NodeTurned};

use crate::node::Node;
use pipes_edge::Gate;
use std::thread;
use std::thread::Threads;

// One turn. What moved, and whether memory was refused, is kept in the node.
fn turn_one<G: Gate>(node: &mut Node, gate: &G)
    requires { IsCounted node.old }
    ensures { NodeTurned node.old node.new }
{
    let _moved = node.turn(gate);
}

// One turn of each node, one after another.
fn turn_here<G: Gate>(nodes: &mut [Node], gate: &G)
    requires { All IsCounted nodes.old }
    ensures count { length nodes.new ≡ length nodes.old }
    ensures turned { (k : ℕ) (d : Node) → k < length nodes.old
        → NodeTurned (get_or nodes.old k d) (get_or nodes.new k d) }
{
    for k in 0..nodes.len() {
        turn_one(&mut nodes[k], gate);
    }
}

/// One turn of each node: on this thread where there is one worker, and otherwise shared out among
/// at most so many threads.
pub fn turn_all<R: Threads + Sync, G: Gate>(rt: &R, nodes: &mut [Node], workers: u32, gate: &G)
    requires some { 1 ≤ workers }
    requires counted { All IsCounted nodes.old }
    ensures count { length nodes.new ≡ length nodes.old }
    ensures turned { (k : ℕ) (d : Node) → k < length nodes.old
        → NodeTurned (get_or nodes.old k d) (get_or nodes.new k d) }
{
    if workers == 1 {
        turn_here(nodes, gate);
        return;
    }
    thread::for_each_mut(
        rt,
        nodes,
        workers as usize,
        &|_, node: &mut Node|
            requires { IsCounted node.now }
            ensures { NodeTurned node.entry.now node.exit.now }
        { turn_one(node, gate) },
    );
}
