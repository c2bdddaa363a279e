// The links between the nodes of one list.
ghost use Rattle.std.specs.Prelude.{◌≡◌, ◌<◌, ◌≤◌, ℕ, ◌+◌, List, length, get_or};
ghost use Rattle.pipes_node.specs.declared.port.Port.{Port};
ghost use Rattle.pipes_box.specs.Networks.{IsLinked, PortSettled, SettlesPorts};

use pipes_link::settle;
use pipes_node::Node;

// Settles the link of one port of one node.
fn settle_port(nodes: &mut [Node], parent: usize, port: usize)
    requires in_range { parent < length nodes.old }
    requires has_port { (d : Node) → port < length (get_or nodes.old parent d).ports.items }
    requires linked { IsLinked nodes.old }
    ensures { PortSettled nodes.old nodes.new parent port }
{
    let child = nodes[parent].ports[port].child;
    let (earlier, rest) = nodes.split_at_mut(parent);
    let above = &mut rest[0];
    settle(&mut earlier[child].outlet, &mut above.ports[port].inlet);
}

// Settles the links of a node's ports.
fn settle_ports(nodes: &mut [Node], parent: usize)
    requires in_range { parent < length nodes.old }
    requires linked { IsLinked nodes.old }
    ensures settles { (first : List Node) → SettlesPorts first nodes.old parent 0
        → SettlesPorts first nodes.new (parent + 1) 0 }
    ensures count { length nodes.new ≡ length nodes.old }
    ensures linked { IsLinked nodes.new }
{
    for port in 0..nodes[parent].ports.as_slice().len() {
        settle_port(nodes, parent, port);
    }
}

// Settles the link of each port.
#[tactic(auto, using(crate::proofs::Looks::settles_none))]
pub(crate) fn settle_all(nodes: &mut [Node])
    requires { IsLinked nodes.old }
    ensures { SettlesPorts nodes.old nodes.new (length nodes.old) 0 }
{
    for parent in 0..nodes.len() {
        settle_ports(nodes, parent);
    }
}
