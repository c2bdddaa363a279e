// Whether expressions are within a number of nodes and a depth. No call goes further than its
// budget.
ghost use Rattle.std.specs.Prelude.{◌≡◌, nat_le};
ghost use Rattle.pipes_expr.specs.ExprSize.{expr_nodes, expr_depth, left_over};

use crate::Expr;

/// The most nodes that a plan or an expression has.
pub const MOST_NODES: u32 = 255;

/// The most nodes on a path from a root to a leaf.
pub const MOST_DEPTH: u32 = 32;

impl Expr {
    // What is left of a budget of nodes once the expression has had its part.
    pub(crate) fn spend(&self, left: u32) -> Option<u32>
        ensures { result ≡ left_over left (expr_nodes self.now) }
    {
        if left == 0 {
            return None;
        }
        match self {
            Expr::Col(_) | Expr::Literal(_) => Some(left - 1),
            Expr::Binary(_, a, b) => match a.get().spend(left - 1) {
                Some(rest) => b.get().spend(rest),
                None => None,
            },
            Expr::Not(a) => a.get().spend(left - 1),
        }
    }

    // Whether no path in the expression has more nodes.
    pub(crate) fn is_within(&self, left: u32) -> bool
        ensures { result ≡ nat_le (expr_depth self.now) left }
    {
        if left == 0 {
            return false;
        }
        match self {
            Expr::Col(_) | Expr::Literal(_) => true,
            Expr::Binary(_, a, b) => a.get().is_within(left - 1) && b.get().is_within(left - 1),
            Expr::Not(a) => a.get().is_within(left - 1),
        }
    }
}
