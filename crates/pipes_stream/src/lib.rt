//! Streams: elements, which are tuples with their validity; lists of messages; and what an operator
//! over them is.
#![tactic(auto)]

ghost use Rattle.std.specs.Prelude.{◌≡◌, IfOk};

mod message;
mod operator;
mod watch;

pub use message::Message;
pub use operator::Operator;
use pipes_time::{Interval, Memory};
use pipes_tuple::Tuple;
pub use watch::Watch;

/// An element of a stream: a tuple and the interval in which it is valid.
#[derive(Debug, PartialEq, Eq, Drop)]
pub struct Elem {
    /// What is valid.
    pub tuple: Tuple,
    /// When it is valid.
    pub span: Interval,
}

impl Elem {
    /// An element equal to this one.
    pub fn copy(&self) -> Result<Elem, Memory>
        ensures { IfOk result (λ elem. elem ≡ self.now) }
    {
        Ok(Elem {
            tuple: self.tuple.copy()?,
            span: self.span,
        })
    }
}
