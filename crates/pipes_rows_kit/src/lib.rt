//! What worked examples of operators and plans are written in: messages in short, and steps of an
//! operator with what is to come of each.
#![tactic(auto)]

mod messages;

pub use messages::{
    Cell, Said, Step, are_wanted, at_port, cells, message, row, schema, sent, steps_done,
};
