//! What the messages of a feeder give to a plan while no split is known: laws alone.
#![tactic(auto)]

ghost use Rattle.pipes_supply.specs.Supply.{SuppliedSoFar, SuppliedAtEnd, AllIsEnded};

// The laws are about the messages of a feeder's link.
pub use pipes_parcel::Fed;

/// The messages of a source's arrivals, while no split is known, may come one after another; below
/// their heartbeat they hold the rows that are valid, whatever arrives later; and with the messages
/// of the end, the source has ended: laws, and nothing to run.
pub fn feeders_supply()
    ensures so_far { SuppliedSoFar }
    ensures at_end { SuppliedAtEnd }
    ensures all { AllIsEnded }
{}
