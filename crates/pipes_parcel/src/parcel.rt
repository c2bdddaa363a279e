// What a feeder's link carries.
use pipes_stream::Elem;

/// A part of an element, for the box of one epoch.
#[derive(Debug, PartialEq, Eq, Drop)]
pub struct Parcel {
    /// The epoch, counted from 0.
    pub epoch: u32,
    /// The part.
    pub elem: Elem,
}

/// A message of a feeder's link. The messages of a link are a list.
#[derive(Debug, PartialEq, Eq, Drop)]
pub enum Fed {
    /// A part of an element.
    Part(Parcel),
    /// The heartbeat of the source's window from here on: no later part starts below it.
    Beat(u64),
    /// The source has ended: nothing follows.
    End,
}
