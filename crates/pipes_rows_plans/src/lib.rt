//! Worked examples of links and of plans at work. It has tests alone.
#![tactic(auto)]

#[cfg(test)]
mod acts;
#[cfg(test)]
mod boxes;
#[cfg(test)]
mod gates;
#[cfg(test)]
mod kinds;
#[cfg(test)]
mod links;
