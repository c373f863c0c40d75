//! Tests of single calls, and nothing else: what no clause says, and values from outside.
#![tactic(auto)]

#[cfg(test)]
mod lexing;
#[cfg(test)]
mod routing;
#[cfg(test)]
mod shard;
#[cfg(test)]
mod sharing;
#[cfg(test)]
mod slots;
#[cfg(test)]
mod stability;
#[cfg(test)]
mod stamps;
#[cfg(test)]
mod steps;
#[cfg(test)]
mod streams;
#[cfg(test)]
mod values;
#[cfg(test)]
mod vectors;
