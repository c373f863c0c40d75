//! Tests of the programs' own calls, and nothing else: words and streams in memory, what goes on at one time in a
//! run, and what can't be drawn.
#![tactic(auto)]

#[cfg(test)]
mod gates;
#[cfg(test)]
mod pictures;
#[cfg(test)]
mod words;
