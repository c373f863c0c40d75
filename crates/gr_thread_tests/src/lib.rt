//! Tests of what threads share, and nothing else: a lock, inboxes, a published copy, a member and a run, alone and under threads.
#![tactic(auto)]

#[cfg(test)]
mod member;
#[cfg(test)]
mod peek;
#[cfg(test)]
mod post;
#[cfg(test)]
mod run;
#[cfg(test)]
mod turns;
