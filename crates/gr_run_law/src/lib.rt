//! Runs: which records threads may leave, why what they do leaves one, and what such records have.
#![tactic(auto)]

mod laws;

pub use laws::{
    a_small_run_is_left_by_threads, bad_runs_break_the_clauses, lawful_runs_are_closed,
    records_of_runs_keep_the_laws, threads_leave_a_lawful_run, what_threads_leave_grows,
};
