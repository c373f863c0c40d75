//! Laws of the histories of several members at one shard.
#![tactic(auto)]

mod laws;

pub use laws::{
    a_small_record_is_whole, bad_records_break_the_laws, laws_of_parted_records, laws_of_queries,
    laws_of_sound_records, laws_of_whole_records,
};
