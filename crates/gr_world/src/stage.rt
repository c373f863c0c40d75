use gr_script::Script;
use std::alloc::Global;

/// The script that is played, and what allocates for it.
#[derive(Clone, Copy)]
pub struct Stage<'a> {
    pub alloc: Global,
    pub script: &'a Script,
}
