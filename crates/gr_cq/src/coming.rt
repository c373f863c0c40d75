use gr_oql::{Query, Turned};
use gr_value::Key;

/// A call that is coming.
#[derive(Drop)]
pub enum Coming<'a> {
    Enrol {
        client: u8,
        name: &'a Key,
        query: &'a Query,
    },
    Take {
        client: u8,
        name: &'a Key,
    },
    Note {
        turned: &'a [Turned],
    },
}
