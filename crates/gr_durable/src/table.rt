ghost use Rattle.std.specs.Prelude.{◌≡◌};

use gr_history::{Row, RowList};
use gr_value::{ItemList, Key};

/// What a client holds of one of its queries.
#[derive(Drop)]
pub struct Table {
    pub(crate) client: u8,
    pub(crate) name: Key,
    pub(crate) rows: RowList,
}

pub type TableList = ItemList<Table>;

impl Table {
    pub fn client(&self) -> u8
        ensures { result ≡ self.now.client }
    {
        self.client
    }

    /// What the client calls the query.
    pub fn name(&self) -> &Key
        ensures { result.now ≡ self.now.name }
    {
        &self.name
    }

    /// The rows, in the order of their keys.
    pub fn rows(&self) -> &[Row]
        ensures { result.now ≡ self.now.rows }
    {
        self.rows.as_slice()
    }
}
