//! Keys, values, and what every crate above shares: want of memory, lists, and copies.
#![tactic(auto)]

mod copied;
mod drawing;
mod escapes;
mod fault;
mod fields;
mod hash;
mod key;
mod list;
mod lone;
mod memory;
mod near;
mod numerals;
mod plain;
mod printing;
mod reading;
mod scalar;
mod shared;
mod text;
mod value;

pub use copied::Copied;
pub use drawing::drawn;
pub use fault::{KeyFault, ValueFault};
pub use key::{Key, KeyList};
pub use list::ItemList;
pub use memory::Memory;
pub use printing::values_print_on_one_line;
pub use reading::values_read_back;
pub use scalar::Scalar;
pub use shared::Shared;
pub use text::Text;
pub use value::{Field, Value};
