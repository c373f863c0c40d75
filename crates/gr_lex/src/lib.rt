//! The tokens of a query's text.
#![tactic(auto)]

mod bytes;
mod fault;
mod lexer;
mod list;
mod scan;
mod token;

pub use fault::LexFault;
pub use lexer::tokens;
pub use list::TokenList;
pub use token::{Symbol, Token, TokenKind};
