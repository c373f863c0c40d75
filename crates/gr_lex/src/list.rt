ghost use Rattle.std.specs.Prelude.{◌≡◌, [], ◌∷◌, ◌++◌, length, slice_get, IfOk, IfErr, OnOk, OnErr, option_copied};
ghost use Rattle.gr_lex.specs.declared.fault.LexFault.TheVariants.{Memory};

use crate::{LexFault, Token};
use std::alloc::Global;
use std::marker::Model;

/// The tokens of a text, which contracts see as a list.
#[derive(Drop)]
pub struct TokenList {
    entries: Vec<Token>,
}

impl Model for TokenList {
    ghost use Rattle.std.specs.Prelude.{List};
    ghost use Rattle.gr_lex.specs.declared.token.Token.{Token};

    ghost Value = { List Token };

    ghost view = { λ list. list.entries.items };
}

impl TokenList {
    /// The list with no tokens.
    pub fn new(alloc: Global) -> Result<TokenList, LexFault>
        ensures ok { IfOk result (λ list. list ≡ []) }
        ensures err { IfErr result (λ fault. fault ≡ Memory) }
    {
        Ok(TokenList {
            entries: Vec::new(alloc),
        })
    }

    /// Puts one token last.
    pub fn push(&mut self, token: Token) -> Result<(), LexFault>
        ensures ok { OnOk result (self.new ≡ self.old ++ token ∷ []) }
        ensures err { OnErr result (self.new ≡ self.old) }
        ensures fault { IfErr result (λ fault. fault ≡ Memory) }
    {
        self.entries.push(token)?;
        Ok(())
    }

    pub fn len(&self) -> usize
        ensures { result ≡ length self.now }
    {
        self.entries.len()
    }

    /// The token at a place, counted from 0.
    pub fn get(&self, place: usize) -> Option<&Token>
        ensures { option_copied result ≡ slice_get self.now place }
    {
        self.entries.get(place)
    }

    /// All tokens, in order.
    pub fn as_slice(&self) -> &[Token]
        ensures { result.now ≡ self.now }
    {
        self.entries.as_slice()
    }

    pub fn copy(&self, alloc: Global) -> Result<TokenList, LexFault>
        ensures ok { IfOk result (λ copy. copy ≡ self.now) }
        ensures err { IfErr result (λ fault. fault ≡ Memory) }
    {
        Ok(TokenList {
            entries: Vec::from_slice(alloc, self.entries.as_slice()).map_err(|_| LexFault::Memory)?,
        })
    }
}
