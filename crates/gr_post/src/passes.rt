ghost use Rattle.std.specs.Prelude.{◌≡◌, [], ◌∷◌, ◌++◌, length, slice_get, IfOk, IfErr, IfNone, option_copied};
ghost use Rattle.std.specs.Option.{option_to_list};

use crate::mail::Posted;
use crate::view::View;
use crossbeam_queue::Pass;
use gr_value::Memory;
use std::alloc::Global;
use std::marker::Model;

/// The leave to send to one inbox.
#[derive(Drop)]
pub struct SendPass {
    pub(crate) token: Pass<Posted, View>,
    pub(crate) number: u32,
    pub(crate) refused: u64,
}

impl Model for SendPass {
    ghost use Rattle.gr_post.specs.Passes.{Sending, IsSender, sending};

    ghost Value = { Sending };

    ghost view = { λ pass. sending pass.token pass.number pass.refused };

    ghost invariant = { λ pass. IsSender pass.token pass.number };
}

/// The leave to take from one inbox.
#[derive(Drop)]
pub struct TakePass {
    pub(crate) token: Pass<Posted, View>,
    pub(crate) sender: u32,
}

impl Model for TakePass {
    ghost use Rattle.gr_post.specs.Passes.{Taking, IsTaker, taking};

    ghost Value = { Taking };

    ghost view = { λ pass. taking pass.token pass.sender };

    ghost invariant = { λ pass. IsTaker pass.token };
}

impl SendPass {
    /// The sender's number, of which the first is 0.
    pub fn number(&self) -> u32
        ensures { result ≡ self.now.number }
    {
        self.number
    }

    /// How often the inbox was full.
    pub fn refused(&self) -> u64
        ensures { result ≡ self.now.refused }
    {
        self.refused
    }
}

impl TakePass {
    /// The number of the sender of the mail that was taken last, and 0 before the first.
    pub fn sender(&self) -> u32
        ensures { result ≡ self.now.sender }
    {
        self.sender
    }
}

/// A list of passes of senders, which contracts see as that list.
#[derive(Drop)]
pub struct SendPassList {
    pub(crate) passes: Vec<SendPass>,
}

impl Model for SendPassList {
    ghost use Rattle.std.specs.Prelude.{List};
    ghost use Rattle.gr_post.specs.Passes.{Sending};

    ghost Value = { List Sending };

    ghost view = { λ list. list.passes.items };
}

impl SendPassList {
    /// The list with no passes.
    pub fn new(alloc: Global) -> Result<SendPassList, Memory>
        ensures { IfOk result (λ list. list ≡ []) }
    {
        let passes = Vec::new(alloc);
        Ok(SendPassList { passes })
    }

    /// Puts one pass last. Where memory is refused the pass is dropped.
    pub fn push(&mut self, pass: SendPass) -> Result<(), Memory>
        ensures ok { IfOk result (λ _. self.new ≡ self.old ++ pass ∷ []) }
        ensures err { IfErr result (λ _. self.new ≡ self.old) }
    {
        self.passes.push(pass)?;
        Ok(())
    }

    pub fn len(&self) -> usize
        ensures { result ≡ length self.now }
    {
        self.passes.len()
    }

    /// The pass at a place, counted from 0.
    pub fn get(&self, place: usize) -> Option<&SendPass>
        ensures { option_copied result ≡ slice_get self.now place }
    {
        self.passes.get(place)
    }

    pub(crate) fn into_vec(self) -> Vec<SendPass>
        ensures { result.items ≡ self }
    {
        self.passes
    }

    /// Takes the last pass out.
    pub fn pop(&mut self) -> Option<SendPass>
        ensures pass { self.old ≡ self.new ++ option_to_list result }
        ensures none { IfNone result (self.old ≡ []) }
    {
        self.passes.pop()
    }
}
