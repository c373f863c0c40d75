ghost use Rattle.std.specs.Prelude.{◌≡◌, [], All, length, vec_len, IfOk};
ghost use mathlib.Core.List.{IsPrefix};
ghost use Rattle.gr_turn.specs.Views.{longer};
ghost use Rattle.gr_peek.specs.Entering.{Follows, IsEntered, new_eye};
ghost use Rattle.gr_peek.specs.Publications.{present_after};
ghost use Rattle.gr_member.specs.Fresh.{AreUnused};

use gr_peek::{Eye, EyeList, PeekEnd, Published, Seen, Told, peek};
use gr_value::{Key, Memory};
use std::alloc::Global;
use std::marker::Model;
use std::sync::Wait;

// What a pass looks at a shard's copy with, and the note of its last turn there.
#[derive(Drop)]
pub(crate) struct Watch {
    eye: Eye,
    note: Told,
}

impl Model for Watch {
    ghost use Rattle.std.specs.Prelude.{◌≡◌};
    ghost use mathlib.Core.List.{IsPrefix};
    ghost use Rattle.gr_member.specs.Replicas.{Watched};

    ghost Value = { Watched };

    ghost view = { λ watch. record { eye = watch.eye; noted = watch.note.publications } };

    ghost invariant = { λ watch. (watch.note.copy ≡ watch.eye.copy) × IsPrefix watch.note.publications watch.eye.told };
}

impl Watch {
    // The note is of a copy of which nothing was published.
    pub(crate) fn new(eye: Eye, note: Told) -> Watch
        requires copy { note.copy ≡ eye.copy }
        requires none { note.publications ≡ [] }
        ensures { result ≡ record { eye = eye; noted = [] } }
    {
        Watch { eye, note }
    }

    // Keeps the note of a turn.
    pub(crate) fn keep(&mut self, note: Told)
        requires { note.copy ≡ self.old.eye.copy }
        ensures noted { self.new.noted ≡ note.publications }
        ensures follows { Follows self.old.eye self.new.eye }
    {
        self.eye.learn(&note);
        self.note = note;
    }

    // Keeps the longer of two notes.
    pub(crate) fn meet(&mut self, other: Watch)
        requires { other.eye.copy ≡ self.old.eye.copy }
        ensures noted { self.new.noted ≡ longer self.old.noted other.noted }
        ensures follows { Follows self.old.eye self.new.eye }
    {
        let Watch { eye: _, note } = other;
        if self.note.at() <= note.at() {
            self.keep(note);
        }
    }

    // What is present at the key behind all that was noted.
    pub(crate) fn peek(&mut self, alloc: Global, key: &Key) -> Result<Seen, PeekEnd>
        ensures value { IfOk result (λ seen. seen.value ≡ present_after self.new.eye.known key.now) }
        ensures at { IfOk result (λ seen. seen.at ≡ length self.new.eye.known) }
        ensures behind { IfOk result (λ _. IsPrefix self.new.noted self.new.eye.known) }
        ensures entered { IsEntered result self.old.eye self.new.eye }
        ensures noted { self.new.noted ≡ self.old.noted }
    {
        peek(alloc, &mut self.eye, key)
    }

    // Keeps the note of a turn that is out, and knows what it tells.
    pub(crate) fn reach<R: Wait>(&mut self, rt: &R, note: Told)
        requires { note.copy ≡ self.old.eye.copy }
        ensures noted { self.new.noted ≡ note.publications }
        ensures known { self.new.eye.known ≡ note.publications }
        ensures follows { Follows self.old.eye self.new.eye }
    {
        self.eye.reach(rt, &note);
        self.note = note;
    }
}

// Each eye with a note of a copy of which nothing was published.
pub(crate) fn watches_of(
    alloc: Global,
    published: &Published,
    eyes: EyeList,
) -> Result<Vec<Watch>, Memory>
    requires none { published.now.publications ≡ [] }
    requires each { All (λ eye. eye ≡ new_eye published.now.shown published.now.copy) eyes }
    ensures count { IfOk result (λ watches. vec_len watches ≡ length eyes) }
    ensures each { IfOk result (λ watches. AreUnused (length eyes) published.now.shown published.now.copy watches.items) }
{
    let mut rest = eyes;
    let mut watches = Vec::with_capacity(alloc, rest.len())?;
    while let Some(eye) = rest.pop() {
        watches.push_reserved(Watch::new(eye, published.tell()));
    }
    Ok(watches)
}
