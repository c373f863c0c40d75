ghost use Rattle.std.specs.Prelude.{◌≡◌, ◌+◌, [], ◌∷◌, ◌++◌, true, false, if◌then◌else◌, is_ok, drop, fold, length, Some, IsErr, None, OnOk, OnErr};
ghost use Rattle.left_right.specs.Sides.{view as view_of};
ghost use Rattle.gr_peek.specs.Rule.{after, IsShown};
ghost use Rattle.gr_peek.specs.Writing.{steps_of, IsAt};

use crate::log::Grow;
use crate::rule::{See, Shows};
use crate::store::{Step, Store};
use crate::told::{CopyName, Head, Told};
use gr_cq::Turned;
use gr_value::{ItemList, Memory};
use left_right::writer::Writer;
use logbook::Plain;
use std::alloc::{AllocError, Global};
use std::marker::Model;
use std::sync::Wait;

pub(crate) type StoreWriter = Writer<Store, Step, Option<CopyName>, Shows>;

/// What publishes. It is never dropped: `end` takes it apart. Contracts see which copy it is, whether eyes
/// are shown it, the publications, the oldest first, and whether memory was refused, after which nothing is
/// published. A copy that isn't shown counts its publications alone.
pub struct Published {
    pub(crate) writer: Option<StoreWriter>,
    pub(crate) head: Head,
    pub(crate) told: Told,
    pub(crate) halted: bool,
}

impl Model for Published {
    ghost use Rattle.std.specs.Prelude.{◌≡◌, drop, is_some, IfSome};
    ghost use Rattle.left_right.specs.Sides.{view as view_of};
    ghost use Rattle.gr_peek.specs.Views.{Publishing};
    ghost use Rattle.gr_peek.specs.Log.{head_of};
    ghost use Rattle.gr_peek.specs.Writing.{IsAt};

    ghost Value = { Publishing };

    ghost view = { λ p. record { copy = p.told.copy; shown = is_some p.writer; publications = p.told.publications; halted = p.halted } };

    ghost invariant = { λ p. (p.head ≡ head_of p.told.copy)
        × IfSome p.writer (λ w. IsAt p.told w.desk.shown.value (view_of w.desk.place) (drop w.behind w.log.items) p.halted) };
}

fn append(writer: &mut StoreWriter, step: Step) -> Result<(), Memory>
    ensures desk { writer.new.desk ≡ writer.old.desk }
    ensures laid { OnOk result (drop writer.new.behind writer.new.log.items ≡ drop writer.old.behind writer.old.log.items ++ step ∷ []) }
{
    match writer.append(step) {
        Ok(()) => Ok(()),
        Err(_) => Err(Memory),
    }
}

// Lays out what a publication does.
fn lay_out(
    writer: &mut StoreWriter,
    alloc: Global,
    turned: &[Turned],
    told: Told,
) -> Result<(), Memory>
    ensures desk { writer.new.desk ≡ writer.old.desk }
    ensures laid { OnOk result (drop writer.new.behind writer.new.log.items ≡ drop writer.old.behind writer.old.log.items ++ steps_of turned.now told) }
{
    for one in turned {
        append(writer, Step::turn(alloc, one)?)?;
    }
    append(writer, Step::Close { told })
}

/// Shows readers all that is laid out. Where memory is refused they see what they saw.
pub(crate) fn send<R: Wait>(writer: StoreWriter, rt: &R) -> (StoreWriter, Result<(), AllocError>)
    requires shown { IsShown (fold after writer.desk.shown.value (drop writer.behind writer.log.items)) }
    requires copy { (fold after writer.desk.shown.value (drop writer.behind writer.log.items)).told.copy ≡ writer.desk.shown.value.told.copy }
    ensures ok { OnOk result.1 (result.0.desk.shown.value ≡ fold after writer.desk.shown.value (drop writer.behind writer.log.items)) }
    ensures sent { OnOk result.1 (drop result.0.behind result.0.log.items ≡ []) }
    ensures named { OnOk result.1 (view_of result.0.desk.place ≡ Some result.0.desk.shown.value.told.copy) }
    ensures err { OnErr result.1 ((result.0.desk.shown.value ≡ writer.desk.shown.value) × (view_of result.0.desk.place ≡ view_of writer.desk.place)) }
{
    writer.publish_as::<See, R>(rt)
}

// Sends one publication more. Once it is sent the next is told.
fn publish_on<R: Wait>(
    mut writer: StoreWriter,
    rt: &R,
    alloc: Global,
    turned: &[Turned],
    told: &mut Told,
    next: Told,
) -> (StoreWriter, Result<(), Memory>)
    requires at { IsAt told.old writer.desk.shown.value (view_of writer.desk.place) (drop writer.behind writer.log.items) false }
    requires copy { next.copy ≡ told.old.copy }
    requires next { next.publications ≡ told.old.publications ++ turned.now ∷ [] }
    ensures told { told.new ≡ if is_ok result.1 then next else told.old }
    ensures ok { OnOk result.1 (IsAt next result.0.desk.shown.value (view_of result.0.desk.place) (drop result.0.behind result.0.log.items) false) }
    ensures err { OnErr result.1 (IsAt told.old result.0.desk.shown.value (view_of result.0.desk.place) (drop result.0.behind result.0.log.items) true) }
{
    if lay_out(&mut writer, alloc, turned, next.again()).is_err() {
        return (writer, Err(Memory));
    }
    let (writer, sent) = send(writer, rt);
    match sent {
        Ok(()) => {
            *told = next;
            (writer, Ok(()))
        }
        Err(_) => (writer, Err(Memory)),
    }
}

// The writer is back in its place, which is empty.
fn put_back(place: &mut Option<StoreWriter>, writer: StoreWriter)
    requires { place.old ≡ None }
    ensures { place.new ≡ Some writer }
{
    match place.replace(writer) {
        None => {}
        Some(_) => unreachable!(),
    }
}

impl Published {
    /// Whether eyes are shown it.
    pub fn is_shown(&self) -> bool
        ensures { result ≡ self.now.shown }
    {
        self.writer.is_some()
    }

    /// Adds one publication, the turned keys of a deed, which is the `at`-th. One that turns no key isn't
    /// sent, since the entries stay as they are: the next that turns one tells it too. Where memory is refused
    /// what was published stays, and nothing is published any more.
    pub fn publish<R: Wait>(
        &mut self,
        rt: &R,
        alloc: Global,
        turned: &[Turned],
        at: u64,
    ) -> Result<(), Memory>
        requires { at ≡ length self.old.publications + 1 }
        ensures ok { OnOk result (self.new ≡ record self.old { publications = self.old.publications ++ turned.now ∷ [] }) }
        ensures err { OnErr result (self.new ≡ record self.old { halted = true }) }
        ensures halted { self.old.halted ≡ true → IsErr result }
    {
        if self.halted {
            return Err(Memory);
        }
        let turns = !turned.is_empty();
        let Some(told) = self
            .told
            .grown::<&[Turned], Grow>(&self.head, &turned, at, turns)
        else {
            self.halted = true;
            return Err(Memory);
        };
        if !turns {
            self.told = told;
            return Ok(());
        }
        let Some(writer) = self.writer.take() else {
            self.told = told;
            return Ok(());
        };
        let (writer, sent) = publish_on(writer, rt, alloc, turned, &mut self.told, told);
        put_back(&mut self.writer, writer);
        match sent {
            Ok(()) => Ok(()),
            Err(_) => {
                self.halted = true;
                Err(Memory)
            }
        }
    }

    /// Counts one publication more, the `at`-th, of a copy that isn't shown: the turned keys that are asked of
    /// what is at hand, for contracts alone. This takes no memory, and it never waits, since nobody else counts.
    pub fn count<R: Wait, X, M: Plain<X, ItemList<Turned>, u64>>(
        &mut self,
        rt: &R,
        about: &X,
        at: u64,
    )
        requires unseen { self.old.shown ≡ false }
        requires next { at ≡ length self.old.publications + 1 }
        requires plain { M.state about.now ≡ None }
        ensures { self.new ≡ record self.old { publications = self.old.publications ++ M.ask about.now ∷ [] } }
    {
        for _ in rt.forever() {
            // What is asked is for contracts alone, so it may turn a key.
            if let Some(told) = self.told.grown::<X, M>(&self.head, about, at, true) {
                self.told = told;
                return;
            }
        }
        unreachable!()
    }

    /// A note of all that was published so far.
    pub fn tell(&self) -> Told
        ensures { result ≡ record { copy = self.now.copy; publications = self.now.publications } }
    {
        self.told.again()
    }

    /// Takes the copy apart. It waits for the eyes that look just then; from then on they are denied.
    pub fn end<R: Wait>(self, rt: &R) {
        let Published {
            writer,
            head: _head,
            told: _told,
            halted: _,
        } = self;
        if let Some(writer) = writer {
            drop(writer.take(rt));
        }
    }
}
