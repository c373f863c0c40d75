ghost use Rattle.std.specs.Prelude.{◌≡◌, length, Some, IfOk, IfErr};
ghost use mathlib.Core.List.{IsPrefix};
ghost use Rattle.left_right.specs.Sides.{view};
ghost use Rattle.gr_peek.specs.Publications.{present_after, AddsNoTurn};
ghost use Rattle.gr_peek.specs.Rule.{IsShown};
ghost use Rattle.gr_peek.specs.declared.eye.PeekEnd.TheVariants as end;
ghost use Rattle.gr_peek.specs.Entering.{IsDenied, IsEntered, Follows, longer};

use super::{Eye, PeekEnd, Seen, StoreReader};
use crate::rule::{See, Shows};
use crate::store::Store;
use crate::told::{CopyName, Told};
use gr_value::{Key, Memory, Value};
use left_right::reader::Reading;
use std::alloc::Global;
use std::sync::Wait;
use std::thread;

type StoreReading = Reading<Store, Option<CopyName>, Shows>;

// Enters the copy once. It is refused too where a turned key that was told isn't shown, which never happens.
fn enter(reader: StoreReader, least: &Told) -> Result<StoreReading, StoreReader>
    requires { view reader.place ≡ Some least.now.copy }
    ensures view { IfOk result (λ reading. view reading.place ≡ Some least.now.copy) }
    ensures copy { IfOk result (λ reading. reading.part.value.told.copy ≡ least.now.copy) }
    ensures shown { IfOk result (λ reading. IsShown reading.part.value) }
    ensures turns { IfOk result (λ reading. let told = reading.part.value.told.publications in AddsNoTurn told (longer least.now.publications told)) }
    ensures err { IfErr result (λ reader. view reader.place ≡ Some least.now.copy) }
{
    let reading = match reader.enter_as::<See>() {
        Ok(reading) => reading,
        Err(reader) => return Err(reader),
    };
    if reading.get().told.shows(least) {
        Ok(reading)
    } else {
        Err(reading.leave())
    }
}

impl Eye {
    /// Keeps a note. What the eye knows stays as it is, until it enters again.
    pub fn learn(&mut self, told: &Told)
        requires { told.now.copy ≡ self.old.copy }
        ensures rest { self.new ≡ record self.old { told = longer self.old.told told.now.publications } }
        ensures before { IsPrefix self.old.told self.new.told }
        ensures learnt { IsPrefix told.now.publications self.new.told }
    {
        self.told = self.told.longer(told);
    }

    // Enters once, and looks at the key.
    fn enter(&mut self, alloc: Global, key: &Key) -> Result<Option<Value>, PeekEnd>
        ensures seen { IfOk result (λ value. value ≡ present_after self.new.known key.now) }
        ensures entered { IsEntered result self.old self.new }
        ensures stays { self.new.copy ≡ self.old.copy }
    {
        let Some(reader) = self.reader.take() else {
            return Err(self.deny());
        };
        match enter(reader, &self.told) {
            Ok(reading) => {
                let store = reading.get();
                let value = store.value(alloc, key);
                self.told = self.told.longer(&store.told);
                self.known = self.told.again();
                self.reader = Some(reading.leave());
                match value {
                    Ok(value) => Ok(value),
                    Err(Memory) => Err(PeekEnd::Memory),
                }
            }
            Err(reader) => {
                self.reader = Some(reader);
                Err(self.deny())
            }
        }
    }

    // Counts an entering that was refused.
    fn deny(&mut self) -> PeekEnd
        ensures end { result ≡ end.Denied }
        ensures denied { IsDenied self.old self.new }
    {
        self.denied = self.denied.saturating_add(1);
        PeekEnd::Denied
    }

    /// Takes over a note of all that was published, without an entering. It waits where more was told than
    /// the note tells, which never happens.
    pub fn reach<R: Wait>(&mut self, rt: &R, note: &Told)
        requires { note.now.copy ≡ self.old.copy }
        ensures reached { self.new ≡ record self.old { known = note.now.publications; told = note.now.publications } }
        ensures follows { Follows self.old self.new }
    {
        for _ in rt.forever() {
            if note.reaches(&self.told) {
                self.known = note.again();
                self.told = note.again();
                return;
            }
            thread::yield_now();
        }
        unreachable!()
    }
}

/// Enters the copy once, and never waits. It tells what is present at the key after the publications
/// that the eye then knows, and how many they are.
pub fn peek(alloc: Global, eye: &mut Eye, key: &Key) -> Result<Seen, PeekEnd>
    ensures value { IfOk result (λ seen. seen.value ≡ present_after eye.new.known key.now) }
    ensures at { IfOk result (λ seen. seen.at ≡ length eye.new.known) }
    ensures entered { IsEntered result eye.old eye.new }
    ensures stays { eye.new.copy ≡ eye.old.copy }
{
    let value = eye.enter(alloc, key)?;
    Ok(Seen {
        value,
        at: eye.known.at(),
    })
}
