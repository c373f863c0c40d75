ghost use Rattle.std.specs.Prelude.{◌≡◌, [], true, false, length, Some, All, IfOk, drop};
ghost use Rattle.left_right.specs.Sides.{view};
ghost use Rattle.gr_peek.specs.Entering.{new_eye};

use crate::eye::{Eye, EyeList};
use crate::published::{Published, StoreWriter, send};
use crate::rule::Name;
use crate::store::Store;
use crate::told::Told;
use gr_value::Memory;
use left_right::writer::Writer;
use std::alloc::Global;
use std::sync::Wait;

// An eye that knows of no publication yet.
fn open_eye(writer: &mut StoreWriter, told: &Told) -> Result<Eye, Memory>
    requires named { view writer.old.desk.place ≡ Some told.now.copy }
    requires none { told.now.publications ≡ [] }
    ensures eye { IfOk result (λ eye. eye ≡ new_eye true told.now.copy) }
    ensures shown { writer.new.desk.shown ≡ writer.old.desk.shown }
    ensures view { view writer.new.desk.place ≡ view writer.old.desk.place }
    ensures laid { drop writer.new.behind writer.new.log.items ≡ drop writer.old.behind writer.old.log.items }
{
    let mut reader = writer.factory().reader()?;
    let note = writer.tell::<Name>();
    reader.learn::<Name>(note);
    Ok(Eye {
        reader: Some(reader),
        known: told.again(),
        told: told.again(),
        denied: 0,
    })
}

fn open_eyes(
    writer: &mut StoreWriter,
    alloc: Global,
    told: &Told,
    eyes: u32,
) -> Result<EyeList, Memory>
    requires named { view writer.old.desk.place ≡ Some told.now.copy }
    requires none { told.now.publications ≡ [] }
    ensures count { IfOk result (λ list. length list ≡ eyes) }
    ensures each { IfOk result (λ list. All (λ eye. eye ≡ new_eye true told.now.copy) list) }
    ensures shown { writer.new.desk.shown ≡ writer.old.desk.shown }
    ensures view { view writer.new.desk.place ≡ view writer.old.desk.place }
    ensures laid { drop writer.new.behind writer.new.log.items ≡ drop writer.old.behind writer.old.log.items }
{
    let mut list = EyeList::new(alloc)?;
    for _k in 0..eyes {
        list.push(open_eye(writer, told)?)?;
    }
    Ok(list)
}

// Eyes of a copy that isn't shown.
fn closed_eyes(alloc: Global, told: &Told, eyes: u32) -> Result<EyeList, Memory>
    requires none { told.now.publications ≡ [] }
    ensures count { IfOk result (λ list. length list ≡ eyes) }
    ensures each { IfOk result (λ list. All (λ eye. eye ≡ new_eye false told.now.copy) list) }
{
    let mut list = EyeList::new(alloc)?;
    for _k in 0..eyes {
        list.push(Eye {
            reader: None,
            known: told.again(),
            told: told.again(),
            denied: 0,
        })?;
    }
    Ok(list)
}

impl Published {
    /// A copy of which nothing is published, with so many eyes. Where it isn't shown they may not enter it,
    /// and it keeps nothing to look at.
    pub fn new<R: Wait>(
        rt: &R,
        alloc: Global,
        eyes: u32,
        shown: bool,
    ) -> Result<(Published, EyeList), Memory>
        ensures new { IfOk result (λ made. (made.0.shown ≡ shown) × (made.0.publications ≡ []) × (made.0.halted ≡ false)) }
        ensures count { IfOk result (λ made. length made.1 ≡ eyes) }
        ensures each { IfOk result (λ made. All (λ eye. eye ≡ new_eye shown made.0.copy) made.1) }
    {
        if shown {
            Published::open(rt, alloc, eyes)
        } else {
            Published::unseen(alloc, eyes)
        }
    }

    // One that isn't shown.
    fn unseen(alloc: Global, eyes: u32) -> Result<(Published, EyeList), Memory>
        ensures new { IfOk result (λ made. (made.0.shown ≡ false) × (made.0.publications ≡ []) × (made.0.halted ≡ false)) }
        ensures count { IfOk result (λ made. length made.1 ≡ eyes) }
        ensures each { IfOk result (λ made. All (λ eye. eye ≡ new_eye false made.0.copy) made.1) }
    {
        let (told, head) = Told::open();
        let list = closed_eyes(alloc, &told, eyes)?;
        let published = Published {
            writer: None,
            head,
            told,
            halted: false,
        };
        Ok((published, list))
    }

    // One that is shown.
    fn open<R: Wait>(rt: &R, alloc: Global, eyes: u32) -> Result<(Published, EyeList), Memory>
        ensures new { IfOk result (λ made. (made.0.shown ≡ true) × (made.0.publications ≡ []) × (made.0.halted ≡ false)) }
        ensures count { IfOk result (λ made. length made.1 ≡ eyes) }
        ensures each { IfOk result (λ made. All (λ eye. eye ≡ new_eye true made.0.copy) made.1) }
    {
        let (told, head) = Told::open();
        let (first, second) = (Store::new(alloc, &told)?, Store::new(alloc, &told)?);
        let writer = Writer::new(alloc, first, second, eyes.max(1) as usize)?;
        let (mut writer, named) = send(writer, rt);
        if named.is_err() {
            drop(writer.take(rt));
            return Err(Memory);
        }
        match open_eyes(&mut writer, alloc, &told, eyes) {
            Ok(list) => {
                let published = Published {
                    writer: Some(writer),
                    head,
                    told,
                    halted: false,
                };
                Ok((published, list))
            }
            Err(end) => {
                drop(writer.take(rt));
                Err(end)
            }
        }
    }
}
