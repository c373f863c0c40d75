ghost use Rattle.std.specs.Prelude.{◌≡◌, ◌≤◌, [], IfOk, option_copied};
ghost use Rattle.gr_history.specs.Recipients.{is_recipient, recipients};
ghost use Rattle.gr_shard.specs.Entries.{with_made};
ghost use Rattle.gr_shard.specs.Gifts.{with_recipient};
ghost use Rattle.gr_shard.specs.Calls.{done_in};

use gr_history::{Done, Entry, Identity};
use gr_stamp::Change;
use gr_value::{Copied, Memory, Shared};
use gr_vector::Vector;
use std::alloc::Global;

// Whether a change goes to the member, where none was given anything.
fn is_first_recipient(id: Identity, member: u8) -> bool
    ensures { result ≡ is_recipient id [] member }
{
    member <= id.founders && member != id.member
}

/// The members that a change goes to where none was given anything, with bit m - 1 for member m.
pub fn first_recipients(id: Identity) -> u8
    ensures { result ≡ recipients id [] }
{
    let (mut to, mut bit) = (0u16, 1u16);
    for below in 0..8u8 {
        if is_first_recipient(id, below + 1) {
            to += bit;
        }
        bit *= 2;
    }
    to as u8
}

/// The members that a change goes to, once this one was given something too.
pub fn with_recipient(id: Identity, other: u8, to: u8) -> u8
    requires from { 1 ≤ other }
    requires of_eight { other ≤ 8 }
    ensures { result ≡ with_recipient id other to }
{
    if other == id.member {
        to
    } else {
        to | 1 << (other - 1)
    }
}

/// Notes what was made or taken in, for which there is room.
#[inline(always)]
pub fn note(vector: &mut Vector, made: Option<&Change>)
    requires { 1 ≤ vector.old.spare }
    ensures { vector.new.ids ≡ with_made (option_copied made.entry) vector.old.ids }
{
    if let Some(change) = made {
        let _ = vector.note(change.stamp.member(), change.stamp.rv());
    }
}

/// What a call gave, by its deed.
pub fn done_of(alloc: Global, deed: &Entry) -> Result<Done, Memory>
    ensures { IfOk result (λ done. done ≡ done_in deed.now) }
{
    Ok(Done {
        reply: deed.reply(alloc)?,
        made: shared_again(alloc, deed.made())?,
        to: deed.to(),
    })
}

// The same change, if there is one.
fn shared_again(
    alloc: Global,
    made: Option<&Shared<Change>>,
) -> Result<Option<Shared<Change>>, Memory>
    ensures { IfOk result (λ copy. copy ≡ option_copied made.entry) }
{
    match made {
        None => Ok(None),
        Some(change) => Ok(Some(change.copy(alloc)?)),
    }
}
