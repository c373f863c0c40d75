ghost use Rattle.std.specs.Prelude.{◌≡◌, [], ◌∷◌, List, IfOk, OnOk, option_copied};
ghost use Rattle.gr_vector.specs.Order.{united};
ghost use Rattle.gr_history.specs.declared.deed.Deed.{Deed};
ghost use Rattle.gr_history.specs.Ids.{ids_at, known};
ghost use Rattle.gr_history.specs.Standing.{came};
ghost use Rattle.gr_stamp.specs.Winner.{wins};
ghost use Rattle.gr_route.specs.Turning.{fresh, winners, with_won};

use gr_by_key::ByKey;
use gr_history::{Deed, Verdict};
use gr_stamp::{Change, ChangeList, decide};
use gr_value::{Copied, Memory};
use gr_vector::Vector;
use std::alloc::Global;

// Those of the rows of an image that aren't known.
fn fresh_rows(alloc: Global, rows: &[Change], known: &Vector) -> Result<ChangeList, Memory>
    ensures { IfOk result (λ found. found ≡ fresh known.now.ids rows.now) }
{
    let mut found = ChangeList::new(alloc)?;
    for row in rows {
        if !known.holds(row.stamp.member(), row.stamp.rv()) {
            found.push(row.copy(alloc)?)?;
        }
    }
    Ok(found)
}

fn one(alloc: Global, change: &Change) -> Result<ChangeList, Memory>
    ensures { IfOk result (λ all. all ≡ change.now ∷ []) }
{
    let mut all = ChangeList::new(alloc)?;
    all.push(change.copy(alloc)?)?;
    Ok(all)
}

/// The changes that come in at a deed, where these ids are known.
#[tactic(auto, using(crate::proofs::Winning::fresh_known))]
pub(crate) fn came(alloc: Global, deed: &Deed, ids: &Vector) -> Result<ChangeList, Memory>
    ensures { IfOk result (λ all. (past : List Deed) → ids.now.ids ≡ known past → all ≡ came deed.now past) }
{
    match deed {
        Deed::Call {
            made: Some(change),
            ..
        } => one(alloc, change.get()),
        Deed::Taken {
            change,
            verdict: Verdict::Applied | Verdict::Discarded,
        } => one(alloc, change.get()),
        Deed::Imaged { image } => fresh_rows(alloc, image.rows.get().as_slice(), ids),
        _ => Ok(ChangeList::new(alloc)?),
    }
}

/// Notes the ids that come to be known at a deed.
pub(crate) fn note(ids: &mut Vector, deed: &Deed) -> Result<(), Memory>
    ensures { OnOk result (ids.new.ids ≡ united ids.old.ids (ids_at deed.now)) }
{
    match deed {
        Deed::Call {
            made: Some(change),
            ..
        }
        | Deed::Taken { change, .. } => {
            let stamp = &change.get().stamp;
            let _fresh = ids.note(stamp.member(), stamp.rv())?;
            Ok(())
        }
        Deed::Imaged { image } => ids.unite(&image.vector),
        _ => Ok(()),
    }
}

fn wins(change: &Change, stands: Option<&Change>) -> bool
    ensures { result ≡ wins change.now (option_copied stands.entry) }
{
    match stands {
        None => true,
        Some(held) => decide(Some(&held.stamp), &change.stamp),
    }
}

// Makes a change that came in win at its key, where it wins over what won there before.
fn let_win(
    alloc: Global,
    standing: &ByKey<Change>,
    won: &mut ByKey<Change>,
    change: &Change,
) -> Result<(), Memory>
    ensures { OnOk result (won.new ≡ with_won standing.now change.now won.old) }
{
    let key = &change.key;
    if wins(change, won.get(key).or(standing.get(key))) {
        won.put(key.copy(alloc)?, change.copy(alloc)?)?;
    }
    Ok(())
}

/// What wins at the keys of what came in, the newest first, where it isn't what stands.
#[tactic(auto, using(crate::proofs::Adding::winners_none, crate::proofs::Adding::winners_more))]
pub(crate) fn winners(
    alloc: Global,
    standing: &ByKey<Change>,
    came: &[Change],
) -> Result<ByKey<Change>, Memory>
    ensures { IfOk result (λ won. won ≡ winners standing.now came.now) }
{
    let mut won = ByKey::new(alloc);
    let count = came.len();
    for done in 0..count {
        let_win(alloc, standing, &mut won, &came[count - 1 - done])?;
    }
    Ok(won)
}
