ghost use Rattle.std.specs.Prelude.{◌≡◌, ◌++◌, ℕ, List, MatchResult, slice_index};
ghost use Rattle.gr_script.specs.Past.{numbers_of, number};

use crate::forms::LineKind;
use crate::items::Item;
use gr_value::ItemList;

/// What a line says.
#[derive(Drop)]
pub(crate) struct Saying {
    pub(crate) kind: LineKind,
    pub(crate) items: ItemList<Item>,
}

// The item's number at this place, or how many places are left behind it.
fn number_of(item: &Item, place: usize) -> Result<u128, usize>
    ensures { MatchResult result (λ found. (rest : List ℕ) → slice_index (numbers_of item.now ++ rest) place ≡ found)
        (λ left. (rest : List ℕ) → slice_index (numbers_of item.now ++ rest) place ≡ slice_index rest left) }
{
    match item {
        Item::Number(number)
        | Item::Member(number)
        | Item::Client(number)
        | Item::Ordinal(number) => {
            if place == 0 {
                Ok(*number)
            } else {
                Err(place - 1)
            }
        }
        Item::Step { client, seq } => match place {
            0 => Ok(*client),
            1 => Ok(*seq),
            _ => Err(place - 2),
        },
        _ => Err(place),
    }
}

/// The number at this place, counted from 0, or 0 where there is none.
pub(crate) fn number(place: usize, items: &[Item]) -> u128
    ensures { result ≡ number place items.now }
{
    let mut left = place;
    for item in items {
        match number_of(item, left) {
            Ok(found) => return found,
            Err(behind) => left = behind,
        }
    }
    0
}
