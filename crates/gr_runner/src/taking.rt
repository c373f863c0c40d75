// How passes are taken from those of each member.
ghost use Rattle.std.specs.Prelude.{◌≡◌, ◌<◌, ◌≤◌, ◌++◌, ◌∷◌, [], List, true, length, vec_len, slice_index_or};
ghost use Rattle.gr_member.specs.Seats.{Place};
ghost use Rattle.gr_runner.specs.Dealing.{AreTaken, AreVisited, HaveOne, IsRoom, IsTaken};

use gr_member::{Pass, PassList};

// The last pass.
fn last_of(passes: &mut PassList) -> Pass
    requires { 1 ≤ length passes.old }
    ensures { passes.old ≡ passes.new ++ result ∷ [] }
{
    let Some(pass) = passes.pop() else {
        unreachable!()
    };
    pass
}

// A pass of the member of this place.
pub(crate) fn take_at(passes: &mut Vec<PassList>, at: usize) -> Pass
    requires there { at < vec_len passes.old }
    requires some { (x : List (List Place)) → 1 ≤ length (slice_index_or passes.old.items at x) }
    ensures { IsTaken at passes.old.items result passes.new.items }
{
    last_of(&mut passes[at])
}

// A pass of each member, in a list that has the room.
pub(crate) fn take_each(passes: &mut Vec<PassList>, room: Vec<Pass>) -> Vec<Pass>
    requires room { IsRoom (vec_len passes.old) room }
    requires some { HaveOne passes.old.items }
    ensures { AreTaken passes.old.items result.items passes.new.items }
{
    let mut taken = room;
    for k in 0..passes.len() {
        let pass = take_at(passes, k);
        taken.push_reserved(pass);
    }
    taken
}

// A pass of each member for one that joins, and none for another.
pub(crate) fn visits_of(passes: &mut Vec<PassList>, room: Vec<Pass>, joins: bool) -> Vec<Pass>
    requires room { IsRoom (vec_len passes.old) room }
    requires some { joins ≡ true → HaveOne passes.old.items }
    ensures { AreVisited joins passes.old.items result.items passes.new.items }
{
    if joins { take_each(passes, room) } else { room }
}
