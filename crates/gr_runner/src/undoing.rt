// Where members were made already and memory is refused.
ghost use Rattle.std.specs.Prelude.{◌≡◌, ◌≤◌};
ghost use Rattle.gr_runner.specs.Makings.{AreAt, AreEachAt};

use gr_member::{Member, PassList};
use std::sync::Wait;

// Takes all members apart, each by its passes.
pub(crate) fn undo<R: Wait>(rt: &R, members: Vec<Member>, passes: Vec<PassList>)
    requires { AreEachAt members.items passes.items }
{
    let mut members = members;
    let mut passes = passes;
    while let Some(member) = members.pop() {
        let Some(dealt) = passes.pop() else {
            unreachable!()
        };
        undo_one(rt, member, dealt);
    }
    members.destroy_empty();
    passes.destroy_empty();
}

// Meets all passes into one, with which the member is stopped.
fn undo_one<R: Wait>(rt: &R, member: Member, passes: PassList)
    requires { AreAt member passes }
{
    let mut passes = passes;
    let Some(mut into) = passes.pop() else {
        unreachable!()
    };
    while let Some(from) = passes.pop() {
        member.meet(&mut into, from);
    }
    passes.end();
    member.stop(rt, into);
}
