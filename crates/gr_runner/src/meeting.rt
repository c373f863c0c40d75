// How passes are met, each into the one that is kept at its member.
ghost use Rattle.std.specs.Prelude.{◌≡◌, ◌<◌, ℕ, length, vec_len, slice_index_or};
ghost use Rattle.gr_member.specs.Passes.{House, IsPassOf};
ghost use Rattle.gr_host.specs.Houses.{ArePassesOf};
ghost use Rattle.gr_runner.specs.Meeting.{MeetsAt, MeetsEach};

use gr_member::{Member, Pass};

/// Meets a pass of the member at this place.
pub fn meet_at(members: &[Member], desks: &mut [Pass], at: usize, pass: Pass)
    requires desks { ArePassesOf members.now desks.old }
    requires there { at < length members.now }
    requires its { (h : House) → IsPassOf (slice_index_or members.now at h) pass }
    ensures its { ArePassesOf members.now desks.new }
    ensures met { MeetsAt at desks.old pass desks.new }
{
    meet_there(members, desks, at, pass);
}

fn meet_there(members: &[Member], desks: &mut [Pass], at: usize, pass: Pass)
    requires desks { ArePassesOf members.now desks.old }
    requires there { at < length members.now }
    requires its { (h : House) → IsPassOf (slice_index_or members.now at h) pass }
    ensures { MeetsAt at desks.old pass desks.new }
{
    members[at].meet(&mut desks[at], pass);
}

/// Meets a pass at each member.
pub fn meet_each(members: &[Member], desks: &mut [Pass], visits: Vec<Pass>)
    requires desks { ArePassesOf members.now desks.old }
    requires visits { ArePassesOf members.now visits.items }
    ensures its { ArePassesOf members.now desks.new }
    ensures met { MeetsEach desks.old visits.items desks.new }
{
    let mut left = visits;
    while let Some(pass) = left.pop() {
        let at = left.len();
        meet_at(members, desks, at, pass);
    }
    left.destroy_empty();
}
