// What threads left is gathered: their passes, each met into that of its member, and their news.
ghost use Rattle.std.specs.Prelude.{◌≡◌, ◌<◌, ◌≤◌, true, length, map, reverse, vec_len, Some};
ghost use Rattle.std.specs.List.{AllByRecursion};
ghost use Rattle.std.specs.Vec.{vec_capacity};
ghost use Rattle.gr_host.specs.Houses.{ArePassesOf};
ghost use Rattle.gr_runner.specs.Gathering.{AreVisits, Gathers, IsLeftAt, KnowMore, MeetsVisits};

use crate::meeting::{meet_at, meet_each};
use gr_history::ClientRecord;
use gr_member::{Member, Pass};
use gr_post::{SendPassList, TakePass};

/// What the thread of a client or of a member tells where it was refused no memory: what the client was
/// told, or the member's leave to take mail; and each its leaves to send.
#[derive(Drop)]
pub enum News {
    Client {
        told: ClientRecord,
        sends: SendPassList,
    },
    Member {
        take: TakePass,
        sends: SendPassList,
    },
}

/// What a thread left: the place of its member, its pass there, a pass at each member where it is that of
/// a joiner, and its news.
pub struct Left {
    pub home: usize,
    pub pass: Pass,
    pub visits: Vec<Pass>,
    pub news: Option<News>,
}

/// Meets the passes of all threads, and says whether each had news. These are the last one's first.
pub fn gather(
    members: &[Member],
    desks: &mut [Pass],
    lefts: Vec<Left>,
    news: &mut Vec<News>,
) -> bool
    requires desks { ArePassesOf members.now desks.old }
    requires its { AllByRecursion (IsLeftAt members.now) lefts.items }
    requires none { vec_len news.old ≡ 0 }
    requires room { vec_len lefts ≤ vec_capacity news.old }
    ensures desks { ArePassesOf members.now desks.new }
    ensures gathers { Gathers desks.old lefts.items desks.new }
    ensures news { result ≡ true → map Some news.new.items ≡ map (λ left. left.news) (reverse lefts.items) }
{
    let mut rest = lefts;
    let mut well = true;
    while let Some(left) = rest.pop() {
        match meet_left(members, desks, left) {
            Some(one) => news.push_reserved(one),
            None => well = false,
        }
    }
    rest.destroy_empty();
    well
}

// Meets the passes of one thread.
fn meet_left(members: &[Member], desks: &mut [Pass], left: Left) -> Option<News>
    requires desks { ArePassesOf members.now desks.old }
    requires its { IsLeftAt members.now left }
    ensures desks { ArePassesOf members.now desks.new }
    ensures more { KnowMore desks.old left desks.new }
    ensures news { result ≡ left.news }
{
    let Left {
        home,
        pass,
        visits,
        news,
    } = left;
    meet_at(members, desks, home, pass);
    meet_visits(members, desks, visits);
    news
}

// Meets a pass at each member, or none.
fn meet_visits(members: &[Member], desks: &mut [Pass], visits: Vec<Pass>)
    requires desks { ArePassesOf members.now desks.old }
    requires visits { AreVisits members.now visits.items }
    ensures desks { ArePassesOf members.now desks.new }
    ensures met { MeetsVisits desks.old visits.items desks.new }
{
    if visits.is_empty() {
        visits.destroy_empty();
    } else {
        meet_each(members, desks, visits);
    }
}
