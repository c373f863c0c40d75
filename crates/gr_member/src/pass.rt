ghost use Rattle.std.specs.Prelude.{◌≡◌, [], ◌++◌, length, IfNone};
ghost use Rattle.std.specs.Option.{option_to_list};

use crate::replica::Replica;
use crate::watch::Watch;
use gr_turn::Seat;
use std::marker::Model;

// The leave to take turns at one shard, with what looks at its copy.
pub struct ShardPass {
    pub(crate) seat: Option<Seat<Replica>>,
    pub(crate) watch: Watch,
}

impl Model for ShardPass {
    ghost use Rattle.std.specs.Prelude.{◌≡◌, true};
    ghost use Rattle.std.specs.Coded.{codes};
    ghost use Rattle.gr_oql.specs.Question.{question_code};
    ghost use Rattle.gr_member.specs.Replicas.{IsWatchOf};
    ghost use Rattle.gr_member.specs.Seats.{Place, placed, seat_in, is_there};

    ghost Value = { Place };

    ghost coded = { Prim.hlevel (codes, question_code) };

    ghost view = { λ pass. placed (seat_in pass.seat) pass.watch.eye };

    ghost invariant = { λ pass. (is_there pass.seat ≡ true) × IsWatchOf (seat_in pass.seat).view pass.watch };
}

/// The leave to call a member: a seat and an eye at each of its shards, those of shard 0 first. It is never dropped:
/// passes are met into one, with which the member ends.
pub struct Pass {
    pub(crate) shards: Vec<ShardPass>,
}

impl Model for Pass {
    ghost use Rattle.std.specs.Prelude.{List};
    ghost use Rattle.std.specs.Coded.{codes};
    ghost use Rattle.gr_oql.specs.Question.{question_code};
    ghost use Rattle.gr_member.specs.Seats.{Place};

    ghost Value = { List Place };

    ghost coded = { Prim.hlevel (codes, question_code) };

    ghost view = { λ pass. pass.shards.items };
}

/// A list of passes, which contracts see as that list. It is never dropped: `pop` and `end` take it
/// apart.
pub struct PassList {
    pub(crate) passes: Vec<Vec<ShardPass>>,
}

impl Model for PassList {
    ghost use Rattle.std.specs.Prelude.{List, map};
    ghost use Rattle.std.specs.Coded.{codes};
    ghost use Rattle.gr_oql.specs.Question.{question_code};
    ghost use Rattle.gr_member.specs.Seats.{Place};

    ghost Value = { List (List Place) };

    ghost coded = { Prim.hlevel (codes, question_code) };

    ghost view = { λ list. map (λ shards. shards.items) list.passes.items };
}

impl PassList {
    pub fn len(&self) -> usize
        ensures { result ≡ length self.now }
    {
        self.passes.len()
    }

    /// Takes the last pass out.
    pub fn pop(&mut self) -> Option<Pass>
        ensures pass { self.old ≡ self.new ++ option_to_list result }
        ensures none { IfNone result (self.old ≡ []) }
    {
        match self.passes.pop() {
            Some(shards) => Some(Pass { shards }),
            None => None,
        }
    }

    /// Lets go of a list with no passes.
    pub fn end(self)
        requires { self ≡ [] }
    {
        let PassList { passes } = self;
        passes.destroy_empty();
    }
}
