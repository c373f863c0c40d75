ghost use Rattle.std.specs.Prelude.{◌≡◌, ◌+◌, [], ◌∷◌, reverse, IfOk, OnErr};
ghost use Rattle.gr_member.specs.Seats.{Stays, Looks, LooksUp, Acts, Meets, Peeks};
ghost use Rattle.gr_member.specs.Bases.{BelongsBy, IsReadyBy};

use crate::pass::ShardPass;
use crate::replica::Replica;
use crate::tasks::Task;
use gr_peek::{PeekEnd, Seen};
use gr_turn::TurnLock;
use gr_value::{Key, Memory};
use std::alloc::Global;
use std::sync::Wait;

impl ShardPass {
    // One turn, in which one deed is added, or none where memory is refused. Its note is kept.
    pub(crate) fn act<R: Wait + Sync, T: Task>(
        &mut self,
        rt: &R,
        alloc: Global,
        lock: &TurnLock<Replica>,
        task: &T,
    ) -> Result<T::Answer, Memory>
        requires its { self.old.lock ≡ lock.now }
        requires here { BelongsBy self.old.view.base (T.next task.now) }
        ensures stays { Stays self.old self.new }
        ensures done { IfOk result (λ answer. Acts self.old (T.next task.now) (T.came answer) self.new) }
        ensures refused { OnErr result (Looks self.old self.new) }
    {
        let Some(seat) = self.seat.take() else {
            unreachable!()
        };
        let mut turn = lock.enter(rt, seat);
        let answer = turn.value_mut().act(rt, alloc, task);
        self.watch.keep(turn.value().tell());
        let before = self.seat.replace(lock.leave(turn));
        let None = before else { unreachable!() };
        answer
    }

    // One turn, in which the shard is asked whether it is ready.
    pub(crate) fn ready<R: Wait + Sync>(&mut self, rt: &R, lock: &TurnLock<Replica>) -> bool
        requires { self.old.lock ≡ lock.now }
        ensures looks { Looks self.old self.new }
        ensures won { self.new.view.won ≡ self.old.view.won + 1 }
        ensures ready { IsReadyBy self.old.view.base self.new.view.seen result }
    {
        let Some(seat) = self.seat.take() else {
            unreachable!()
        };
        let turn = lock.enter(rt, seat);
        let ready = turn.value().ready();
        self.watch.keep(turn.value().tell());
        let before = self.seat.replace(lock.leave(turn));
        let None = before else { unreachable!() };
        ready
    }

    // One turn, in which the eye goes to all that is published.
    pub(crate) fn look<R: Wait + Sync>(&mut self, rt: &R, lock: &TurnLock<Replica>)
        requires { self.old.lock ≡ lock.now }
        ensures { LooksUp self.old self.new }
    {
        let Some(seat) = self.seat.take() else {
            unreachable!()
        };
        let turn = lock.enter(rt, seat);
        self.watch.reach(rt, turn.value().tell());
        let before = self.seat.replace(lock.leave(turn));
        let None = before else { unreachable!() };
    }

    // No turn is taken.
    pub(crate) fn peek(&mut self, alloc: Global, key: &Key) -> Result<Seen, PeekEnd>
        ensures { Peeks key.now result self.old self.new }
    {
        self.watch.peek(alloc, key)
    }

    // The one takes in what the other knows.
    pub(crate) fn meet(&mut self, lock: &TurnLock<Replica>, from: ShardPass)
        requires its { self.old.lock ≡ lock.now }
        requires theirs { from.lock ≡ lock.now }
        requires copy { from.eye.copy ≡ self.old.eye.copy }
        ensures { Meets self.old from self.new }
    {
        let Some(mut seat) = self.seat.take() else {
            unreachable!()
        };
        let ShardPass { seat: other, watch } = from;
        let Some(other) = other else { unreachable!() };
        lock.join(&mut seat, other);
        self.watch.meet(watch);
        let before = self.seat.replace(seat);
        let None = before else { unreachable!() };
    }
}
