//! Calls of the parts of a cache, and of worlds, in which an allocation is refused. Each is made once.
ghost use Rattle.std.specs.Prelude.{◌≡◌, ◌+◌, ◌^◌, ◌<◌, ◌≤◌, ◌++◌, [], ◌∷◌, All, vec_len, vec_capacity};
ghost use Rattle.jc_pool.specs.Shares.{CanDoAll};

use super::*;
use jc_entries::Entries;
use jc_lock::HistLock;
use jc_model::{Op, legal};
use jc_pool::{Work, run_pieces};
use jc_stripe::{Origin, Stripe, reopen};
use jc_world::command::Command;
use jc_world::event::WorldEvent;
use jc_world::world::World;
use std::thread::Threads;

/// A world in which `a` was put.
fn world_of_one_put(rt: &impl Abort, alloc: Global) -> World {
    let mut world = World::new(alloc, &SHAPE).expect(rt, "a world");
    let key = key(rt);
    let command = Command::Single {
        op: Op::Put(value(rt)),
        key,
    };
    let call = WorldEvent::Call {
        call: 1,
        session: 1,
        command,
    };
    let mut shown = Vec::new(alloc);
    let played = world.play(&[call, WorldEvent::Start { call: 1, key }], &mut shown);
    played.expect(rt, "memory");
    world
}

/// Asks a world for its order.
fn orders(rt: &(impl Abort + Print), alloc: Global) {
    let world = world_of_one_put(rt, alloc);
    say(rt, "> order");
    let found = world.order(alloc);
    say(rt, "=");
    say_whole(rt, found.is_ok());
    is(rt, world.order(alloc).expect(rt, "memory").len(), 1);
    world.close();
}

/// Checks the history of one put, which is legal.
fn checks_a_history(rt: &(impl Abort + Print), alloc: Global) {
    let world = world_of_one_put(rt, alloc);
    let events = world.order(alloc).expect(rt, "memory");
    world.close();
    say(rt, "> legal");
    let found = legal(alloc, &SHAPE, &[], &events);
    say(rt, "=");
    say_whole(rt, found.is_ok());
    assert!(rt; found.unwrap_or(true));
}

/// Makes an empty stripe.
fn makes_a_stripe(rt: &(impl Abort + Print), alloc: Global) {
    SHAPE.check().expect(rt, "a shape");
    say(rt, "> Stripe::new");
    let made = Stripe::new(alloc, &SHAPE, 0, Origin::Live).is_ok();
    say(rt, "=");
    say_whole(rt, made);
}

/// Opens a stripe with an empty list of entries.
fn opens_a_stripe(rt: &(impl Abort + Print), alloc: Global) {
    SHAPE.check().expect(rt, "a shape");
    let entries = Entries::new(alloc, SHAPE.capacity).expect(rt, "memory");
    say(rt, "> Stripe::open_with");
    let made = Stripe::open_with(alloc, &SHAPE, 0, Origin::Live, entries).is_ok();
    say(rt, "=");
    say_dropped(rt, made);
}

/// Opens stripes with one entry.
fn opens_stripes(rt: &(impl Abort + Print), alloc: Global) {
    SHAPE.check().expect(rt, "a shape");
    let entries = [(key(rt), value(rt))];
    say(rt, "> jc_stripe::reopen");
    let made = reopen(alloc, &SHAPE, Origin::Live, &entries).is_ok();
    say(rt, "=");
    say_whole(rt, made);
}

/// Puts a lock round a stripe.
fn locks(rt: &(impl Abort + Print), alloc: Global) {
    SHAPE.check().expect(rt, "a shape");
    let stripe = Stripe::new(alloc, &SHAPE, 0, Origin::Live).expect(rt, "memory");
    let stripe = Box::new(alloc, stripe).expect(rt, "memory");
    say(rt, "> HistLock::new");
    let made = HistLock::new(alloc, stripe).is_ok();
    say(rt, "=");
    say_dropped(rt, made);
}

/// Notes the pieces that it was given, and does no more.
#[derive(Drop)]
struct Tally {
    done: Vec<usize>,
}

impl Work for Tally {
    type Job = ();

    ghost did = { λ t. t.done.items };

    ghost job = { λ _. tt };

    ghost can_do = { λ t piece. (vec_len t.done ≤ piece) × (piece < vec_capacity t.done) };

    ghost does = { λ old piece new. new.done.items ≡ old.done.items ++ piece ∷ [] };

    fn piece(&mut self, piece: usize) {
        self.done.push_reserved(piece);
    }
}

fn idle(rt: &impl Abort, alloc: Global, pieces: usize) -> Tally
    ensures { CanDoAll (λ t piece. (vec_len t.done ≤ piece) × (piece < vec_capacity t.done)) pieces result }
{
    Tally {
        done: Vec::with_capacity(alloc, pieces).expect(rt, "memory"),
    }
}

/// Creates `workers` workers, each with room for all pieces.
fn team(rt: &impl Abort, alloc: Global, workers: usize, pieces: usize) -> Vec<Tally>
    ensures len { vec_len result ≡ workers }
    ensures able { All (CanDoAll (λ t piece. (vec_len t.done ≤ piece) × (piece < vec_capacity t.done)) pieces) result.items }
{
    let mut team = Vec::new(alloc);
    'making: while team.len() < workers {
        team.push(idle(rt, alloc, pieces)).expect(rt, "memory");
    }
    team
}

/// Lets workers share pieces. If an allocation fails, no piece is done.
fn share<R: Abort + Threads + Sync + Print>(rt: &R, alloc: Global, workers: usize, pieces: usize)
    requires some { 0 < workers }
    requires fits { pieces + workers < 2 ^ 64 }
{
    let mut team = team(rt, alloc, workers, pieces);
    say(rt, "> run_pieces");
    let is_run = run_pieces(alloc, rt, team.as_mut_slice(), pieces).is_ok();
    say(rt, "=");
    say_whole(rt, is_run);
    let done = team
        .iter()
        .fold(0usize, |n, w| n.saturating_add(w.done.len()));
    is(rt, done, if is_run { pieces } else { 0 });
}

#[test]
fn of_a_history(rt: HostRuntime) {
    checks_a_history(&rt, rt.alloc());
    orders(&rt, rt.alloc());
}

#[test]
fn of_a_stripe(rt: HostRuntime) {
    makes_a_stripe(&rt, rt.alloc());
    opens_a_stripe(&rt, rt.alloc());
    opens_stripes(&rt, rt.alloc());
    locks(&rt, rt.alloc());
}

#[test]
fn of_workers(rt: HostRuntime) {
    share(&rt, rt.alloc(), 2, 3);
}
