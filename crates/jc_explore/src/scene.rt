//! A world with the threads of a program.
ghost use Rattle.std.specs.Prelude.{◌≡◌, ◌<◌, [], true, false, replicate, IfOk, OnOk, Ok};
ghost use Rattle.std.specs.Prelude.{slice_get};
ghost use Rattle.jc_types.specs.Limits.{check};
ghost use Rattle.jc_world.specs.Determinism.{has_memory, have_memory};
ghost use Rattle.jc_explore.specs.Schedule.{SceneState, Moves, are_going_on, has_session, is_going_on, is_proper};
ghost use Rattle.jc_explore.specs.Schedule.{has_number_for, opening, position_after, scene_state, unbegun, with_all_stored};

use crate::events::{has_number_for, put_events};
use crate::moves::{Act, Move};
use crate::program::Program;
use crate::replies::{ThreadReply, put_replies};
use jc_model::Cause;
use jc_types::{Config, Key, Value};
use jc_world::determinism::runs_are_determined;
use jc_world::{Outcome, Shown, World, WorldEvent};
use std::alloc::{AllocError, Global};
use std::mem;

/// The state of a thread.
#[derive(Clone, Copy, Debug, PartialEq, Eq)]
pub struct Position {
    /// The number of items that it has begun.
    pub begun: usize,
}

/// A world, and the position of each thread.
pub struct Scene {
    /// The world.
    pub world: World,
    /// The state of each thread.
    pub positions: Vec<Position>,
    /// The replies to the threads, thread by thread.
    pub replies: Vec<ThreadReply>,
    /// The events of the last move that was tried. The next move uses the same memory.
    pub events: Vec<WorldEvent>,
    /// The outcomes that they showed.
    pub shown: Vec<Shown>,
}

/// Appends the positions of threads that have begun nothing.
#[tactic(auto, using(std::proofs::lemmas::List::replicate_more))]
fn put_positions(positions: &mut Vec<Position>, threads: usize) -> Result<(), AllocError>
    requires { positions.old.items ≡ [] }
    ensures { OnOk result (positions.new.items ≡ replicate threads unbegun) }
{
    for _thread in 0..threads {
        positions.push(Position { begun: 0 })?;
    }
    Ok(())
}

/// Gives a world's store these entries.
fn put_stored(world: &mut World, stored: &[(Key, Value)]) -> Result<(), AllocError>
    requires { world.old.world.is_fresh ≡ true }
    ensures { OnOk result (world.new.world ≡ with_all_stored world.old.world stored.now) }
{
    for (key, value) in stored {
        world.set(key, value)?;
    }
    Ok(())
}

/// Whether two shapes of a cache are the same.
fn is_shape(one: &Config, other: &Config) -> bool
    ensures { result ≡ true → one.now ≡ other.now }
{
    *one == *other
}

/// Whether a call continues after an outcome.
fn is_going_on(outcome: &Outcome) -> bool
    ensures { result ≡ is_going_on outcome.now }
{
    match outcome {
        Outcome::Unfit | Outcome::Waits => false,
        Outcome::Refused(refusal) => !refusal.is_put_off(),
        _ => true,
    }
}

/// Whether no new entry was lost because an allocation failed.
fn has_memory(outcome: &Outcome) -> bool
    ensures { result ≡ has_memory outcome.now }
{
    match outcome {
        Outcome::Stepped(stepped) => match stepped.evicted {
            Some(eviction) => matches!(eviction.cause, Cause::Full | Cause::Invalidated),
            None => true,
        },
        _ => true,
    }
}

fn are_going_on(shown: &[Shown]) -> bool
    ensures { result ≡ are_going_on shown.now }
{
    shown.iter().all(|s| is_going_on(&s.outcome))
}

/// Whether events happened, and the call continues after each.
fn is_proper(shown: &[Shown]) -> bool
    ensures { result ≡ is_proper shown.now }
{
    shown.len() > 0 && are_going_on(shown)
}

fn have_memory(shown: &[Shown]) -> bool
    ensures { result ≡ have_memory shown.now }
{
    shown.iter().all(|s| has_memory(&s.outcome))
}

/// The state of a thread, if there is one with this number.
fn position_at(positions: &[Position], thread: usize) -> Option<Position>
    ensures { result ≡ slice_get positions.now thread }
{
    positions.get(thread).copied()
}

/// The state of a thread after an act.
fn position_after(last: Option<u64>, act: Act, position: Position) -> Position
    requires { has_number_for last position act ≡ true }
    ensures { result ≡ position_after act position }
{
    if act.is_begin() {
        Position {
            begun: position.begun + 1,
        }
    } else {
        position
    }
}

impl Scene {
    /// The scene before anything has happened. An `Err` says that an allocation failed.
    pub fn open(alloc: Global, program: &Program) -> Result<Scene, AllocError>
        requires { check program.now.config ≡ Ok tt }
        ensures { IfOk result (λ s. scene_state s ≡ opening program.now) }
    {
        let mut positions = Vec::new(alloc);
        put_positions(&mut positions, program.threads.len())?;
        let mut world = match World::new(alloc, &program.config) {
            Ok(world) => world,
            Err(_) => return Err(AllocError),
        };
        match put_stored(&mut world, &program.stored) {
            Ok(()) => Ok(Scene {
                world,
                positions,
                replies: Vec::new(alloc),
                events: Vec::new(alloc),
                shown: Vec::new(alloc),
            }),
            Err(failed) => {
                world.close();
                Err(failed)
            }
        }
    }

    /// Goes back to before anything has happened. An `Err` says that an allocation failed; the scene can't be used any more then.
    pub fn restart(&mut self, alloc: Global, program: &Program) -> Result<(), AllocError>
        requires { check program.now.config ≡ Ok tt }
        ensures { OnOk result (scene_state self.new ≡ opening program.now) }
    {
        if is_shape(self.world.config(), &program.config) {
            self.restart_here(program)?;
        } else {
            self.restart_anew(alloc, program)?;
        }
        Ok(())
    }

    /// Goes back with the world that is there, which has the program's shape.
    fn restart_here(&mut self, program: &Program) -> Result<(), AllocError>
        requires { self.old.world.world.config ≡ program.now.config }
        ensures { OnOk result (scene_state self.new ≡ opening program.now) }
    {
        self.world.restart();
        self.replies.clear();
        self.positions.clear();
        put_positions(&mut self.positions, program.threads.len())?;
        put_stored(&mut self.world, &program.stored)?;
        Ok(())
    }

    /// Goes back with a world that is made anew.
    fn restart_anew(&mut self, alloc: Global, program: &Program) -> Result<(), AllocError>
        requires { check program.now.config ≡ Ok tt }
        ensures { OnOk result (scene_state self.new ≡ opening program.now) }
    {
        let fresh = Scene::open(alloc, program)?;
        let old = mem::replace(self, fresh);
        old.close();
        Ok(())
    }

    /// Ends the world.
    pub fn close(self) {
        let Scene {
            world,
            positions: _positions,
            replies: _replies,
            events: _events,
            shown: _shown,
        } = self;
        world.close();
    }

    /// Whether the first event of a move fits. If it doesn't, the move isn't possible.
    pub fn may(&self, alloc: Global, program: &Program, step: Move) -> Result<bool, AllocError>
        requires { has_session step ≡ true }
        ensures { IfOk result (λ may. may ≡ false
            → (new : SceneState) → Moves program.now (scene_state self.now) step new → ⊥) }
    {
        let Some(position) = position_at(&self.positions, step.thread) else {
            return Ok(false);
        };
        let mut events: Vec<WorldEvent> = Vec::new(alloc);
        put_events(alloc, &mut events, program, &self.world, step, position)?;
        if events.len() == 0 {
            return Ok(false);
        }
        let may = self.world.fits(&events[0]);
        Ok(may)
    }

    /// Makes a move, if it is possible now, and returns whether it was. If it wasn't, the scene can't be used any more, and
    /// neither after an `Err`, which says that an allocation failed.
    pub fn step(&mut self, alloc: Global, program: &Program, step: Move) -> Result<bool, AllocError>
        requires { has_session step ≡ true }
        ensures moved { IfOk result (λ moved. moved ≡ true
            → Moves program.now (scene_state self.old) step (scene_state self.new)) }
        ensures stays { IfOk result (λ moved. moved ≡ false
            → (new : SceneState) → Moves program.now (scene_state self.old) step new → ⊥) }
    {
        runs_are_determined();
        let Some(position) = position_at(&self.positions, step.thread) else {
            return Ok(false);
        };
        let last = self.world.last();
        if !has_number_for(last, &position, step.act) {
            return Ok(false);
        }
        self.events.clear();
        put_events(
            alloc,
            &mut self.events,
            program,
            &self.world,
            step,
            position,
        )?;
        self.shown.clear();
        self.world.play(&self.events, &mut self.shown)?;
        if !have_memory(&self.shown) {
            return Err(AllocError);
        }
        if !is_proper(&self.shown) {
            return Ok(false);
        }
        put_replies(&mut self.replies, step.thread, &self.shown)?;
        self.positions[step.thread] = position_after(last, step.act, position);
        Ok(true)
    }
}
