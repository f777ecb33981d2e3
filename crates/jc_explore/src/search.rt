//! The search: each state that can be reached is followed once, by one of the schedules that lead to it, the states of short
//! schedules first.
ghost use Rattle.jc_explore.specs.declared.search.TheConstants.{OUTCOMES_MAX};
ghost use Rattle.std.specs.Prelude.{◌≡◌, ◌||◌, ◌≤◌, ◌<◌, ◌∷◌, [], List, Ok, length, map, true, false, IfOk, OnOk};
ghost use Rattle.std.specs.List.{All};
ghost use Rattle.jc_types.specs.Limits.{check};
ghost use Rattle.jc_explore.specs.Explored.{AreDistinct, AreOrdered, AreShortest, AreWitnessed, HasEachOutcome, CountsScenes, IsEnd, IsFound, IsRefusedAs, IsAccepted};
ghost use Rattle.jc_explore.specs.Final.{final_of};
ghost use Rattle.jc_explore.specs.Moves.{moves_up_to};
ghost use Rattle.jc_explore.specs.Schedule.{PlaysSchedule, has_session, have_sessions, opening, scene_state};
ghost use Rattle.jc_explore.specs.Search.{AreKnown, Expands, Follows, HasExplored, IsSearchOf, IsSearched, KeepsMoves, NotesEnd, Searches, Visits, kept_if, progress_of};
ghost use Rattle.jc_explore.specs.Telling.{IsToldAs, IsToldOf};
ghost use Rattle.jc_explore.specs.Watching.{OnStates, Progress, Tells, WatchCall};

use crate::final_state::FinalState;
use crate::known::{States, note_next, note_state};
use crate::moves::{Move, moves_up_to};
use crate::program::Program;
use crate::scene::Scene;
use crate::watch::Watch;
use jc_snapshot::laws::has_one_snapshot;
use jc_types::{Refusal, SESSIONS_MAX};
use jc_world::determinism::runs_are_determined;
use jc_world::essence::{essences_tell, worlds_go_on_alike};
use std::alloc::{AllocError, Global};

/// The most final states that an exploration looks for. Once it has found more, it follows no further state. If no state is left
/// to follow then, it is whole nevertheless.
pub const OUTCOMES_MAX: usize = 4096;

/// A final state, and a schedule that leads to it: no schedule with fewer moves ends in this final state.
#[derive(Drop)]
pub struct Finding {
    /// The final state.
    pub state: FinalState,
    /// The schedule.
    pub witness: Vec<Move>,
}

/// The result of an exploration.
#[derive(Drop)]
pub struct Explored {
    /// The final states, each once. None comes before one with a shorter schedule.
    pub found: Vec<Finding>,
    /// The number of states that it has met: scenes, of which no two have the same essence, positions and replies. If each was
    /// followed, there is no other one.
    pub states: u64,
    /// Whether it followed each of them. Then there is no other final state.
    pub is_whole: bool,
}

/// Why a program wasn't explored.
#[derive(Clone, Copy, Debug, PartialEq, Eq)]
pub enum ExploreFault {
    /// An allocation failed.
    OutOfMemory,
    /// It has more than [`SESSIONS_MAX`](jc_types::SESSIONS_MAX) threads.
    TooManyThreads,
    /// The cache's shape is refused, as `Config::check` says.
    BadConfig(Refusal),
}

/// The states and final states that a search has met so far.
#[derive(Drop)]
pub struct Search {
    /// The states, in the order in which they are to be followed.
    pub known: States,
    /// The final states.
    pub found: Vec<Finding>,
}

/// Makes the moves of a schedule. If one of them isn't possible, this fails as if an allocation had failed; that never happens.
fn replay(
    alloc: Global,
    program: &Program,
    scene: &mut Scene,
    schedule: &[Move],
) -> Result<(), AllocError>
    requires { have_sessions schedule.now ≡ true }
    ensures { OnOk result (PlaysSchedule program.now (scene_state scene.old) schedule.now (scene_state scene.new)) }
{
    for step in schedule {
        if !scene.step(alloc, program, *step)? {
            return Err(AllocError);
        }
    }
    Ok(())
}

/// Brings the scene to where a schedule leads from the opening.
fn go_to(
    alloc: Global,
    program: &Program,
    scene: &mut Scene,
    schedule: &[Move],
) -> Result<(), AllocError>
    requires config { check program.now.config ≡ Ok tt }
    requires sessions { have_sessions schedule.now ≡ true }
    ensures { OnOk result (
        PlaysSchedule program.now (opening program.now) schedule.now (scene_state scene.new)) }
{
    scene.restart(alloc, program)?;
    replay(alloc, program, scene, schedule)?;
    Ok(())
}

/// Brings the scene to where a schedule leads, unless it is there.
fn return_to(
    alloc: Global,
    program: &Program,
    scene: &mut Scene,
    schedule: &[Move],
    is_there: bool,
) -> Result<(), AllocError>
    requires config { check program.now.config ≡ Ok tt }
    requires sessions { have_sessions schedule.now ≡ true }
    requires there { is_there ≡ true
        → PlaysSchedule program.now (opening program.now) schedule.now (scene_state scene.old) }
    ensures { OnOk result (
        PlaysSchedule program.now (opening program.now) schedule.now (scene_state scene.new)) }
{
    if is_there {
        return Ok(());
    }
    go_to(alloc, program, scene, schedule)?;
    Ok(())
}

/// Follows one move after a schedule, if it is possible there: afterwards the state to which it leads is known. The scene is where
/// the schedule leads.
fn follow(
    alloc: Global,
    program: &Program,
    scene: &mut Scene,
    schedule: &[Move],
    step: Move,
    known: &mut States,
) -> Result<bool, AllocError>
    requires config { check program.now.config ≡ Ok tt }
    requires sessions { have_sessions schedule.now ≡ true }
    requires session { has_session step ≡ true }
    requires there { PlaysSchedule program.now (opening program.now) schedule.now (scene_state scene.old) }
    requires known { AreKnown program.now known.old }
    ensures { IfOk result (λ moved.
        Follows program.now schedule.now step known.old known.new moved) }
{
    runs_are_determined();
    let moved = scene.step(alloc, program, step)?;
    if !moved {
        return Ok(false);
    }
    note_next(alloc, program, scene, schedule, step, known)?;
    Ok(true)
}

/// Appends a move, if it may be possible.
fn keep_if(kept: &mut Vec<Move>, step: Move, may: bool) -> Result<(), AllocError>
    ensures { OnOk result (kept.new.items ≡ kept_if may step kept.old.items) }
{
    if may {
        kept.push(step)?;
    }
    Ok(())
}

/// Keeps the moves whose first event fits now: the others aren't possible.
fn keep_moves(
    alloc: Global,
    program: &Program,
    scene: &Scene,
    moves: &[Move],
) -> Result<Vec<Move>, AllocError>
    requires { have_sessions moves.now ≡ true }
    ensures { IfOk result (λ kept. KeepsMoves program.now (scene_state scene.now) moves.now kept.items) }
{
    let mut kept = Vec::new(alloc);
    for step in moves {
        let may = scene.may(alloc, program, *step)?;
        keep_if(&mut kept, *step, may)?;
    }
    Ok(kept)
}

/// Whether at least one of two holds.
fn either(one: bool, other: bool) -> bool
    ensures { result ≡ (one || other) }
{
    one || other
}

/// Follows each of some moves after a schedule, and returns whether any is possible. The scene is where the schedule leads: the
/// first move continues from there, each other one after a replay.
fn expand(
    alloc: Global,
    program: &Program,
    scene: &mut Scene,
    moves: &[Move],
    schedule: &[Move],
    known: &mut States,
) -> Result<bool, AllocError>
    requires config { check program.now.config ≡ Ok tt }
    requires moves { have_sessions moves.now ≡ true }
    requires sessions { have_sessions schedule.now ≡ true }
    requires there { PlaysSchedule program.now (opening program.now) schedule.now (scene_state scene.old) }
    requires known { AreKnown program.now known.old }
    ensures { IfOk result (λ any.
        Expands program.now moves.now schedule.now known.old known.new any) }
{
    let mut any = false;
    let mut is_there = true;
    for step in moves {
        return_to(alloc, program, scene, schedule, is_there)?;
        let moved = follow(alloc, program, scene, schedule, *step, known)?;
        is_there = false;
        let now = either(any, moved);
        any = now;
    }
    Ok(any)
}

/// Whether a final state was found.
fn is_found(found: &[Finding], state: &FinalState) -> bool
    ensures there { result ≡ true → IsFound (final_of state.now) found.now }
    ensures none { result ≡ false → All (λ x. final_of x.state ≡ final_of state.now → ⊥) found.now }
{
    for one in found {
        if one.state.is_same(state) {
            return true;
        }
    }
    false
}

/// Notes the final state of a scene to which a whole schedule has led, unless it was found already.
fn note_end(
    alloc: Global,
    program: &Program,
    scene: &Scene,
    schedule: &[Move],
    found: &mut Vec<Finding>,
) -> Result<(), AllocError>
    requires plays { PlaysSchedule program.now (opening program.now) schedule.now (scene_state scene.now) }
    requires ends { IsEnd program.now (scene_state scene.now) }
    requires witnessed { AreWitnessed program.now found.old.items }
    requires distinct { AreDistinct found.old.items }
    ensures { OnOk result (
        NotesEnd program.now schedule.now found.old.items found.new.items (scene_state scene.now)) }
{
    let _threads = program.threads.len();
    let state = FinalState::of(alloc, scene)?;
    if is_found(found, &state) {
        return Ok(());
    }
    let witness = Vec::from_slice(alloc, schedule)?;
    found.push(Finding { state, witness })?;
    Ok(())
}

/// Follows each move of a known state. If no move is possible, its final state is found.
fn visit(
    alloc: Global,
    program: &Program,
    scene: &mut Scene,
    moves: &[Move],
    schedule: &[Move],
    search: &mut Search,
) -> Result<(), AllocError>
    requires accepted { IsAccepted program.now }
    requires moves { moves.now ≡ moves_up_to (length program.now.threads.items) }
    requires sessions { have_sessions schedule.now ≡ true }
    requires search { IsSearchOf program.now search.old.known search.old.found.items }
    ensures { OnOk result (Visits program.now schedule.now search.old search.new) }
{
    runs_are_determined();
    worlds_go_on_alike();
    essences_tell();
    go_to(alloc, program, scene, schedule)?;
    let kept = keep_moves(alloc, program, scene, moves)?;
    let any = expand(alloc, program, scene, &kept, schedule, &mut search.known)?;
    if any {
        return Ok(());
    }
    go_to(alloc, program, scene, schedule)?;
    note_end(alloc, program, scene, schedule, &mut search.found)?;
    Ok(())
}

/// Whether more final states were found than an exploration looks for.
fn has_too_many(found: &[Finding]) -> bool
    ensures many { result ≡ true → OUTCOMES_MAX < length found.now }
    ensures few { result ≡ false → length found.now ≤ OUTCOMES_MAX }
{
    found.len() > OUTCOMES_MAX
}

/// Reports the progress of a search that has followed `followed` states.
fn tell<W: Watch>(watch: &mut W, followed: usize, search: &Search)
    ensures { Tells (W.told watch.old) (W.told watch.new) (OnStates (progress_of followed search.now) ∷ []) }
{
    let (known, found) = (search.known.list.len(), search.found.len());
    watch.on_states(followed as u64, known as u64, found as u64);
}

/// Follows at most `states` of the known states, and returns whether it followed all. Before each one it reports its progress.
fn visit_all<W: Watch>(
    alloc: Global,
    program: &Program,
    scene: &mut Scene,
    states: usize,
    search: &mut Search,
    watch: &mut W,
) -> Result<bool, AllocError>
    requires accepted { IsAccepted program.now }
    requires search { Searches program.now search.old }
    ensures { (rows : List Progress) × Tells (W.told watch.old) (W.told watch.new) (map OnStates rows)
        × IsSearched program.now states rows search.new result }
{
    let moves = moves_up_to(alloc, program.threads.len())?;
    runs_are_determined();
    worlds_go_on_alike();
    essences_tell();
    for place in 0..states {
        if place == search.known.list.len() {
            return Ok(true);
        }
        if has_too_many(&search.found) {
            return Ok(false);
        }
        tell(watch, place, search);
        let schedule = Vec::from_slice(alloc, &search.known.list[place].schedule)?;
        visit(alloc, program, scene, &moves, &schedule, search)?;
    }
    let count = search.known.list.len();
    Ok(count == states)
}

/// A search that knows the opening alone. The scene must be at the opening.
fn begin(alloc: Global, program: &Program, scene: &Scene) -> Result<Search, AllocError>
    requires { scene_state scene.now ≡ opening program.now }
    ensures { IfOk result (λ search. Searches program.now search) }
{
    let mut known = States::new(alloc);
    let schedule = Vec::new(alloc);
    note_state(alloc, program, scene, schedule, &mut known)?;
    let found = Vec::new(alloc);
    Ok(Search { known, found })
}

/// Searches with a scene that is at the opening.
fn search_with<W: Watch>(
    alloc: Global,
    program: &Program,
    scene: &mut Scene,
    states: usize,
    watch: &mut W,
) -> Result<Explored, AllocError>
    requires accepted { IsAccepted program.now }
    requires opened { scene_state scene.old ≡ opening program.now }
    ensures explored { IfOk result (λ r. HasExplored program.now states r) }
    ensures told { (rows : List Progress) × Tells (W.told watch.old) (W.told watch.new) (map OnStates rows)
        × IsToldOf program.now states rows result }
{
    runs_are_determined();
    let mut search = begin(alloc, program, scene)?;
    let is_whole = visit_all(alloc, program, scene, states, &mut search, watch)?;
    has_one_snapshot(&search.known.seen);
    let Search { known, found } = search;
    Ok(Explored {
        found,
        states: known.list.len() as u64,
        is_whole,
    })
}

/// Searches from a new scene.
fn search_anew<W: Watch>(
    alloc: Global,
    program: &Program,
    states: usize,
    watch: &mut W,
) -> Result<Explored, AllocError>
    requires accepted { IsAccepted program.now }
    ensures explored { IfOk result (λ r. HasExplored program.now states r) }
    ensures told { (rows : List Progress) × Tells (W.told watch.old) (W.told watch.new) (map OnStates rows)
        × IsToldOf program.now states rows result }
{
    let mut scene = Scene::open(alloc, program)?;
    let explored = search_with(alloc, program, &mut scene, states, watch);
    scene.close();
    explored
}

/// Explores a program: each final state that it can have, with a schedule that leads there.
///
/// It follows at most `states` states, those of short schedules first, and no further one once it has found more than
/// [`OUTCOMES_MAX`] final states. If a state is left then, the exploration isn't whole. Even so each final state that it has
/// found is real, and it has found those of all ends among the states that it followed. It keeps some 2,500 bytes a state.
///
/// `OutOfMemory` says that an allocation failed. The results so far are then lost, and a later call starts again. A program with
/// too many threads, or a shape that `Config::check` refuses, is refused before anything is searched. The call doesn't wait.
///
/// `watch` is told the progress of the search before each state that is followed, and then once that it is over, also if an
/// allocation has failed. A program that is refused isn't searched, and `watch` is told nothing. A watch can't change the answer.
pub fn explore<W: Watch>(
    alloc: Global,
    program: &Program,
    states: usize,
    watch: &mut W,
) -> Result<Explored, ExploreFault>
    ensures witnessed { IfOk result (λ r. AreWitnessed program.now r.found.items) }
    ensures distinct { IfOk result (λ r. AreDistinct r.found.items) }
    ensures shortest { IfOk result (λ r. AreShortest program.now r.found.items) }
    ensures ordered { IfOk result (λ r. AreOrdered r.found.items) }
    ensures all { IfOk result (λ r. r.is_whole ≡ true → HasEachOutcome program.now r.found.items) }
    ensures counted { IfOk result (λ r. CountsScenes program.now states r) }
    ensures refused { IsRefusedAs program.now result }
    // The progress before each state that is followed, and one end; nothing if the program is refused.
    ensures told { (calls : List WatchCall) × Tells (W.told watch.old) (W.told watch.new) calls
        × IsToldAs program.now states calls result }
{
    if program.threads.len() > SESSIONS_MAX as usize {
        return Err(ExploreFault::TooManyThreads);
    }
    match program.config.check() {
        Ok(()) => {}
        Err(refusal) => return Err(ExploreFault::BadConfig(refusal)),
    }
    let explored = search_anew(alloc, program, states, watch);
    watch.on_end();
    match explored {
        Ok(explored) => Ok(explored),
        Err(_) => Err(ExploreFault::OutOfMemory),
    }
}
