//! Lines, played on a world.
ghost use Rattle.std.specs.Prelude.{◌≡◌, ◌++◌, ◌∷◌, List, ℕ, [], Some, None, true, OnOk, IfOk, MatchOption};
ghost use Rattle.jc_types.specs.Limits.{check};
ghost use Rattle.jc_world.specs.World.{start};
ghost use Rattle.jc_world.specs.Runs.{AllFit};
ghost use Rattle.jc_text.specs.declared.read.line.Line.TheVariants as lines;
ghost use Rattle.jc_script.specs.LineEvents.{is_callable};
ghost use Rattle.jc_script.specs.Faults.{config_fault};
ghost use Rattle.jc_script.specs.Transcript.{opened_world, PlaysEvents, PlaysCall, PlaysOne, Audited, untold_text, PlaysLine, Prints, fault_of};

mod acting;
mod beginning;

use self::acting::act_on;
use self::beginning::{play_begin, play_bulk};
use jc_model::{LoadAnswer, Op};
use jc_text::print::audit::put_audit;
use jc_text::print::lines::{put_fault_code, put_keys_line};
use jc_text::print::put;
use jc_text::print::shown::put_texts;
use jc_text::read::grammar::read;
use jc_text::read::line::Line;
use jc_text::{Fault, ReadError};
use jc_types::{Config, Key, Refusal};
use jc_world::command::Command;
use jc_world::event::{Shown, WorldEvent};
use jc_world::world::World;
use std::alloc::{AllocError, Global};

/// The keys of one line, its events, and what the world shows of them. Each line uses the same room again.
#[derive(Drop)]
struct LineBuffers {
    keys: Vec<Key>,
    events: Vec<WorldEvent>,
    shown: Vec<Shown>,
}

/// A world that is played line by line, and the room that each line uses again.
pub struct Player {
    /// The world, once a line has opened it.
    pub world: Option<World>,
    line: Line,
    buffers: LineBuffers,
}

impl Player {
    /// No world is open.
    pub fn new(alloc: Global) -> Player
        ensures { result.world ≡ None }
    {
        Player {
            world: None,
            line: Line::Audit,
            buffers: LineBuffers {
                keys: Vec::new(alloc),
                events: Vec::new(alloc),
                shown: Vec::new(alloc),
            },
        }
    }

    /// Plays one line: its output is appended to `out`, or its fault is returned and nothing is done. After an error the player may
    /// only be closed, and `out` may have more at its end.
    ///
    /// `words` is room for the line's words, which may hold those of another line.
    pub fn play<'a>(
        &mut self,
        alloc: Global,
        text: &'a [u8],
        words: &mut Vec<&'a [u8]>,
        out: &mut Vec<u8>,
    ) -> Result<Option<Fault>, AllocError>
        ensures { IfOk result (λ r. MatchOption r
            ((printed : List ℕ) × Prints (opened_world self.old.world) text.now printed (opened_world self.new.world) × (out.new.items ≡ out.old.items ++ printed))
            (λ fault. (fault_of (opened_world self.old.world) text.now ≡ Some fault) × (out.new.items ≡ out.old.items)
            × (opened_world self.new.world ≡ opened_world self.old.world))) }
    {
        match read(alloc, text, words, &mut self.line) {
            Err(ReadError::Memory) => Err(AllocError),
            Err(ReadError::Fault(fault)) => Ok(Some(fault)),
            Ok(false) => Ok(None),
            Ok(true) => play_line(alloc, &mut self.world, &self.line, &mut self.buffers, out),
        }
    }

    /// Ends the world, if one was opened.
    pub fn close(self) {
        let Player {
            world,
            line,
            buffers: _buffers,
        } = self;
        drop(line);
        close(world);
    }
}

/// A line that was read, if it has no fault.
fn play_line(
    alloc: Global,
    world: &mut Option<World>,
    line: &Line,
    buffers: &mut LineBuffers,
    out: &mut Vec<u8>,
) -> Result<Option<Fault>, AllocError>
    requires { is_callable line.now ≡ true }
    ensures { IfOk result (λ r. PlaysLine (opened_world world.old) line.now r out.old.items out.new.items (opened_world world.new)) }
{
    if let Some(world) = world {
        return play_line_on(alloc, world, line, buffers, out);
    }
    match line {
        Line::Open(config) => open(alloc, world, config, out),
        _ => Ok(Some(Fault::NotOpen)),
    }
}

/// The same, on a world that is open.
fn play_line_on(
    alloc: Global,
    world: &mut World,
    line: &Line,
    buffers: &mut LineBuffers,
    out: &mut Vec<u8>,
) -> Result<Option<Fault>, AllocError>
    requires { is_callable line.now ≡ true }
    ensures { IfOk result (λ r. PlaysLine (Some world.old.world) line.now r out.old.items out.new.items (Some world.new.world)) }
{
    match line {
        Line::Open(_) => Ok(Some(Fault::OpenTwice)),
        Line::Set(key, value) => {
            if !world.is_fresh() {
                return Ok(Some(Fault::SetTooLate));
            }
            world.set(key, value)?;
            Ok(None)
        }
        Line::Begin(number, session, operation) => {
            play_begin(alloc, world, *number, *session, operation, buffers, out)
        }
        Line::BeginBulk(number, session, call) => {
            play_bulk(alloc, world, *number, *session, call, buffers, out)
        }
        Line::OfCall(number, act) => act_on(alloc, world, *number, act, buffers, out),
        Line::Foreign(key, value) => {
            let (key, value) = (*key, *value);
            play_one(world, WorldEvent::Foreign { key, value }, buffers, out)?;
            Ok(None)
        }
        Line::Invalidate(key) => invalidate(world, key, buffers, out),
        Line::Reopen(config) => reopen(world, config, buffers, out),
        Line::Audit => {
            audit(alloc, world, out)?;
            Ok(None)
        }
        Line::Untold => {
            untold(alloc, world, out)?;
            Ok(None)
        }
    }
}

fn close(world: Option<World>) {
    if let Some(world) = world {
        world.close();
    }
}

fn world_of(alloc: Global, config: &Config) -> Result<World, AllocError>
    ensures { IfOk result (λ world. opened_world (Some world) ≡ Some (start config.now)) }
{
    match World::new(alloc, config) {
        Ok(world) => Ok(world),
        Err(_) => Err(AllocError),
    }
}

fn fault_of_config(config: &Config) -> Option<Fault>
    ensures { result ≡ config_fault (check config.now) }
{
    match config.check() {
        Ok(()) => None,
        Err(Refusal::BadConfig(field)) => Some(Fault::BadConfig(field)),
        Err(_) => None,
    }
}

#[inline(never)]
fn open(
    alloc: Global,
    world: &mut Option<World>,
    config: &Config,
    out: &mut Vec<u8>,
) -> Result<Option<Fault>, AllocError>
    requires closed { opened_world world.old ≡ None }
    ensures { IfOk result (λ r. PlaysLine None (lines.Open config.now) r out.old.items out.new.items (opened_world world.new)) }
{
    if let Some(fault) = fault_of_config(config) {
        return Ok(Some(fault));
    }
    let before = world.replace(world_of(alloc, config)?);
    close(before);
    put(out, "open\n")?;
    Ok(None)
}

impl LineBuffers {
    /// Plays the events of a line, and prints what the world shows of them.
    fn play(&mut self, world: &mut World, out: &mut Vec<u8>) -> Result<(), AllocError>
        requires { AllFit world.old.world self.old.events.items }
        ensures { OnOk result ((text : List ℕ)
            × PlaysEvents world.old.world self.old.events.items text world.new.world
            × (out.new.items ≡ out.old.items ++ text)) }
    {
        play_events(world, &self.events, &mut self.shown, out)
    }

    /// Plays the events of a call, and prints what the world shows of them, then the line's fault.
    fn play_call(
        &mut self,
        world: &mut World,
        call: u64,
        fault: Option<u32>,
        out: &mut Vec<u8>,
    ) -> Result<(), AllocError>
        requires { AllFit world.old.world self.old.events.items }
        ensures { OnOk result ((text : List ℕ)
            × PlaysCall world.old.world call self.old.events.items fault text (Some world.new.world)
            × (out.new.items ≡ out.old.items ++ text)) }
    {
        self.play(world, out)?;
        put_fault_code(out, call, fault)?;
        Ok(())
    }
}

/// Plays events, and prints their outcomes. `shown` is a buffer for these, which may hold the outcomes of other events.
fn play_events(
    world: &mut World,
    events: &[WorldEvent],
    shown: &mut Vec<Shown>,
    out: &mut Vec<u8>,
) -> Result<(), AllocError>
    requires { AllFit world.old.world events.now }
    ensures { OnOk result ((text : List ℕ)
        × PlaysEvents world.old.world events.now text world.new.world
        × (out.new.items ≡ out.old.items ++ text)) }
{
    shown.clear();
    world.play(events, shown)?;
    put_texts(out, events, shown)?;
    Ok(())
}

/// Plays one event that fits, and prints what the world shows of it.
#[inline(never)]
fn play_one(
    world: &mut World,
    event: WorldEvent,
    buffers: &mut LineBuffers,
    out: &mut Vec<u8>,
) -> Result<(), AllocError>
    requires { AllFit world.old.world (event ∷ []) }
    ensures { OnOk result ((text : List ℕ)
        × PlaysOne world.old.world event text (Some world.new.world)
        × (out.new.items ≡ out.old.items ++ text)) }
{
    buffers.events.clear();
    buffers.events.push(event)?;
    buffers.play(world, out)?;
    Ok(())
}

/// The cache forgets a key, if a place is free for that.
#[tactic(auto, using(crate::proofs::Fitting::invalid_fits))]
#[inline(never)]
fn invalidate(
    world: &mut World,
    key: &Key,
    buffers: &mut LineBuffers,
    out: &mut Vec<u8>,
) -> Result<Option<Fault>, AllocError>
    ensures { IfOk result (λ r. PlaysLine (Some world.old.world) (lines.Invalidate key.now) r out.old.items out.new.items (Some world.new.world)) }
{
    let event = WorldEvent::Invalidate { key: *key };
    if !world.fits(&event) {
        return Ok(Some(Fault::NotNow));
    }
    play_one(world, event, buffers, out)?;
    Ok(None)
}

/// Opens the world again, if the shape has no fault and no call is under way.
#[tactic(auto, using(crate::proofs::Fitting::reopening_fits))]
#[inline(never)]
fn reopen(
    world: &mut World,
    config: &Config,
    buffers: &mut LineBuffers,
    out: &mut Vec<u8>,
) -> Result<Option<Fault>, AllocError>
    ensures { IfOk result (λ r. PlaysLine (Some world.old.world) (lines.Reopen config.now) r out.old.items out.new.items (Some world.new.world)) }
{
    if let Some(fault) = fault_of_config(config) {
        return Ok(Some(fault));
    }
    let event = WorldEvent::Reopen { config: *config };
    if !world.fits(&event) {
        return Ok(Some(Fault::NotNow));
    }
    play_one(world, event, buffers, out)?;
    Ok(None)
}

#[inline(never)]
fn audit(alloc: Global, world: &World, out: &mut Vec<u8>) -> Result<(), AllocError>
    ensures { OnOk result ((text : List ℕ) × Audited world.now.world text × (out.new.items ≡ out.old.items ++ text)) }
{
    let audit = world.audit(alloc)?;
    put_audit(out, &audit)?;
    Ok(())
}

/// The keys that are untold, in one line.
#[inline(never)]
fn untold(alloc: Global, world: &World, out: &mut Vec<u8>) -> Result<(), AllocError>
    ensures { OnOk result (out.new.items ≡ out.old.items ++ untold_text world.now.world) }
{
    let keys = world.untold_keys(alloc)?;
    put_keys_line(out, "untold", &keys)?;
    Ok(())
}
