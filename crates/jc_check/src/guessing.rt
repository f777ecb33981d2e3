//! A guess at an order that explains a record. No contract speaks of it: what is guessed is checked, and that nothing is guessed says
//! nothing. It goes through the calls thread by thread, depth first. A call that changes nothing is placed as soon as it fits, an entry
//! vanishes and a failed write lands only where a call needs it, and where it has been is known by a number alone.
use crate::choices::{Choice, is_blocked, pure_act, push_choices, take_soonest};
use crate::lanes::{Lanes, Stand};
use crate::places::Places;
use crate::playing::after_turn;
use crate::record::{Act, Recorded, Rules, Spot, Turn};
use jc_model::LoadAnswer;
use std::alloc::{AllocError, Global};

/// A stand on the way that is tried, and what may be done there.
#[derive(Drop)]
struct Frame {
    /// The stand.
    stand: Stand,
    /// What may be done.
    choices: Vec<Choice>,
    /// How much of it was tried.
    tried: usize,
    /// How many turns have led there.
    length: usize,
}

/// A way that is tried.
#[derive(Drop)]
struct Way {
    /// Where its memory is taken.
    alloc: Global,
    /// The calls of each thread.
    lanes: Lanes,
    /// The turns.
    turns: Vec<Turn>,
    /// The stands.
    frames: Vec<Frame>,
    /// Where it has been.
    seen: Places,
    /// At how many stands.
    count: usize,
}

/// What is at the key, without a load that found a value: who shares it finds the entry.
fn without_found(spot: &Spot) -> Spot
    requires { Unit {0} }
{
    let shared = match spot.shared {
        LoadAnswer::Found(_) => LoadAnswer::NotAsked,
        _ => spot.shared,
    };
    Spot {
        entry: spot.entry,
        store: spot.store,
        shared,
    }
}

impl Way {
    /// Makes a turn. Returns whether it fits.
    fn play(
        &mut self,
        rules: &Rules,
        calls: &[Recorded],
        stand: &mut Stand,
        turn: Turn,
    ) -> Result<bool, AllocError>
        requires { Unit {0} }
    {
        match after_turn(rules, calls, &stand.spot, turn) {
            Some(spot) => {
                stand.spot = without_found(&spot);
                self.turns.push(turn)?;
                Ok(true)
            }
            None => Ok(false),
        }
    }

    /// Places one call that changes nothing, if there is one that fits.
    fn place_pure(
        &mut self,
        rules: &Rules,
        calls: &[Recorded],
        stand: &mut Stand,
    ) -> Result<bool, AllocError>
        requires { Unit {0} }
    {
        let nexts = self.lanes.nexts(self.alloc, rules, calls, stand)?;
        for next in &nexts {
            let call = *next;
            if call < calls.len()
                && let Some(act) = pure_act(rules, &stand.spot, &calls[call])
                && !is_blocked(rules, calls, &nexts, call)
            {
                stand.note_placed(&self.lanes, calls, call);
                return self.play(rules, calls, stand, Turn::Call { call, act });
            }
        }
        Ok(false)
    }

    /// Places the calls that change nothing.
    fn place_all_pure(
        &mut self,
        rules: &Rules,
        calls: &[Recorded],
        stand: &mut Stand,
    ) -> Result<(), AllocError>
        requires { Unit {0} }
    {
        for _call in 0..calls.len() {
            if !self.place_pure(rules, calls, stand)? {
                return Ok(());
            }
        }
        Ok(())
    }

    /// What may be done at a stand: first by calls that have to be placed, those that ended first before the others.
    fn choices_at(
        &self,
        rules: &Rules,
        calls: &[Recorded],
        stand: &Stand,
    ) -> Result<Vec<Choice>, AllocError>
        requires { Unit {0} }
    {
        let mut nexts = self.lanes.nexts(self.alloc, rules, calls, stand)?;
        let mut choices = Vec::new(self.alloc);
        let mut others = Vec::new(self.alloc);
        for place in 0..nexts.len() {
            take_soonest(calls, &mut nexts, place);
            let call = if place < nexts.len() { nexts[place] } else { 0 };
            if call < calls.len() && calls[call].must_be_placed() {
                push_choices(rules, calls, &self.lanes, stand, call, &mut choices)?;
            } else {
                push_choices(rules, calls, &self.lanes, stand, call, &mut others)?;
            }
        }
        choices.extend_from_slice(&others)?;
        Ok(choices)
    }

    /// Comes to a stand. Returns whether all calls are placed there.
    fn enter(&mut self, rules: &Rules, calls: &[Recorded], stand: Stand) -> Result<bool, AllocError>
        requires { Unit {0} }
    {
        let mut stand = stand;
        self.place_all_pure(rules, calls, &mut stand)?;
        if stand.left == 0 {
            return Ok(true);
        }
        let print = stand.print();
        if self.seen.find(print).is_some() {
            return Ok(false);
        }
        self.seen.note(print, 0)?;
        self.count = self.count.saturating_add(1);
        let choices = self.choices_at(rules, calls, &stand)?;
        let length = self.turns.len();
        self.frames.push(Frame {
            stand,
            choices,
            tried: 0,
            length,
        })?;
        Ok(false)
    }

    /// The next choice to try, with the stand where it is made; the way is shorter by what was tried wholly.
    fn next(&mut self) -> Result<Option<(Stand, Choice)>, AllocError>
        requires { Unit {0} }
    {
        for _frame in 0..usize::MAX {
            if self.frames.is_empty() {
                return Ok(None);
            }
            let last = self.frames.len() - 1;
            let frame = &mut self.frames[last];
            if frame.tried < frame.choices.len() {
                let choice = frame.choices[frame.tried];
                frame.tried += 1;
                self.turns.truncate(frame.length);
                let stand = frame.stand.copy(self.alloc)?;
                return Ok(Some((stand, choice)));
            }
            self.frames.pop();
        }
        Ok(None)
    }

    /// Does what was chosen. Returns whether it fits.
    fn choose(
        &mut self,
        rules: &Rules,
        calls: &[Recorded],
        stand: &mut Stand,
        choice: Choice,
    ) -> Result<bool, AllocError>
        requires { Unit {0} }
    {
        if let Some(call) = choice.landing {
            stand.note_landed(calls, call)?;
            let turn = Turn::Call {
                call,
                act: Act::Land,
            };
            if !self.play(rules, calls, stand, turn)? {
                return Ok(false);
            }
        }
        if choice.vanishes && !self.play(rules, calls, stand, Turn::Vanish)? {
            return Ok(false);
        }
        stand.note_placed(&self.lanes, calls, choice.call);
        let turn = Turn::Call {
            call: choice.call,
            act: choice.act,
        };
        self.play(rules, calls, stand, turn)
    }
}

/// Turns that seem to explain a record, if some are found at the first `budget` stands.
pub(crate) fn guess(
    alloc: Global,
    rules: &Rules,
    calls: &[Recorded],
    opening: &Spot,
    budget: usize,
) -> Result<Option<Vec<Turn>>, AllocError>
    requires { Unit {0} }
{
    let lanes = Lanes::of(alloc, calls)?;
    let stand = Stand::first(alloc, &lanes, calls, opening)?;
    let mut way = Way {
        alloc,
        lanes,
        turns: Vec::new(alloc),
        frames: Vec::new(alloc),
        seen: Places::new(alloc),
        count: 0,
    };
    if way.enter(rules, calls, stand)? {
        return Ok(Some(way.turns));
    }
    for _choice in 0..u64::MAX {
        let Some((stand, choice)) = way.next()? else {
            return Ok(None);
        };
        let mut stand = stand;
        if way.choose(rules, calls, &mut stand, choice)? && way.enter(rules, calls, stand)? {
            return Ok(Some(way.turns));
        }
        if way.count > budget {
            return Ok(None);
        }
    }
    Ok(None)
}
