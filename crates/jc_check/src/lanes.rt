//! Where a guess stands in the calls of each thread. No contract speaks of it: what is guessed is checked.
use crate::record::{Recorded, Rules, Spot, Stored};
use jc_model::LoadAnswer;
use jc_types::Value;
use std::alloc::{AllocError, Global};

/// The factor of a number by which stands are looked up, for each further number: that of FNV-1a for 64 bits.
const FACTOR: u64 = 1099511628211;

/// The calls of each thread, as they stand in the record.
#[derive(Drop)]
pub(crate) struct Lanes {
    /// For each thread its calls.
    pub lanes: Vec<Vec<usize>>,
    /// The calls whose writes may land.
    pub landable: Vec<usize>,
}

/// Where a guess stands.
#[derive(Drop)]
pub(crate) struct Stand {
    /// For each thread: how many of its calls are behind.
    pub nexts: Vec<usize>,
    /// The calls whose writes have landed.
    pub landed: Vec<usize>,
    /// The latest beginning of what has been done.
    pub latest: u64,
    /// How many calls have still to be placed.
    pub left: usize,
    /// What is at the key.
    pub spot: Spot,
}

/// Makes room for a thread.
fn grow(alloc: Global, lanes: &mut Vec<Vec<usize>>, thread: usize) -> Result<(), AllocError>
    requires { Unit {0} }
{
    for _more in lanes.len()..thread.saturating_add(1) {
        lanes.push(Vec::new(alloc))?;
    }
    Ok(())
}

impl Lanes {
    /// The calls of each thread.
    pub fn of(alloc: Global, calls: &[Recorded]) -> Result<Lanes, AllocError>
        requires { Unit {0} }
    {
        let mut lanes = Vec::new(alloc);
        let mut landable = Vec::new(alloc);
        for call in 0..calls.len() {
            let thread = calls[call].thread as usize;
            grow(alloc, &mut lanes, thread)?;
            if thread < lanes.len() {
                lanes[thread].push(call)?;
            }
            if calls[call].may_land() {
                landable.push(call)?;
            }
        }
        Ok(Lanes { lanes, landable })
    }

    /// The first call of a thread that has still to be placed, if there is one.
    pub fn first_left(&self, calls: &[Recorded], stand: &Stand, thread: usize) -> Option<usize>
        requires { Unit {0} }
    {
        if thread >= self.lanes.len() || thread >= stand.nexts.len() {
            return None;
        }
        let lane = &self.lanes[thread];
        for at in stand.nexts[thread]..lane.len() {
            let call = lane[at];
            if call < calls.len() && calls[call].must_be_placed() {
                return Some(call);
            }
        }
        None
    }

    /// The first end of the calls that have still to be placed, if real time counts; otherwise the last time there is.
    pub fn first_end(&self, rules: &Rules, calls: &[Recorded], stand: &Stand) -> u64
        requires { Unit {0} }
    {
        let mut first = u64::MAX;
        if !rules.is_real {
            return first;
        }
        for thread in 0..self.lanes.len() {
            let end = end_at(calls, self.first_left(calls, stand, thread));
            if end < first {
                first = end;
            }
        }
        first
    }

    /// Appends the calls of a thread that may come next, if those that have still to be placed end first at `end`.
    fn push_lane(
        &self,
        rules: &Rules,
        calls: &[Recorded],
        stand: &Stand,
        thread: usize,
        end: u64,
        found: &mut Vec<usize>,
    ) -> Result<(), AllocError>
        requires { Unit {0} }
    {
        if thread >= self.lanes.len() || thread >= stand.nexts.len() {
            return Ok(());
        }
        let lane = &self.lanes[thread];
        for at in stand.nexts[thread]..lane.len() {
            let call = lane[at];
            if call >= calls.len() || calls[call].began > end {
                return Ok(());
            }
            let is_must = calls[call].must_be_placed();
            if is_must || is_alive(rules, &calls[call], stand.latest) {
                found.push(call)?;
            }
            if is_must {
                return Ok(());
            }
        }
        Ok(())
    }

    /// The calls that may come next.
    pub fn nexts(
        &self,
        alloc: Global,
        rules: &Rules,
        calls: &[Recorded],
        stand: &Stand,
    ) -> Result<Vec<usize>, AllocError>
        requires { Unit {0} }
    {
        let end = self.first_end(rules, calls, stand);
        let mut found = Vec::new(alloc);
        for thread in 0..self.lanes.len() {
            self.push_lane(rules, calls, stand, thread, end, &mut found)?;
        }
        Ok(found)
    }

    /// How many calls of its thread are behind after a call.
    fn behind(&self, thread: usize, call: usize) -> usize
        requires { Unit {0} }
    {
        if thread >= self.lanes.len() {
            return 0;
        }
        match self.lanes[thread].binary_search(&call) {
            Ok(at) => at.saturating_add(1),
            Err(at) => at,
        }
    }
}

/// When a call ended, if it has.
pub(crate) fn end_at(calls: &[Recorded], call: Option<usize>) -> u64
    requires { Unit {0} }
{
    match call {
        Some(call) => {
            if call >= calls.len() {
                return u64::MAX;
            }
            calls[call].ended.unwrap_or(u64::MAX)
        }
        None => u64::MAX,
    }
}

/// Whether a call need not come before what has been done, if real time counts.
fn is_alive(rules: &Rules, call: &Recorded, latest: u64) -> bool
    requires { Unit {0} }
{
    if !rules.is_real {
        return true;
    }
    match call.ended {
        Some(at) => latest <= at,
        None => true,
    }
}

impl Stand {
    /// Before anything has been done.
    pub fn first(
        alloc: Global,
        lanes: &Lanes,
        calls: &[Recorded],
        opening: &Spot,
    ) -> Result<Stand, AllocError>
        requires { Unit {0} }
    {
        let mut nexts = Vec::new(alloc);
        nexts.resize(lanes.lanes.len(), 0)?;
        let mut left: usize = 0;
        for call in calls {
            if call.must_be_placed() {
                left = left.saturating_add(1);
            }
        }
        Ok(Stand {
            nexts,
            landed: Vec::new(alloc),
            latest: 0,
            left,
            spot: *opening,
        })
    }

    /// The same once more.
    pub fn copy(&self, alloc: Global) -> Result<Stand, AllocError>
        requires { Unit {0} }
    {
        Ok(Stand {
            nexts: Vec::from_slice(alloc, &self.nexts)?,
            landed: Vec::from_slice(alloc, &self.landed)?,
            latest: self.latest,
            left: self.left,
            spot: self.spot,
        })
    }

    /// Notes that a call has done something.
    fn note_began(&mut self, calls: &[Recorded], call: usize)
        requires { Unit {0} }
    {
        if call < calls.len() && self.latest < calls[call].began {
            self.latest = calls[call].began;
        }
    }

    /// Notes that a call is placed.
    pub fn note_placed(&mut self, lanes: &Lanes, calls: &[Recorded], call: usize)
        requires { Unit {0} }
    {
        if call >= calls.len() {
            return;
        }
        self.note_began(calls, call);
        let thread = calls[call].thread as usize;
        if thread < self.nexts.len() {
            self.nexts[thread] = lanes.behind(thread, call);
        }
        if calls[call].must_be_placed() {
            self.left = self.left.saturating_sub(1);
        }
    }

    /// Notes that a call's write has landed.
    pub fn note_landed(&mut self, calls: &[Recorded], call: usize) -> Result<(), AllocError>
        requires { Unit {0} }
    {
        self.note_began(calls, call);
        self.landed.push(call)?;
        Ok(())
    }

    /// A number by which stands are looked up.
    pub fn print(&self) -> u64
        requires { Unit {0} }
    {
        let calls = with_calls(with_calls(0, &self.nexts), &self.landed);
        let entry = with_entry(calls, &self.spot.entry);
        let store = match &self.spot.store {
            Stored::Unknown => with(entry, 4),
            Stored::Known(value) => with_entry(entry, value),
        };
        match &self.spot.shared {
            LoadAnswer::NotAsked => with(store, 5),
            LoadAnswer::Found(value) => with_bytes(with(store, 6), value.bytes()),
            LoadAnswer::Nothing => with(store, 7),
            LoadAnswer::Failed(code) => with(with(store, 8), *code as u64),
        }
    }
}

/// A number, with one more number.
fn with(print: u64, word: u64) -> u64
    requires { Unit {0} }
{
    (print ^ word).wrapping_mul(FACTOR)
}

/// The same with some more.
fn with_calls(print: u64, calls: &[usize]) -> u64
    requires { Unit {0} }
{
    let mut longer = print;
    for call in calls {
        longer = with(longer, *call as u64);
    }
    with(longer, 1)
}

/// The same with bytes.
fn with_bytes(print: u64, bytes: &[u8]) -> u64
    requires { Unit {0} }
{
    let mut longer = print;
    for byte in bytes {
        longer = with(longer, *byte as u64);
    }
    longer
}

/// The same with an entry.
fn with_entry(print: u64, entry: &Option<Value>) -> u64
    requires { Unit {0} }
{
    match entry {
        Some(value) => with_bytes(with(print, 2), value.bytes()),
        None => with(print, 3),
    }
}
