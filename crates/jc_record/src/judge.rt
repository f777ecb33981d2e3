//! The verdict on each key.
ghost use Rattle.std.specs.Prelude.{◌≡◌, ◌++◌, ◌+◌, ◌<◌, ◌^◌, ℕ, List, map, IfOk, OnOk};
ghost use Rattle.std.specs.List.Sorted.{IsPermutation};
ghost use Rattle.jc_check.specs.Explains.{IsExplained};
ghost use Rattle.jc_record.specs.Reading.{record_value};
ghost use Rattle.jc_record.specs.Running.{at_key, end_of_judged, end_of_verdict, is_listed, listed_text, opening_spot, rules_of, no_key, AnswersCase, AnswersKey, AnswersKeys, IsDetail, IsJudged, PartTold};

use crate::answer::{KeyEnd, Tally, put_calls, put_key_line};
use crate::at_key::KeyCalls;
use crate::details::{put_part, put_reason, put_witness};
use crate::index::{Index, places_at};
use crate::reading::Record;
use jc_check::{
    PartLimits, Recorded, Rules, Spot, Stored, Verdict, check, reason_of, smallest_part,
};
use jc_model::LoadAnswer;
use jc_types::{Config, Key};
use std::alloc::{AllocError, Global};

/// The most calls of a key that isn't explained that an answer lists.
pub const LISTED_MAX: usize = 40;

/// For how many keys that aren't explained, the first ones, an answer tells a part that isn't.
pub const PARTS_MAX: u64 = 10;

/// The most nodes that one try for such a part may meet.
pub const PART_NODES: usize = 5_000;

/// How many nodes all tries for such a part may meet, times the number of calls: a node takes the longer the more calls there are.
pub const PART_WORK: usize = 4_000_000;

/// What is asked of a record.
#[derive(Clone, Copy, Debug, PartialEq, Eq)]
pub struct Asked {
    /// Whether a loader's answer has to be what the store has: cache and store are judged as one.
    pub is_store_known: bool,
    /// Whether an entry may vanish at any time: evictions and expiry.
    pub may_vanish: bool,
    /// Whether the order in real time counts, and not only that of each thread.
    pub is_real: bool,
    /// The most states that are met for one key.
    pub states: usize,
    /// Whether the order that explains a key is told.
    pub is_ordered: bool,
}

/// What calls are judged by.
#[derive(Clone, Copy)]
struct Case {
    /// The rules.
    rules: Rules,
    /// What is at the key at first.
    opening: Spot,
    /// The most states that are met.
    budget: usize,
    /// Whether one of the calls is odd.
    odd: bool,
}

/// What is told of a key besides its calls.
#[derive(Clone, Copy)]
struct Wanted {
    /// The order that explains it.
    order: bool,
    /// A part of it that isn't explained.
    part: bool,
}

impl Asked {
    /// The rules of a record with these flags.
    fn rules(&self, flags: (bool, bool)) -> Rules
        ensures { result ≡ rules_of self.now flags }
    {
        Rules {
            config: Config {
                stripes: 1,
                capacity: 1,
                history: 16,
                read_through: flags.0,
                write_through: flags.1,
            },
            is_store_known: self.is_store_known,
            may_vanish: self.may_vanish,
            is_real: self.is_real,
        }
    }
}

fn opening_spot(store: Stored) -> Spot
    ensures { result ≡ opening_spot store }
{
    Spot {
        entry: None,
        store,
        shared: LoadAnswer::NotAsked,
    }
}

fn end_of_verdict(budget: usize, verdict: &Verdict) -> KeyEnd
    ensures { result ≡ end_of_verdict budget verdict.now }
{
    match verdict {
        Verdict::Explained(_) => KeyEnd::Explained,
        Verdict::Refuted(_) => KeyEnd::NotExplained,
        Verdict::Stopped(_) => KeyEnd::GaveUp(budget),
    }
}

/// The verdict on these calls; none if one of them is odd.
fn judged(alloc: Global, case: &Case, calls: &[Recorded]) -> Result<Option<Verdict>, AllocError>
    ensures { IfOk result (λ o. IsJudged case.now.rules case.now.opening case.now.budget calls.now case.now.odd o) }
{
    if case.odd {
        return Ok(None);
    }
    let verdict = check(alloc, &case.rules, calls, &case.opening, case.budget)?;
    Ok(Some(verdict))
}

fn end_of_judged(budget: usize, judged: &Option<Verdict>) -> KeyEnd
    ensures { result ≡ end_of_judged budget judged.now }
{
    match judged {
        None => KeyEnd::Odd,
        Some(verdict) => end_of_verdict(budget, verdict),
    }
}

fn is_listed(end: KeyEnd) -> bool
    ensures { result ≡ is_listed end }
{
    match end {
        KeyEnd::Explained | KeyEnd::GaveUp(_) => false,
        KeyEnd::NotExplained | KeyEnd::Odd => true,
    }
}

/// The calls of a key that isn't explained.
fn put_listed(out: &mut Vec<u8>, end: KeyEnd, calls: &[Recorded]) -> Result<(), AllocError>
    ensures { OnOk result (out.new.items ≡ out.old.items ++ listed_text end calls.now) }
{
    if !is_listed(end) {
        return Ok(());
    }
    let most = calls.len().min(LISTED_MAX);
    put_calls(out, &calls[..most])
}

/// Tells a part of calls that no order explains, and why.
fn put_refuted(
    alloc: Global,
    out: &mut Vec<u8>,
    case: &Case,
    calls: Vec<Recorded>,
) -> Result<(), AllocError>
    requires { IsExplained case.now.rules calls.items case.now.opening → ⊥ }
    ensures { OnOk result ((more : List ℕ) × (out.new.items ≡ out.old.items ++ more)
        × PartTold case.now.rules calls.items case.now.opening more) }
{
    let limits = PartLimits {
        each: PART_NODES,
        all: PART_WORK / calls.len().max(1),
    };
    let part = smallest_part(alloc, &case.rules, calls, &case.opening, limits)?;
    put_part(out, &part)?;
    match reason_of(alloc, &case.rules, &part.calls, &case.opening, PART_NODES)? {
        None => Ok(()),
        Some(reason) => {
            put_reason(out, &case.rules, &part.calls, &reason)?;
            Ok(())
        }
    }
}

/// Tells the order that explains calls, or a part of them that no order explains, as is wanted.
fn put_detail(
    alloc: Global,
    out: &mut Vec<u8>,
    wanted: Wanted,
    case: &Case,
    calls: Vec<Recorded>,
    judged: &Option<Verdict>,
) -> Result<(), AllocError>
    requires { IsJudged case.now.rules case.now.opening case.now.budget calls.items case.now.odd judged.now }
    ensures { OnOk result ((more : List ℕ) × (out.new.items ≡ out.old.items ++ more)
        × IsDetail wanted.order wanted.part case.now.rules calls.items case.now.opening judged.now more) }
{
    match judged {
        None | Some(Verdict::Stopped(_)) => Ok(()),
        Some(Verdict::Explained(turns)) => {
            if !wanted.order {
                return Ok(());
            }
            put_witness(out, &calls, turns)
        }
        Some(Verdict::Refuted(_)) => {
            if !wanted.part {
                return Ok(());
            }
            put_refuted(alloc, out, case, calls)?;
            Ok(())
        }
    }
}

/// The calls at a key, by the places of its lines.
fn calls_at<'a>(
    alloc: Global,
    history: &Record<'a>,
    key: &Key,
    places: &[usize],
    every: &[usize],
) -> Result<KeyCalls, AllocError>
    ensures { IfOk result (λ calls. calls ≡ at_key key.now (record_value history.now) places.now every.now) }
{
    let mut words = Vec::new(alloc);
    let mut calls = KeyCalls::new(alloc);
    let through = history.config.1;
    calls.add_places(alloc, key, through, &history.notes, places, &mut words)?;
    calls.add_places(alloc, key, through, &history.notes, every, &mut words)?;
    Ok(calls)
}

/// The calls in the order of their beginnings, in which a search tries them.
fn in_order(calls: Vec<Recorded>) -> Result<Vec<Recorded>, AllocError>
    ensures { IfOk result (λ sorted. IsPermutation calls.items sorted.items) }
{
    let mut sorted = calls;
    sorted.sort_by_key(|call| call.began)?;
    Ok(sorted)
}

/// Appends the answer for a key with these calls.
fn put_case(
    alloc: Global,
    out: &mut Vec<u8>,
    case: &Case,
    wanted: Wanted,
    key: &Key,
    calls: Vec<Recorded>,
) -> Result<KeyEnd, AllocError>
    ensures { IfOk result (λ end. (text : List ℕ) × (out.new.items ≡ out.old.items ++ text)
        × AnswersCase case.now wanted key.now calls.items text end) }
{
    let judged = judged(alloc, case, &calls)?;
    let end = end_of_judged(case.budget, &judged);
    put_key_line(out, key, end, &calls)?;
    put_listed(out, end, &calls)?;
    put_detail(alloc, out, wanted, case, calls, &judged)?;
    Ok(end)
}

/// The lines of a key: `places` are of those that name it, and of those that name every key.
#[derive(Clone, Copy)]
struct KeyLines<'a> {
    /// The key.
    key: &'a Key,
    /// The places.
    places: &'a [usize],
    /// Those of the others.
    every: &'a [usize],
}

/// Appends the answer for a key.
fn put_key(
    alloc: Global,
    out: &mut Vec<u8>,
    asked: &Asked,
    history: &Record<'_>,
    lines: KeyLines<'_>,
    is_told: bool,
) -> Result<KeyEnd, AllocError>
    ensures { IfOk result (λ end. (text : List ℕ) × (out.new.items ≡ out.old.items ++ text)
        × AnswersKey asked.now (record_value history.now) lines.entry.key.now lines.entry.places.now lines.entry.every.now is_told text end) }
{
    let KeyCalls { store, calls, odd } = calls_at(
        alloc,
        history,
        lines.key,
        lines.places,
        lines.every,
    )?;
    let calls = in_order(calls)?;
    let case = Case {
        rules: asked.rules(history.config),
        opening: opening_spot(store),
        budget: asked.states,
        odd,
    };
    let wanted = Wanted {
        order: asked.is_ordered,
        part: is_told,
    };
    put_case(alloc, out, &case, wanted, lines.key, calls)
}

/// Appends the answers for all keys, and counts how they ended.
pub(crate) fn put_keys(
    alloc: Global,
    out: &mut Vec<u8>,
    asked: &Asked,
    history: &Record<'_>,
    index: &Index,
) -> Result<Tally, AllocError>
    ensures { IfOk result (λ tally. (text : List ℕ) × (out.new.items ≡ out.old.items ++ text)
        × AnswersKeys asked.now (record_value history.now) index.now 0 (index.now).keys no_key text tally) }
{
    let keys = index.keys.as_slice();
    let mut tally = Tally::new();
    for at in 0..keys.len() {
        let places = places_at(alloc, at, &index.mentions)?;
        let lines = KeyLines {
            key: &keys[at],
            places: places.as_slice(),
            every: index.every.as_slice(),
        };
        let end = put_key(alloc, out, asked, history, lines, tally.refuted < PARTS_MAX)?;
        tally = tally.with(end);
    }
    Ok(tally)
}
