//! The nodes that a search has come to, each once.
ghost use Rattle.std.specs.Prelude.{◌≡◌, ◌↔◌, ◌<◌, ℕ, ◌++◌, ◌∷◌, [], IfOk, IsTrue, OnOk, length, true};
ghost use Rattle.std.specs.List.{fold};
ghost use Rattle.jc_check.specs.Nodes.{IsAmong, IsCovered, NodeValue, PlaysNodes, node_value};
ghost use Rattle.jc_check.specs.States.{AreKnown, Comes, Grows, HasMorePlaces, HavePlaces, HavePrints, HaveSameMarks, HaveSameParts, HaveSameSpots, IsAt, IsEmpty};
ghost use Rattle.jc_check.specs.States.{IsNodeAt, node_values, print_of, print_of_rest, print_with, print_with_entry, print_with_load, print_with_mark};
ghost use Rattle.jc_check.specs.States.{print_with_spot, print_with_store};

use crate::node::Node;
use crate::places::Places;
use crate::record::{Recorded, Rules, Spot, Stored, Turn};
use jc_model::LoadAnswer;
use jc_model::same::is_same_load;
use jc_types::Value;
use std::alloc::{AllocError, Global};

/// The factor of a fingerprint for each further number: that of FNV-1a for 64 bits.
const PRINT_FACTOR: u64 = 1099511628211;

/// How a search came to a node.
#[derive(Clone, Copy, PartialEq, Eq)]
pub struct Step {
    /// The place of the node before it.
    pub from: usize,
    /// The turn that led from there to it.
    pub turn: Turn,
}

/// The nodes, in the order in which they were met.
#[derive(Drop)]
pub struct States {
    /// Where their memory is taken.
    pub alloc: Global,
    /// The nodes.
    pub list: Vec<Node>,
    /// How each was met; of the opening it says nothing.
    pub steps: Vec<Step>,
    /// The fingerprint of each.
    pub prints: Vec<u64>,
    /// The places of the fingerprints.
    pub places: Places,
    /// The places of those by which nodes are looked up that may cover others.
    pub near: Places,
}

/// A fingerprint with one more number.
pub(crate) fn with_word(print: u64, word: u64) -> u64
    ensures { result ≡ print_with print word }
{
    (print ^ word).wrapping_mul(PRINT_FACTOR)
}

/// A fingerprint with one more mark.
fn with_mark(print: u64, mark: bool) -> u64
    ensures { result ≡ print_with_mark print mark }
{
    if mark {
        with_word(print, 1)
    } else {
        with_word(print, 0)
    }
}

/// A fingerprint with marks.
fn with_marks(print: u64, marks: &[bool]) -> u64
    ensures { result ≡ fold print_with_mark print marks.now }
{
    let mut longer = print;
    for mark in marks {
        longer = with_mark(longer, *mark);
    }
    longer
}

/// A fingerprint with calls.
fn with_calls(print: u64, calls: &[usize]) -> u64
    ensures { result ≡ fold print_with print calls.now }
{
    let mut longer = print;
    for call in calls {
        longer = with_word(longer, *call as u64);
    }
    longer
}

/// A fingerprint with bytes.
fn with_bytes(print: u64, bytes: &[u8]) -> u64
    ensures { result ≡ fold print_with print bytes.now }
{
    let mut longer = print;
    for byte in bytes {
        longer = with_word(longer, *byte as u64);
    }
    longer
}

/// A fingerprint with an entry.
fn with_entry(print: u64, entry: &Option<Value>) -> u64
    ensures { result ≡ print_with_entry print entry.now }
{
    match entry {
        Some(value) => with_bytes(with_word(print, 2), value.bytes()),
        None => with_word(print, 3),
    }
}

/// A fingerprint with what the store has.
fn with_store(print: u64, store: &Stored) -> u64
    ensures { result ≡ print_with_store print store.now }
{
    match store {
        Stored::Unknown => with_word(print, 4),
        Stored::Known(value) => with_entry(print, value),
    }
}

/// A fingerprint with a loader's answer.
fn with_load(print: u64, answer: &LoadAnswer) -> u64
    ensures { result ≡ print_with_load print answer.now }
{
    match answer {
        LoadAnswer::NotAsked => with_word(print, 5),
        LoadAnswer::Found(value) => with_bytes(with_word(print, 6), value.bytes()),
        LoadAnswer::Nothing => with_word(print, 7),
        LoadAnswer::Failed(code) => with_word(with_word(print, 8), *code as u64),
    }
}

/// A fingerprint with what is at a key.
pub(crate) fn with_spot(print: u64, spot: &Spot) -> u64
    ensures { result ≡ print_with_spot print spot.now }
{
    with_load(
        with_store(with_entry(print, &spot.entry), &spot.store),
        &spot.shared,
    )
}

/// Whether two lists of marks are the same.
fn are_same_marks(first: &[bool], second: &[bool]) -> bool
    ensures { IsTrue result ↔ (first.now ≡ second.now) }
{
    if first.len() != second.len() {
        return false;
    }
    for at in 0..first.len() {
        if first[at] != second[at] {
            return false;
        }
    }
    true
}

/// Whether two entries are the same.
fn is_same_entry(first: &Option<Value>, second: &Option<Value>) -> bool
    ensures { IsTrue result ↔ (first.now ≡ second.now) }
{
    match first {
        Some(a) => match second {
            Some(b) => *a == *b,
            None => false,
        },
        None => second.is_none(),
    }
}

/// Whether the same is known of the store.
fn is_same_store(first: &Stored, second: &Stored) -> bool
    ensures { IsTrue result ↔ (first.now ≡ second.now) }
{
    match first {
        Stored::Unknown => match second {
            Stored::Unknown => true,
            Stored::Known(_) => false,
        },
        Stored::Known(a) => match second {
            Stored::Unknown => false,
            Stored::Known(b) => is_same_entry(a, b),
        },
    }
}

/// Whether the same is at the key.
pub(crate) fn is_same_spot(first: &Spot, second: &Spot) -> bool
    ensures { IsTrue result ↔ HaveSameSpots first.now second.now }
{
    is_same_entry(&first.entry, &second.entry)
        && is_same_store(&first.store, &second.store)
        && is_same_load(&first.shared, &second.shared)
}

/// Whether two lists of calls are the same.
fn are_same_calls(first: &[usize], second: &[usize]) -> bool
    ensures { IsTrue result ↔ (first.now ≡ second.now) }
{
    if first.len() != second.len() {
        return false;
    }
    for at in 0..first.len() {
        if first[at] != second[at] {
            return false;
        }
    }
    true
}

impl Node {
    /// A number by which nodes are looked up that differ at most in the writes that have landed.
    pub(crate) fn print_of_rest(&self) -> u64
        ensures { result ≡ print_of_rest (node_value self.now) }
    {
        let from = with_word(0, self.settled.from as u64);
        let marks = with_marks(with_word(from, self.settled.end as u64), &self.settled.rest);
        with_spot(marks, &self.spot)
    }

    /// A number by which nodes are looked up: equal nodes have the same number.
    pub(crate) fn print(&self) -> u64
        ensures { result ≡ print_of (node_value self.now) }
    {
        with_calls(self.print_of_rest(), &self.landed)
    }

    /// Whether the same calls are settled in two nodes.
    fn has_same_marks(&self, other: &Node) -> bool
        ensures { IsTrue result ↔ HaveSameMarks (node_value self.now) (node_value other.now) }
    {
        self.settled.from == other.settled.from
            && self.settled.end == other.settled.end
            && are_same_marks(&self.settled.rest, &other.settled.rest)
    }

    /// Whether two nodes have the same parts.
    fn has_same_parts(&self, other: &Node) -> bool
        ensures { IsTrue result ↔ HaveSameParts (node_value self.now) (node_value other.now) }
    {
        self.has_same_marks(other)
            && are_same_calls(&self.landed, &other.landed)
            && is_same_spot(&self.spot, &other.spot)
    }

    /// Whether two nodes are the same.
    pub(crate) fn is_same(&self, other: &Node) -> bool
        ensures { IsTrue result ↔ (node_value self.now ≡ node_value other.now) }
    {
        self.has_same_parts(other)
    }
}

impl States {
    /// No nodes.
    pub(crate) fn new(alloc: Global) -> States
        ensures { IsEmpty result }
    {
        States {
            alloc,
            list: Vec::new(alloc),
            steps: Vec::new(alloc),
            prints: Vec::new(alloc),
            places: Places::new(alloc),
            near: Places::new(alloc),
        }
    }

    /// Whether the node at a place is this one.
    fn is_at(&self, place: usize, node: &Node, print: u64) -> bool
        requires inside { place < length self.now.list.items }
        requires prints { HavePrints self.now }
        requires print { print ≡ print_of (node_value node.now) }
        ensures { IsTrue result ↔ IsNodeAt self.now.list.items place (node_value node.now) }
    {
        if self.prints[place] != print {
            return false;
        }
        self.list[place].is_same(node)
    }
}

impl States {
    /// Whether some node is this one: each is looked at.
    fn is_anywhere(&self, node: &Node, print: u64) -> bool
        requires prints { HavePrints self.now }
        requires print { print ≡ print_of (node_value node.now) }
        ensures { IsTrue result ↔ IsAmong (node_values self.now.list.items) (node_value node.now) }
    {
        for place in 0..self.list.len() {
            if self.is_at(place, node, print) {
                return true;
            }
        }
        false
    }

    /// Whether the node at a place, if there is one, is this one.
    fn is_there(&self, place: usize, node: &Node, print: u64) -> bool
        requires prints { HavePrints self.now }
        requires print { print ≡ print_of (node_value node.now) }
        ensures { IsTrue result ↔ IsNodeAt self.now.list.items place (node_value node.now) }
    {
        if place >= self.list.len() {
            return false;
        }
        self.is_at(place, node, print)
    }

    /// Whether the node at a place, if there is one, or otherwise some other node is this one. It looks at each node only if two nodes
    /// have the same fingerprint.
    fn is_near(&self, place: usize, node: &Node, print: u64) -> bool
        requires prints { HavePrints self.now }
        requires print { print ≡ print_of (node_value node.now) }
        ensures { IsTrue result ↔ IsAmong (node_values self.now.list.items) (node_value node.now) }
    {
        if self.is_there(place, node, print) {
            return true;
        }
        self.is_anywhere(node, print)
    }

    /// Whether a node is known.
    pub(crate) fn has(&self, node: &Node) -> bool
        requires prints { HavePrints self.now }
        requires places { HavePlaces self.now }
        ensures { IsTrue result ↔ IsAmong (node_values self.now.list.items) (node_value node.now) }
    {
        let print = node.print();
        match self.places.find(print) {
            Some(place) => self.is_near(place, node, print),
            None => false,
        }
    }

    /// Whether a node that was looked up covers this one.
    fn covers(&self, calls: &[Recorded], node: &Node) -> bool
        ensures { result ≡ true → IsCovered calls.now (node_values self.now.list.items) (node_value node.now) }
    {
        match self.near.find(node.near_print(calls)) {
            Some(place) => place < self.list.len() && self.list[place].covers(calls, node),
            None => false,
        }
    }

    /// Notes the place of a node that is to be added, if none was noted that may cover it.
    fn note_near(&mut self, calls: &[Recorded], node: &Node) -> Result<(), AllocError>
        ensures list { OnOk result (self.new.list ≡ self.old.list) }
        ensures steps { OnOk result (self.new.steps ≡ self.old.steps) }
        ensures prints { OnOk result (self.new.prints ≡ self.old.prints) }
        ensures places { OnOk result (self.new.places ≡ self.old.places) }
    {
        let print = node.near_print(calls);
        if self.near.find(print).is_none() {
            let place = self.list.len();
            self.near.note(print, place)?;
        }
        Ok(())
    }

    /// Appends a node. An `Err` says that an allocation failed.
    fn push(&mut self, calls: &[Recorded], node: Node, step: Step) -> Result<(), AllocError>
        ensures list { OnOk result (self.new.list.items ≡ self.old.list.items ++ node ∷ []) }
        ensures steps { OnOk result (self.new.steps.items ≡ self.old.steps.items ++ step ∷ []) }
        ensures prints { OnOk result (self.new.prints.items ≡ self.old.prints.items ++ print_of (node_value node) ∷ []) }
        ensures places { OnOk result (HasMorePlaces self.old.places self.new.places (print_of (node_value node))) }
    {
        self.note_near(calls, &node)?;
        let print = node.print();
        let place = self.list.len();
        self.places.note(print, place)?;
        self.prints.push(print)?;
        self.steps.push(step)?;
        self.list.push(node)?;
        Ok(())
    }

    /// Adds the first node. An `Err` says that an allocation failed.
    pub(crate) fn begin(
        &mut self,
        rules: &Rules,
        calls: &[Recorded],
        node: Node,
    ) -> Result<(), AllocError>
        requires { IsEmpty self.old }
        ensures known { OnOk result (AreKnown rules.now calls.now self.new) }
        ensures first { OnOk result (IsAt self.new 0 (node_value node)) }
    {
        let _rules = *rules;
        self.push(
            calls,
            node,
            Step {
                from: 0,
                turn: Turn::Vanish,
            },
        )?;
        Ok(())
    }

    /// Adds a node that isn't known. An `Err` says that an allocation failed.
    fn add(
        &mut self,
        rules: &Rules,
        calls: &[Recorded],
        node: Node,
        step: Step,
    ) -> Result<(), AllocError>
        requires known { AreKnown rules.now calls.now self.old }
        requires comes { Comes rules.now calls.now self.old step (node_value node) }
        requires new { IsAmong (node_values self.old.list.items) (node_value node) → ⊥ }
        ensures known { OnOk result (AreKnown rules.now calls.now self.new) }
        ensures list { OnOk result (self.new.list.items ≡ self.old.list.items ++ node ∷ []) }
    {
        let _rules = *rules;
        self.push(calls, node, step)?;
        Ok(())
    }

    /// Notes a node to which a turn leads, unless a node covers it that is known. An `Err` says that an allocation failed.
    pub(crate) fn note(
        &mut self,
        rules: &Rules,
        calls: &[Recorded],
        node: Node,
        step: Step,
    ) -> Result<(), AllocError>
        requires known { AreKnown rules.now calls.now self.old }
        requires comes { Comes rules.now calls.now self.old step (node_value node) }
        ensures known { OnOk result (AreKnown rules.now calls.now self.new) }
        ensures grows { OnOk result (Grows self.old self.new) }
        ensures covers { OnOk result (IsCovered calls.now (node_values self.new.list.items) (node_value node)) }
    {
        if self.covers(calls, &node) || self.has(&node) {
            return Ok(());
        }
        self.add(rules, calls, node, step)?;
        Ok(())
    }

    /// The turns that lead from the opening to the node at a place. An `Err` says that an allocation failed.
    pub(crate) fn path_to(
        &self,
        rules: &Rules,
        calls: &[Recorded],
        place: usize,
    ) -> Result<Vec<Turn>, AllocError>
        requires known { AreKnown rules.now calls.now self.now }
        requires inside { place < length self.now.list.items }
        ensures { IfOk result (λ turns. (first n : NodeValue) → IsAt self.now 0 first → IsAt self.now place n
            → PlaysNodes rules.now calls.now first turns.items n) }
    {
        let _calls = (*rules, calls.len());
        let mut turns = Vec::new(self.alloc);
        let mut at = place;
        while 0 < at {
            let step = self.steps[at];
            turns.push(step.turn)?;
            at = step.from;
        }
        turns.reverse();
        Ok(turns)
    }
}
