//! Which nodes cover others: what may follow the others may follow them, too.
ghost use Rattle.std.specs.Prelude.{◌≡◌, ℕ, max, true};
ghost use Rattle.jc_check.specs.Nodes.{IsCovering, IsNoMore, node_value};

use crate::node::{Marks, Node, are_landed, must_at};
use crate::record::Recorded;
use crate::states::{is_same_spot, with_spot, with_word};

impl Marks {
    /// A number from which on no call is marked.
    fn last(&self) -> usize
        ensures { result ≡ max self.now.from self.now.end }
    {
        self.from.max(self.end)
    }
}

impl Node {
    /// Whether a call is settled only if it is in another node, and then, too, if it has to be placed.
    fn is_no_more(&self, calls: &[Recorded], other: &Node, call: usize) -> bool
        ensures { result ≡ true → IsNoMore calls.now (node_value self.now) (node_value other.now) call }
    {
        if self.is_settled(call) {
            other.is_settled(call)
        } else {
            !other.is_settled(call) || !must_at(calls, call)
        }
    }

    /// The same of each call.
    fn are_no_more(&self, calls: &[Recorded], other: &Node) -> bool
        ensures { result ≡ true → (call : ℕ) → IsNoMore calls.now (node_value self.now) (node_value other.now) call }
    {
        let from = self.settled.from.min(other.settled.from);
        let end = self.settled.last().max(other.settled.last());
        for call in from..end {
            if !self.is_no_more(calls, other, call) {
                return false;
            }
        }
        true
    }

    /// Whether what may follow another node may follow this one, too.
    pub(crate) fn covers(&self, calls: &[Recorded], other: &Node) -> bool
        ensures { result ≡ true → IsCovering calls.now (node_value self.now) (node_value other.now) }
    {
        if !is_same_spot(&self.spot, &other.spot) {
            return false;
        }
        if !self.are_no_more(calls, other) {
            return false;
        }
        are_landed(&self.landed, &other.landed)
    }

    /// A number by which nodes are looked up that may cover each other: they have the same at the key, and of the calls that have to be
    /// placed the same are settled. It is a hint.
    pub(crate) fn near_print(&self, calls: &[Recorded]) -> u64
        requires { Unit {0} }
    {
        let mut print: u64 = 0;
        let mut is_gap = false;
        for call in self.settled.from..calls.len() {
            if must_at(calls, call) && self.is_settled(call) == is_gap {
                print = with_word(print, call as u64);
                is_gap = true;
            }
            if is_gap && call >= self.settled.end {
                return with_spot(print, &self.spot);
            }
        }
        with_spot(print, &self.spot)
    }
}
