//! A step whose parts are lent, so that a history stores it without an event being built.
ghost use Rattle.std.specs.Prelude.{◌≡◌};
ghost use Rattle.jc_model.specs.Statistics.{with_event};

use jc_model::{Op, Out, Reply, Statistics};
use jc_types::{Caller, Key};
use std::marker::Model;

/// A step of which each part is lent. Contracts see the event that it is.
///
/// A step has room for six values inline, so to build an event only to store it costs time.
#[derive(Drop)]
pub struct LentStep<'a> {
    /// The session and the number of the call.
    pub caller: &'a Caller,
    /// The operation.
    pub op: &'a Op,
    /// The key.
    pub key: &'a Key,
    /// The answers of the loader, the writer and the processor.
    pub out: &'a Out,
    /// The place of the step whose load this one shares, if it shares one.
    pub shared_with: &'a Option<u32>,
    /// The answer to the call.
    pub reply: &'a Reply,
}

impl<'a> Model for LentStep<'a> {
    ghost use Rattle.jc_model.specs.declared.event.Event.{Event};
    ghost use Rattle.jc_model.specs.declared.event.Event.TheVariants.{Step};

    ghost Value = { Event };

    ghost view = { λ s. Step s.caller.now s.op.now s.key.now s.out.now s.shared_with.now s.reply.now };
}

impl<'a> LentStep<'a> {
    /// These counts with this step. `found` says whether its key had an entry before it.
    pub(crate) fn counted_in(&self, found: bool, statistics: &Statistics) -> Statistics
        ensures { result ≡ with_event statistics.now found self.now }
    {
        statistics.with_step(found, self.op, self.out, self.reply)
    }
}
