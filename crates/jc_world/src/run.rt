//! The state of a reserved key as it is reserved and once its entry processor has run, and the last phase behind a processor.
ghost use Rattle.std.specs.Prelude.{◌≡◌, true, false, None, is_some, not, ◌&&◌};
ghost use Rattle.jc_stripe.specs.State.{IsOut};
ghost use Rattle.jc_stripe.specs.Phases.{with_reply};
ghost use Rattle.jc_stripe.specs.Invalidating.{Ends};
ghost use Rattle.jc_stripe.specs.Effects.{change_due};
ghost use Rattle.jc_stripe.specs.Tickets.{asks_processor, claim_of, change_asked};
ghost use Rattle.jc_outside.specs.declared.done.Origin.TheVariants.{Played};
ghost use Rattle.jc_model.specs.Table.{is_write_given};
ghost use Rattle.jc_model.specs.declared.event.WriteAnswer.TheVariants.{NotAsked};
ghost use Rattle.jc_world.specs.Events.{asks_as, new_progress, progress_after};
ghost use Rattle.jc_world.specs.Sound.{change_in};

use crate::event::{Outcome, PartProgress};
use jc_model::{Change, EntryCall, LoadAnswer, Out, Reply, WriteAnswer};
use jc_stripe::{Appended, Ask, First, ProcDone, Stripe, Ticket, played_write};
use jc_types::Config;

/// An entry processor's run as its event states it.
#[derive(Clone, Copy)]
pub(crate) struct RunPlan<'a> {
    /// The answer of its loader if it is asked.
    pub(crate) load: LoadAnswer,
    /// The calls that it makes.
    pub(crate) calls: &'a [EntryCall],
    /// The code with which it fails, if it does.
    pub(crate) fail: Option<u32>,
}

/// A processor's run as it is shown, without the answers to its calls and its own code.
#[derive(Clone, Copy)]
pub(crate) struct RunShown {
    /// The answer of its loader.
    pub(crate) load: LoadAnswer,
    /// The change that the writer is asked for.
    pub(crate) change: Option<Change>,
}

/// The outcome of a reservation: it shows whether the loader, the writer or the processor is asked first.
pub(crate) fn asks_as(first: &First) -> Outcome
    ensures { result ≡ asks_as first.now }
{
    match first {
        First::Nobody => Outcome::Unfit,
        First::Loader => Outcome::Loads,
        First::Writer(change) => Outcome::Asks(*change),
        First::Processor { entry, may_load: _ } => Outcome::Processes(*entry),
    }
}

/// The state of a key that was just reserved.
pub(crate) fn new_progress(first: &First) -> PartProgress
    ensures { result ≡ new_progress first.now }
{
    PartProgress {
        change: change_asked(first),
        out: Out::nothing_said(),
        is_changed: false,
        is_misled: false,
    }
}

/// The change that the writer is asked for first, if it is.
fn change_asked(first: &First) -> Option<Change>
    ensures { result ≡ change_asked first.now }
{
    match first {
        First::Writer(change) => Some(*change),
        First::Nobody | First::Loader | First::Processor { .. } => None,
    }
}

/// The change that the writer has to be asked for after a processor: with write-through on, its net effect.
pub(crate) fn change_due(config: &Config, done: &ProcDone<Ask>) -> Option<Change>
    ensures { result ≡ change_due config.now done.now }
{
    if config.write_through {
        done.change()
    } else {
        None
    }
}

/// The state of a key once its processor has run, by what the writer is then asked for.
pub(crate) fn progress_after(change: &Option<Change>, done: &ProcDone<Ask>) -> PartProgress
    ensures { result ≡ progress_after change.now done.now }
{
    PartProgress {
        change: *change,
        out: Out {
            load: *done.load(),
            write: WriteAnswer::NotAsked,
            process: *done.process(),
        },
        is_changed: false,
        is_misled: false,
    }
}

/// The last phase of a key whose processor has run. It writes what the step replies to `reply`.
pub(crate) fn commit_run(
    ticket: Ticket,
    done: ProcDone<Ask>,
    progress: &PartProgress,
    stripe: &mut Stripe,
    reply: &mut Reply,
) -> Appended
    requires first { asks_processor ticket.reservation.first ≡ true }
    requires asked { ticket.asked ≡ true }
    requires writer { ticket.writer_asked ≡ false }
    requires claim { done.ask ≡ claim_of ticket.reservation }
    requires played { done.origin ≡ Played }
    requires load { done.load ≡ progress.now.out.load }
    requires process { done.process ≡ progress.now.out.process }
    requires unwritten { progress.now.change ≡ None → progress.now.out.write ≡ NotAsked }
    requires out { IsOut stripe.old ticket.reservation }
    requires reported { (is_some progress.now.change && not (is_write_given progress.now.out.write)) ≡ false }
    requires origin { stripe.old.origin ≡ Played }
    requires due { progress.now.change ≡ change_in stripe.old.config progress.now.out }
    ensures { Ends stripe.old ticket.reservation progress.now.out (with_reply result reply.new) stripe.new }
{
    let mut ticket = ticket;
    match progress.change {
        Some(_) => {
            let written = played_write(ticket.ask_writer(&done), progress.out.write);
            stripe.commit_process(ticket, done, Some(written), reply)
        }
        None => stripe.commit_process(ticket, done, None, reply),
    }
}
