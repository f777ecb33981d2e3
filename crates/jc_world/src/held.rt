//! A key that a call has reserved: its ticket, and what was answered for it.
ghost use Rattle.std.specs.Prelude.{◌≡◌, ◌⊎◌, ◌++◌, ◌+◌, ◌≤◌, length, true, false, None, Some, OnOk, OnErr, vec_len, vec_capacity};
ghost use Rattle.jc_model.specs.declared.event.Out.{Out};
ghost use Rattle.jc_model.specs.declared.event.Change.{Change};
ghost use Rattle.jc_model.specs.Cache.{with_entry};
ghost use Rattle.jc_model.specs.Table.{is_load_given, is_write_given};
ghost use Rattle.jc_stripe.specs.Outcomes.{StepDone};
ghost use Rattle.jc_stripe.specs.State.{IsOut};
ghost use Rattle.jc_stripe.specs.Phases.{with_reply};
ghost use Rattle.jc_stripe.specs.Invalidating.{Ends, GivesBack};
ghost use Rattle.jc_stripe.specs.Effects.{change_due};
ghost use Rattle.jc_stripe.specs.Refusals.{reserves};
ghost use Rattle.jc_outside.specs.declared.done.Origin.TheVariants.{Played};
ghost use Rattle.jc_world.specs.Premises.{changed_to, is_true_load, is_true_report};
ghost use Rattle.jc_world.specs.World.{has_changed, is_misled, out_of_part, is_all_answered, is_unanswered, is_untouched, waits_for_load, waits_for_process};
ghost use Rattle.jc_world.specs.World.{is_write, waits_for_report, waits_for_write, writer_change};
ghost use Rattle.jc_world.specs.Fits.{is_in_batch};
ghost use Rattle.jc_world.specs.Events.{new_part, new_progress, with_heard, with_loaded, with_change, with_report, run_answers, run_result, progress_after, reported_part};
ghost use Rattle.jc_world.specs.Sound.{IsDue};

use crate::event::{Part, PartProgress};
use crate::outside::{entry_after, is_honest_load, is_honest_report};
use crate::reports::{ReportedKey, WriterBatch};
use crate::run::{RunPlan, RunShown, change_due, commit_run, new_progress, progress_after};
use jc_model::{Change, Contents, EntryAnswer, LoadAnswer, Reply, WriteAnswer};
use jc_mutentry::played_process;
use jc_stripe::{
    Appended, Ask, First, ProcDone, Reservation, Stripe, Ticket, played_load, played_write,
};
use jc_types::{Config, Key, Value};
use std::alloc::AllocError;
use std::marker::Model;
use std::mem;

/// A key that a call has reserved: its ticket, and what was done and answered for it so far. It can't be copied or dropped.
///
/// The loader and the writer are asked at the commit, with the answer that they gave: a done value is made of the ask then. The
/// entry processor is asked as it runs.
pub(crate) struct HeldKey {
    ticket: Ticket,
    run: Option<ProcDone<Ask>>,
    progress: PartProgress,
}

impl Model for HeldKey {
    ghost use Rattle.jc_world.specs.declared.event.Part.{Part};

    ghost Value = { Part };

    ghost use Rattle.jc_world.specs.Held.{IsAnswerable};

    ghost view = { λ h. record { reservation = h.ticket.reservation; progress = h.progress } };

    ghost invariant = { λ h. IsAnswerable h.ticket h.run h.progress };
}

impl HeldKey {
    /// A key that was just reserved: its ticket's first request is due.
    pub(crate) fn new(ticket: Ticket) -> HeldKey
        requires reserves { reserves ticket.reservation.first ≡ true }
        requires unasked { ticket.asked ≡ false }
        requires writer { ticket.writer_asked ≡ false }
        ensures { result ≡ new_part (new_progress ticket.reservation.first) ticket.reservation }
    {
        let progress = new_progress(&ticket.reservation().first);
        HeldKey {
            ticket,
            run: None,
            progress,
        }
    }

    /// The reservation.
    fn reservation(&self) -> &Reservation
        ensures { result.now ≡ self.now.reservation }
    {
        self.ticket.reservation()
    }

    /// The key.
    pub(crate) fn key(&self) -> Key
        ensures { result ≡ self.now.reservation.key }
    {
        self.reservation().key
    }

    /// The number of the call.
    pub(crate) fn call(&self) -> u64
        ensures { result ≡ self.now.reservation.caller.call }
    {
        self.reservation().caller.call
    }

    /// The key's part, as data.
    pub(crate) fn part(&self) -> Part
        ensures { result ≡ self.now }
    {
        Part {
            reservation: *self.reservation(),
            progress: self.progress,
        }
    }

    /// Whether nothing was answered yet.
    fn is_unanswered(&self) -> bool
        ensures { result ≡ is_unanswered self.now.progress.out }
    {
        let out = &self.progress.out;
        !out.load.is_given() && !out.write.is_given() && !out.process.is_given()
    }

    /// Whether the loader was asked, and hasn't answered.
    pub(crate) fn waits_for_load(&self) -> bool
        ensures { result ≡ waits_for_load self.now }
    {
        match self.reservation().first {
            First::Loader => self.is_unanswered(),
            First::Nobody | First::Writer(_) | First::Processor { .. } => false,
        }
    }

    /// Whether the entry processor was asked, and hasn't run.
    pub(crate) fn waits_for_process(&self) -> bool
        ensures { result ≡ waits_for_process self.now }
    {
        match self.reservation().first {
            First::Processor { .. } => self.is_unanswered(),
            First::Nobody | First::Loader | First::Writer(_) => false,
        }
    }

    /// Whether the writer was asked, and hasn't returned.
    pub(crate) fn waits_for_report(&self) -> bool
        ensures { result ≡ waits_for_report self.now }
    {
        self.progress.change.is_some() && !self.progress.out.write.is_given()
    }

    /// Whether the writer was asked for a write, and hasn't returned.
    fn waits_for_write(&self) -> bool
        ensures { result ≡ waits_for_write self.now }
    {
        self.waits_for_report() && is_write(&self.progress.change)
    }

    /// Whether the key is among those for which the writer is asked at once.
    pub(crate) fn is_in_batch(&self, batch: WriterBatch) -> bool
        ensures { result ≡ is_in_batch batch self.now }
    {
        match batch {
            WriterBatch::Nothing => false,
            WriterBatch::Writes => self.waits_for_write(),
            WriterBatch::All => self.waits_for_report(),
        }
    }

    /// Whether all that was asked is answered.
    pub(crate) fn is_all_answered(&self) -> bool
        ensures { result ≡ is_all_answered self.now }
    {
        !self.waits_for_load() && !self.waits_for_process() && !self.waits_for_report()
    }

    /// Whether nothing was answered outside for the key, and nothing done.
    pub(crate) fn is_untouched(&self) -> bool
        ensures { result ≡ is_untouched self.now }
    {
        self.is_unanswered() && !self.progress.is_changed
    }

    /// Whether the writer has changed the store.
    pub(crate) fn has_changed(&self) -> bool
        ensures { result ≡ has_changed self.now }
    {
        self.progress.is_changed
    }

    /// Whether the loader or the writer has lied about the key.
    pub(crate) fn is_misled(&self) -> bool
        ensures { result ≡ is_misled self.now }
    {
        self.progress.is_misled
    }

    /// The loader answers, honestly or not.
    pub(crate) fn loader_answers(&mut self, answer: LoadAnswer, honest: bool)
        requires waits { waits_for_load self.old ≡ true }
        requires given { is_load_given answer ≡ true }
        ensures { self.new ≡ record self.old {
          progress = with_heard (with_loaded self.old.progress answer) (is_misled self.old) honest;
        } }
    {
        self.progress.out.load = answer;
        self.progress.is_misled |= !honest;
    }

    /// The entry processor runs as planned. What each of its calls was answered is appended to `answers`, for which there is room.
    /// Then the writer is asked for the net effect, if that is due. `stored` is what the store holds, by which its loader is judged.
    pub(crate) fn process(
        &mut self,
        config: &Config,
        plan: &RunPlan<'_>,
        stored: Option<Value>,
        answers: &mut Vec<EntryAnswer>,
    ) -> RunShown
        requires waits { waits_for_process self.old ≡ true }
        requires given { is_load_given plan.now.load ≡ true }
        requires room { vec_len answers.old + length plan.now.calls.now ≤ vec_capacity answers.old }
        ensures answers { answers.new.items ≡ answers.old.items ++ run_answers self.old.reservation plan.now.load plan.now.calls.now }
        ensures load { result.load ≡ (run_result self.old.reservation plan.now.load plan.now.calls.now plan.now.fail).load }
        ensures change { result.change
            ≡ change_due config.now (run_result self.old.reservation plan.now.load plan.now.calls.now plan.now.fail) }
        ensures run { self.new ≡ record self.old {
          progress = with_heard
              (progress_after
              (change_due config.now (run_result self.old.reservation plan.now.load plan.now.calls.now plan.now.fail))
              (run_result self.old.reservation plan.now.load plan.now.calls.now plan.now.fail))
              (is_misled self.old)
              (is_true_load (run_result self.old.reservation plan.now.load plan.now.calls.now plan.now.fail).load stored);
        } }
    {
        let done = played_process(self.ticket.ask(), plan.calls, plan.fail, plan.load, answers);
        let load = *done.load();
        let change = change_due(config, &done);
        let is_misled = self.progress.is_misled || !is_honest_load(*done.load(), stored);
        self.progress = progress_after(&change, &done);
        self.progress.is_misled = is_misled;
        match mem::replace(&mut self.run, Some(done)) {
            None => {}
            Some(_former) => unreachable!(),
        }
        RunShown { load, change }
    }

    /// The writer changes the store as it was asked.
    pub(crate) fn change(&mut self, store: &mut Contents, key: &Key) -> Result<(), AllocError>
        requires { waits_for_report self.old ≡ true }
        ensures ok { OnOk result ((change : Change) × (writer_change self.old ≡ Some change)
            × (self.new ≡ record self.old { progress = with_change self.old.progress })
            × (store.new ≡ with_entry store.old key.now (changed_to change))) }
        ensures err { OnErr result ((self.new ≡ self.old) × (store.new ≡ store.old)) }
    {
        match self.progress.change {
            Some(change) => {
                store.set(key, entry_after(&change))?;
                self.progress.is_changed = true;
                self.progress.is_misled = false;
                Ok(())
            }
            None => unreachable!(),
        }
    }

    /// This key as the writer's return shows it, if it is among those for which the writer is asked at once.
    pub(crate) fn reported(&self, key: &Key, batch: WriterBatch) -> Option<ReportedKey>
        ensures { result ≡ reported_part batch key.now self.now }
    {
        if !self.is_in_batch(batch) {
            return None;
        }
        match self.progress.change {
            Some(change) => Some(ReportedKey {
                key: *key,
                change,
                is_changed: self.progress.is_changed,
            }),
            None => None,
        }
    }

    /// The writer returns with this for the key. The result tells whether it had changed the store.
    pub(crate) fn report(&mut self, report: WriteAnswer) -> bool
        requires waits { waits_for_report self.old ≡ true }
        requires given { is_write_given report ≡ true }
        ensures changed { result ≡ has_changed self.old }
        ensures report { self.new ≡ record self.old {
          progress = with_heard (with_report self.old.progress report) (is_misled self.old)
              (is_true_report report (has_changed self.old));
        } }
    {
        self.progress.is_misled |= !is_honest_report(&report, self.progress.is_changed);
        self.progress.out.write = report;
        self.progress.is_changed
    }

    /// The last phase. It writes what the step replies to `reply`.
    pub(crate) fn commit(self, stripe: &mut Stripe, reply: &mut Reply) -> Appended
        requires out { IsOut stripe.old self.reservation }
        requires answered { is_all_answered self ≡ true }
        requires origin { stripe.old.origin ≡ Played }
        requires due { IsDue stripe.old.config self }
        ensures { Ends stripe.old self.reservation (out_of_part self) (with_reply result reply.new) stripe.new }
    {
        let HeldKey {
            ticket,
            run,
            progress,
        } = self;
        let mut ticket = ticket;
        match run {
            Some(done) => commit_run(ticket, done, &progress, stripe, reply),
            None => match ticket.reservation().first {
                First::Loader => {
                    let done = played_load(ticket.ask(), progress.out.load);
                    stripe.commit_load(ticket, done, reply)
                }
                First::Writer(_) => {
                    let done = played_write(ticket.ask(), progress.out.write);
                    stripe.commit_write(ticket, done, reply)
                }
                First::Nobody | First::Processor { .. } => unreachable!(),
            },
        }
    }

    /// The reservation is given back.
    pub(crate) fn withdraw(self, stripe: &mut Stripe)
        requires out { IsOut stripe.old self.reservation }
        requires open { is_unanswered self.progress.out ≡ true }
        ensures { GivesBack stripe.old self.reservation stripe.new }
    {
        let HeldKey {
            ticket,
            run,
            progress: _,
        } = self;
        match run {
            None => stripe.withdraw(ticket),
            Some(_run) => unreachable!(),
        }
    }

    /// The last phase, of a writer that hasn't returned: it fails first, with the code 0.
    fn commit_failed(self, stripe: &mut Stripe)
        requires out { IsOut stripe.old self.reservation }
        requires waits { waits_for_report self ≡ true }
        requires origin { stripe.old.origin ≡ Played }
        requires due { IsDue stripe.old.config self }
        ensures { (out : Out) × (done : StepDone)
            × Ends stripe.old self.reservation out done stripe.new }
    {
        let mut held = self;
        let _is_changed = held.report(WriteAnswer::Failed(0));
        let _step = held.commit(stripe, &mut Reply::Unit);
    }

    /// The reservation is over, as its world ends: it is committed if it was answered, and given back if nobody was asked. Of a
    /// processor that has run the writer that hasn't returned fails first.
    pub(crate) fn close(self, stripe: &mut Stripe)
        requires out { IsOut stripe.old self.reservation }
        requires origin { stripe.old.origin ≡ Played }
        requires due { IsDue stripe.old.config self }
        ensures { ((out : Out) × (done : StepDone)
            × Ends stripe.old self.reservation out done stripe.new)
            ⊎ GivesBack stripe.old self.reservation stripe.new }
    {
        if self.is_unanswered() {
            self.withdraw(stripe);
        } else if self.is_all_answered() {
            let _step = self.commit(stripe, &mut Reply::Unit);
        } else {
            self.commit_failed(stripe);
        }
    }
}

/// Whether the writer is asked for a write, and not for a delete.
fn is_write(change: &Option<Change>) -> bool
    ensures { result ≡ is_write change.now }
{
    match change {
        Some(Change::Write(_)) => true,
        Some(Change::Delete) | None => false,
    }
}
