//! The outside answers of a round, and the last phases that they lead to.
ghost use Rattle.std.specs.Prelude.{◌≡◌, ◌∷◌, [], List, None, vec_capacity, if◌then◌else◌};
ghost use Rattle.jc_types.specs.declared.config.Config.{Config};
ghost use Rattle.jc_mutentry.specs.Done.{effect_change};
ghost use Rattle.jc_stripe.specs.declared.ticket.Reservation.{Reservation};
ghost use Rattle.jc_rounds.specs.Answers.{AreAnswers, CommitsNext, IsReportedOn, RunState, TakesReport, done_room};
ghost use Rattle.jc_rounds.specs.KeyPhases.{MayStep};
ghost use Rattle.jc_rounds.specs.Keys.{IsEarly};
ghost use Rattle.jc_rounds.specs.Rounds.{ProcessAll, ProcessRound, Round};

use jc_cache::{Cache, Session};
use jc_model::{Change, Reply};
use jc_stripe::phase_laws::{is_uniform, own_steps};
use jc_stripe::{Ask, LoadDone, ProcDone, Ticket, WriteDone};
use std::sync::Wait;

/// The outside answers for the keys that a round has reserved, the last key's first. They can't be dropped.
pub enum RoundAnswers {
    /// Answers of the loader.
    Loads(Vec<LoadDone<Ask>>),
    /// Answers of the writer.
    Writes(Vec<WriteDone<Ask>>),
    /// Answers of a processor, and the writer's reports on the net effects that are to be written: of the writes, and of the
    /// deletes.
    Processes(Vec<ProcDone<Ask>>, Vec<WriteDone<Ask>>, Vec<WriteDone<Ask>>),
}

impl RoundAnswers {
    /// Makes the last phase of the session's current call at the first key that was answered. The step's reply is written to
    /// `reply`.
    ///
    /// Conditions: the session is of this cache; the ticket is of its current call, which isn't its last and has made no step at the
    /// key; the first of these answers is the one to the ticket's ask.
    pub(crate) fn commit_next<R: Wait>(
        &mut self,
        rt: &R,
        cache: &Cache,
        session: &mut Session,
        ticket: Ticket,
        reply: &mut Reply,
    )
        requires may { MayStep cache.now session.old ticket.reservation.key }
        requires caller { (ticket.reservation.caller ≡ session.old.agent.caller) × IsEarly session.old.agent.caller }
        requires answers { (round : Round) × (rest : List Reservation)
            × AreAnswers cache.now.config round self.old (ticket.reservation ∷ rest) }
        ensures told { CommitsNext cache.now session.old ticket.reservation self.old session.new self.new reply.new }
        ensures room { done_room self.new ≡ done_room self.old }
    {
        is_uniform();
        own_steps();
        match self {
            RoundAnswers::Loads(done) => match done.pop() {
                Some(done) => {
                    cache.commit_load(rt, session, ticket, done, reply);
                }
                None => unreachable!(),
            },
            RoundAnswers::Writes(done) => match done.pop() {
                Some(done) => {
                    cache.commit_write(rt, session, ticket, done, reply);
                }
                None => unreachable!(),
            },
            RoundAnswers::Processes(done, written, deleted) => match done.pop() {
                Some(done) => {
                    let through = cache.config().write_through;
                    let report = next_report(through, &done, written, deleted);
                    cache.commit_process(rt, session, ticket, done, report, reply);
                }
                None => unreachable!(),
            },
        }
    }

    /// Returns the memory for the done values of a processor's runs, once none of them is left.
    pub fn into_runs(self) -> Vec<ProcDone<Ask>>
        requires { (config : Config) × (round : ProcessRound) × AreAnswers config (ProcessAll round) self [] }
        ensures none { result.items ≡ [] }
        ensures room { vec_capacity result ≡ done_room self }
    {
        match self {
            RoundAnswers::Processes(done, written, deleted) => {
                written.destroy_empty();
                deleted.destroy_empty();
                done
            }
            RoundAnswers::Loads(_done) => unreachable!(),
            RoundAnswers::Writes(_done) => unreachable!(),
        }
    }

    /// Drops an empty list of answers.
    pub fn end(self)
        requires { (config : Config) × (round : Round) × AreAnswers config round self [] }
    {
        match self {
            RoundAnswers::Loads(done) => done.destroy_empty(),
            RoundAnswers::Writes(done) => done.destroy_empty(),
            RoundAnswers::Processes(done, written, deleted) => {
                done.destroy_empty();
                written.destroy_empty();
                deleted.destroy_empty();
            }
        }
    }
}

/// The writer's report on the first run of a processor, if one is due: the first one of its kind.
fn next_report(
    through: bool,
    done: &ProcDone<Ask>,
    written: &mut Vec<WriteDone<Ask>>,
    deleted: &mut Vec<WriteDone<Ask>>,
) -> Option<WriteDone<Ask>>
    requires { (round : ProcessRound) × (run : RunState) × (runs : List RunState)
        × IsReportedOn through round run runs done.now written.old.items deleted.old.items }
    ensures { (round : ProcessRound) (run : RunState) (runs : List RunState)
        → IsReportedOn through round run runs done.now written.old.items deleted.old.items
        → TakesReport through round run runs result written.new.items deleted.new.items }
{
    match change_after(through, done) {
        None => None,
        Some(Change::Write(_)) => match written.pop() {
            Some(report) => Some(report),
            None => unreachable!(),
        },
        Some(Change::Delete) => match deleted.pop() {
            Some(report) => Some(report),
            None => unreachable!(),
        },
    }
}

/// The change that the writer is to be asked for after a processor's run: its net effect, if the cache writes through; none after
/// a fault.
pub fn change_after(through: bool, done: &ProcDone<Ask>) -> Option<Change>
    ensures { result ≡ if through then effect_change done.now.load done.now.process else None }
{
    if through { done.change() } else { None }
}
