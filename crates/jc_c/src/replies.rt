//! Replies, written for C.
ghost use Rattle.std.specs.Prelude.{◌≡◌, ◌≤◌, true, if◌then◌else◌};
ghost use Rattle.std.specs.Option.{option_copied};
ghost use Rattle.jc_stripe.specs.DeskPhases.{is_first_misuse, is_pick_up_misuse};
ghost use Rattle.jc_c.specs.declared.codes.TheConstants.{JC_OK, JC_CODE_MISUSE, JC_MOVE_INVALIDATED};
ghost use Rattle.jc_c.specs.Layouts.{inline_value, is_inline_value, StaysBehindValue};
ghost use Rattle.jc_c.specs.Replies.{ShowsFault, ShowsReply, ShowsMoves, own_number, ShowsDone, ShowsFirst, refusal_number, ShowsFirstAnswer, ShowsPickUp, ShowsGone, shut_number, sweep_number};
ghost use Rattle.jc_c.specs.Replies.{KeepsBesideValue, KeepsBesideVictim, KeepsBesideReply, KeepsBesideDone, KeepsBesideFirst, KeepsBesideAnswer, KeepsBesidePickUp, KeepsBesideGone};

use crate::codes::{
    JC_ASK_DELETE, JC_ASK_LOAD, JC_ASK_PROCESS, JC_ASK_WRITE, JC_CODE_MISUSE, JC_MOVE_EVICTED,
    JC_MOVE_INVALIDATED, JC_MOVE_OWN_EVICTED_FULL, JC_MOVE_OWN_EVICTED_MEMORY, JC_MOVE_REMOVED,
    JC_MOVE_STORED, JC_NEXT_AGAIN, JC_NEXT_DONE, JC_NEXT_FULL, JC_NEXT_JOINED, JC_NEXT_NOT_YET,
    JC_NEXT_REFUSED, JC_NEXT_SHUT, JC_OK, JC_REFUSAL_BUSY, JC_REFUSAL_HISTORY_FULL,
    JC_REFUSAL_OTHER, JC_REFUSAL_TOO_MANY_IN_FLIGHT, JC_REFUSAL_TOO_MANY_JOINERS,
    JC_REPLY_LOADER_FAILED, JC_REPLY_NO, JC_REPLY_NULL, JC_REPLY_OTHER_FAULT,
    JC_REPLY_PROCESSOR_FAILED, JC_REPLY_UNIT, JC_REPLY_VALUE, JC_REPLY_WRITER_FAILED, JC_REPLY_YES,
};
use crate::layouts::{InlineKey, InlineValue, PhaseOut};
use jc_model::{Cause, Change, Reply};
use jc_stripe::{First, FirstAnswer, PickUpAnswer, Reservation, SweepAnswer, ValueMoves};
use jc_types::{Refusal, Value};

/// Writes a value.
pub(crate) fn show_value(value: &Value, out: &mut InlineValue)
    ensures value { inline_value out.new ≡ value.now }
    ensures fits { is_inline_value out.new ≡ true }
    ensures behind { StaysBehindValue out.old out.new }
{
    let bytes = value.bytes();
    out.bytes[..bytes.len()].copy_from_slice(bytes);
    out.len = bytes.len() as u32;
}

/// Writes a fault.
fn show_fault(fault: &Refusal, number: &mut u32, code: &mut u32)
    ensures { ShowsFault fault.now number.new code.new }
{
    match fault {
        Refusal::LoaderFailed(failed) => {
            *number = JC_REPLY_LOADER_FAILED;
            *code = *failed;
        }
        Refusal::WriterFailed(failed) => {
            *number = JC_REPLY_WRITER_FAILED;
            *code = *failed;
        }
        Refusal::ProcessorFailed(failed) => {
            *number = JC_REPLY_PROCESSOR_FAILED;
            *code = *failed;
        }
        Refusal::HistoryFull
        | Refusal::Busy
        | Refusal::TooManyInFlight
        | Refusal::TooManyJoiners
        | Refusal::OutOfMemory
        | Refusal::TooManyKeys
        | Refusal::BadConfig(_)
        | Refusal::NoLoader
        | Refusal::NoWriter
        | Refusal::TooManySessions
        | Refusal::StillReserved
        | Refusal::RepeatedKey => *number = JC_REPLY_OTHER_FAULT,
    }
}

/// Writes a reply.
pub(crate) fn show_reply(reply: &Reply, number: &mut u32, code: &mut u32, out: &mut InlineValue)
    ensures reply { ShowsReply reply.now number.new code.new out.new }
    ensures fits { is_inline_value out.old ≡ true → is_inline_value out.new ≡ true }
    ensures others { KeepsBesideReply reply.now code.old code.new out.old out.new }
{
    match reply {
        Reply::Unit => *number = JC_REPLY_UNIT,
        Reply::Flag(false) => *number = JC_REPLY_NO,
        Reply::Flag(true) => *number = JC_REPLY_YES,
        Reply::Value(None) => *number = JC_REPLY_NULL,
        Reply::Value(Some(value)) => {
            *number = JC_REPLY_VALUE;
            show_value(value, out);
        }
        Reply::Fault(fault) => show_fault(fault, number, code),
    }
}

/// The number of the cause for which the key's own entry was evicted, or 0.
fn number_of_own(own: Option<Cause>) -> u32
    ensures number { result ≡ own_number own }
    ensures few { result ≤ JC_MOVE_INVALIDATED }
{
    match own {
        None => 0,
        Some(Cause::Full) => JC_MOVE_OWN_EVICTED_FULL,
        Some(Cause::Memory) => JC_MOVE_OWN_EVICTED_MEMORY,
        Some(Cause::Invalidated) => JC_MOVE_INVALIDATED,
    }
}

/// Writes the values that came and went.
fn show_moves(
    moves: &ValueMoves,
    flags: &mut u32,
    left: &mut InlineValue,
    victim: &mut InlineKey,
    evicted: &mut InlineValue,
)
    ensures shown { ShowsMoves moves.now flags.new left.new victim.new evicted.new }
    ensures left { KeepsBesideValue moves.now.left left.old left.new }
    ensures victim { KeepsBesideVictim moves.now.victim victim.old victim.new evicted.old evicted.new }
{
    let mut sum = 0;
    if moves.is_kept() {
        sum = JC_MOVE_STORED;
    }
    if let Some(value) = moves.left() {
        show_value(value, left);
        sum += JC_MOVE_REMOVED;
    }
    if let Some((key, value)) = moves.victim() {
        victim.set(key);
        show_value(value, evicted);
        sum += JC_MOVE_EVICTED;
    }
    *flags = sum + number_of_own(moves.own());
}

/// Writes a step that was done.
pub(crate) fn show_done(
    place: u32,
    shared: u32,
    reply: &Reply,
    moves: &ValueMoves,
    out: &mut PhaseOut,
)
    ensures shown { ShowsDone place shared reply.now moves.now out.new }
    ensures others { KeepsBesideDone reply.now moves.now out.old out.new }
    ensures call { out.new.call ≡ out.old.call }
{
    out.next = JC_NEXT_DONE;
    out.place = place;
    out.shared = shared;
    show_reply(reply, &mut out.reply, &mut out.code, &mut out.value);
    show_moves(
        moves,
        &mut out.moves,
        &mut out.left,
        &mut out.victim,
        &mut out.evicted,
    );
}

/// Writes what is to be done next after a phase that is no call's step, and the values that went by it.
pub(crate) fn show_gone(next: u32, moves: &ValueMoves, out: &mut PhaseOut)
    ensures shown { ShowsGone next moves.now out.new }
    ensures others { KeepsBesideGone moves.now out.old out.new }
{
    out.next = next;
    show_moves(
        moves,
        &mut out.moves,
        &mut out.left,
        &mut out.victim,
        &mut out.evicted,
    );
}

/// What is to be done next at a desk that is shut, or isn't.
pub(crate) fn shut_number(is_shut: bool) -> u32
    ensures { result ≡ shut_number is_shut }
{
    if is_shut { JC_NEXT_SHUT } else { JC_NEXT_DONE }
}

/// What is to be done next after a sweep.
pub(crate) fn sweep_number(answer: SweepAnswer) -> u32
    ensures { result ≡ sweep_number answer }
{
    match answer {
        SweepAnswer::Open => JC_NEXT_DONE,
        SweepAnswer::Evicted => JC_NEXT_SHUT,
        SweepAnswer::Full => JC_NEXT_FULL,
        SweepAnswer::NoPlace => JC_NEXT_NOT_YET,
    }
}

/// Writes whom to ask: the loader, the writer or the processor.
fn show_first(
    first: &First,
    next: &mut u32,
    number: &mut u32,
    code: &mut u32,
    out: &mut InlineValue,
)
    ensures shown { ShowsFirst first.now next.new number.new code.new out.new }
    ensures others { KeepsBesideFirst first.now number.old number.new code.old code.new out.old out.new }
{
    match first {
        First::Nobody => *next = JC_NEXT_DONE,
        First::Loader => *next = JC_ASK_LOAD,
        First::Writer(Change::Write(value)) => {
            *next = JC_ASK_WRITE;
            show_value(value, out);
        }
        First::Writer(Change::Delete) => *next = JC_ASK_DELETE,
        First::Processor { entry, may_load } => {
            *next = JC_ASK_PROCESS;
            *code = if *may_load { 1 } else { 0 };
            match entry {
                Some(value) => {
                    *number = JC_REPLY_VALUE;
                    show_value(value, out);
                }
                None => *number = JC_REPLY_NULL,
            }
        }
    }
}

/// The number of a refusal.
fn number_of(refusal: &Refusal) -> u32
    ensures { result ≡ refusal_number refusal.now }
{
    match refusal {
        Refusal::HistoryFull => JC_REFUSAL_HISTORY_FULL,
        Refusal::Busy => JC_REFUSAL_BUSY,
        Refusal::TooManyInFlight => JC_REFUSAL_TOO_MANY_IN_FLIGHT,
        Refusal::TooManyJoiners => JC_REFUSAL_TOO_MANY_JOINERS,
        Refusal::LoaderFailed(_)
        | Refusal::WriterFailed(_)
        | Refusal::ProcessorFailed(_)
        | Refusal::OutOfMemory
        | Refusal::TooManyKeys
        | Refusal::BadConfig(_)
        | Refusal::NoLoader
        | Refusal::NoWriter
        | Refusal::TooManySessions
        | Refusal::StillReserved
        | Refusal::RepeatedKey => JC_REFUSAL_OTHER,
    }
}

/// Writes the outcome of a first phase. The newest reservation names whom to ask.
pub(crate) fn show_asked(
    asked: &FirstAnswer,
    newest: Option<&Reservation>,
    reply: &Reply,
    moves: &ValueMoves,
    out: &mut PhaseOut,
) -> u32
    ensures shown { result ≡ JC_OK → ShowsFirstAnswer asked.now (option_copied newest.entry) reply.now moves.now out.new }
    ensures others { result ≡ JC_OK → KeepsBesideAnswer asked.now (option_copied newest.entry) reply.now moves.now out.old out.new }
    ensures call { out.new.call ≡ out.old.call }
    ensures code { result ≡ (if is_first_misuse asked.now then JC_CODE_MISUSE else JC_OK) }
{
    out.moves = 0;
    match asked {
        FirstAnswer::Done(place) => show_done(*place, 0, reply, moves, out),
        FirstAnswer::Asks(number) => {
            out.number = *number;
            if let Some(reservation) = newest {
                show_first(
                    &reservation.first,
                    &mut out.next,
                    &mut out.reply,
                    &mut out.code,
                    &mut out.value,
                );
            }
        }
        FirstAnswer::Joined(load) => {
            out.number = *load;
            out.next = JC_NEXT_JOINED;
        }
        FirstAnswer::Refused(refusal) => {
            out.next = JC_NEXT_REFUSED;
            out.reply = number_of(refusal);
        }
        FirstAnswer::Full => out.next = JC_NEXT_FULL,
        FirstAnswer::Shut => out.next = JC_NEXT_SHUT,
        FirstAnswer::Misuse => return JC_CODE_MISUSE,
    }
    JC_OK
}

/// Writes the answer to a joiner.
pub(crate) fn show_picked(picked: &PickUpAnswer, reply: &Reply, out: &mut PhaseOut) -> u32
    ensures shown { result ≡ JC_OK → ShowsPickUp picked.now reply.now out.new }
    ensures others { result ≡ JC_OK → KeepsBesidePickUp picked.now reply.now out.old out.new }
    ensures code { result ≡ (if is_pick_up_misuse picked.now then JC_CODE_MISUSE else JC_OK) }
{
    out.moves = 0;
    match picked {
        PickUpAnswer::Answer {
            place,
            shared_with: _,
        } => {
            out.next = JC_NEXT_DONE;
            out.place = *place;
            show_reply(reply, &mut out.reply, &mut out.code, &mut out.value);
        }
        PickUpAnswer::Again => out.next = JC_NEXT_AGAIN,
        PickUpAnswer::NotYet => out.next = JC_NEXT_NOT_YET,
        PickUpAnswer::Misuse => return JC_CODE_MISUSE,
    }
    JC_OK
}
