//! What an answer says of a key besides its line and its calls: the order that explains it, or a part that no order explains, and why.
ghost use Rattle.std.specs.Prelude.{◌≡◌, ◌++◌, OnOk, is_some, option_copied, option_map};
ghost use Rattle.std.specs.List.{count_by, flat_map};
ghost use Rattle.jc_model.specs.Table.{early_fault, holds, is_invoke, is_write_given};
ghost use Rattle.jc_check.specs.Parts.{is_settled_need};
ghost use Rattle.jc_record.specs.Details.{act_text, answer_due, does_load_differ, due_text, entry_text, is_minimal, is_told, is_writer_asked, line_at, load_due, loader_due};
ghost use Rattle.jc_record.specs.Details.{part_body, part_head, part_line, part_lines, part_size, part_text, reason_head, reason_lines, reason_text, refrain_due, reply_due, reply_words};
ghost use Rattle.jc_record.specs.Details.{shared_text, sized_text, spot_line, spot_text, store_text, turn_line, witness_text, writer_due};

use crate::answer::{put_call, put_span};
use crate::judge::LISTED_MAX;
use jc_check::{Act, Need, Reason, Recorded, RefutedPart, Rules, Spot, Stored, Turn};
use jc_model::{LoadAnswer, LoaderAsk, Out, ProcessAnswer};
use jc_text::print::{Piece, put, put_number, put_pieces};
use jc_types::Value;
use std::alloc::AllocError;

/// The most that an answer tells of what could be at a key when it was a call's turn: if there is more, it tells nothing of it.
pub const REASONS_MAX: usize = 8;

fn act_text(act: &Act) -> &'static str
    ensures { result.now ≡ act_text act.now }
{
    match act {
        Act::Step => "  step",
        Act::Share => "  share",
        Act::Land => "  land",
        Act::Foreign => "  foreign",
        Act::LeaveEntry => "  leave the entry",
        Act::LeaveStore => "  leave in the store",
        Act::LeaveBoth => "  leave both",
        Act::LeaveLoad => "  leave what was loaded",
    }
}

/// The line of a call, if it is there.
fn put_line_at(out: &mut Vec<u8>, call: Option<&Recorded>) -> Result<(), AllocError>
    ensures { OnOk result (out.new.items ≡ out.old.items ++ line_at (option_map (λ c. c.now) call.entry)) }
{
    match call {
        None => put(out, "\n"),
        Some(call) => put_call(out, call),
    }
}

/// What a call does in a turn, and its line.
fn put_act(out: &mut Vec<u8>, act: &Act, call: Option<&Recorded>) -> Result<(), AllocError>
    ensures { OnOk result (out.new.items ≡ out.old.items ++ (act_text act.now ++ line_at (option_map (λ c. c.now) call.entry))) }
{
    put(out, act_text(act))?;
    put_line_at(out, call)
}

/// The line of a turn.
fn put_turn(out: &mut Vec<u8>, calls: &[Recorded], turn: &Turn) -> Result<(), AllocError>
    ensures { OnOk result (out.new.items ≡ out.old.items ++ turn_line calls.now turn.now) }
{
    match turn {
        Turn::Vanish => put(out, "  the entry vanishes\n"),
        Turn::Call { call, act } => put_act(out, act, calls.get(*call)),
    }
}

/// The order that explains a key, a line for each turn.
pub(crate) fn put_witness(
    out: &mut Vec<u8>,
    calls: &[Recorded],
    turns: &[Turn],
) -> Result<(), AllocError>
    ensures { OnOk result (out.new.items ≡ out.old.items ++ witness_text calls.now turns.now) }
{
    for turn in turns {
        put_turn(out, calls, turn)?;
    }
    Ok(())
}

/// The line of a call of a part, unless it is forgotten.
fn put_kept(out: &mut Vec<u8>, call: &Recorded) -> Result<(), AllocError>
    ensures { OnOk result (out.new.items ≡ out.old.items ++ part_line call.now) }
{
    if call.is_forgotten() {
        return Ok(());
    }
    put_call(out, call)
}

/// The lines of the calls of a part.
fn put_part_lines(out: &mut Vec<u8>, calls: &[Recorded]) -> Result<(), AllocError>
    ensures { OnOk result (out.new.items ≡ out.old.items ++ part_lines calls.now) }
{
    for call in calls {
        put_kept(out, call)?;
    }
    Ok(())
}

fn part_size(part: &RefutedPart) -> usize
    ensures { result ≡ part_size part.now }
{
    part.kept.iter().filter(|kept| **kept).count()
}

#[tactic(auto, unfolding(crate::specs::Details::sized_text))]
fn put_sized(out: &mut Vec<u8>, words: &str, size: usize) -> Result<(), AllocError>
    ensures { OnOk result (out.new.items ≡ out.old.items ++ sized_text words.now size) }
{
    put(out, words)?;
    put_number(out, size as u64)?;
    put(out, ":\n")
}

/// How a part is told, by whether it has all calls, and whether each is known to be needed.
fn put_part_head(
    out: &mut Vec<u8>,
    is_all: bool,
    is_minimal: bool,
    size: usize,
) -> Result<(), AllocError>
    ensures { OnOk result (out.new.items ≡ out.old.items ++ part_head is_all is_minimal size) }
{
    match (is_all, is_minimal) {
        (true, true) => put(
            out,
            "  each of them is needed: without it some order explains the others\n",
        ),
        (true, false) => Ok(()),
        (false, true) => put_sized(out, "  the smallest part has ", size),
        (false, false) => put_sized(out, "  a part, and perhaps not the smallest, has ", size),
    }
}

/// The calls of a part, if it is told with them.
fn put_part_body(out: &mut Vec<u8>, is_listed: bool, part: &RefutedPart) -> Result<(), AllocError>
    ensures { OnOk result (out.new.items ≡ out.old.items ++ part_body is_listed part.now) }
{
    if !is_listed {
        return Ok(());
    }
    put_part_lines(out, &part.calls)
}

/// Whether a call of a part is forgotten, or known to be needed.
fn is_settled(need: &Need) -> bool
    ensures { result ≡ is_settled_need need.now }
{
    match need {
        Need::Forgotten | Need::Needed => true,
        Need::Unclear | Need::Untried => false,
    }
}

fn is_minimal(part: &RefutedPart) -> bool
    ensures { result ≡ is_minimal part.now }
{
    part.needs.iter().all(|need| is_settled(need))
}

/// A part that no order explains.
pub(crate) fn put_part(out: &mut Vec<u8>, part: &RefutedPart) -> Result<(), AllocError>
    ensures { OnOk result (out.new.items ≡ out.old.items ++ part_text part.now) }
{
    let size = part_size(part);
    let count = part.kept.len();
    put_part_head(out, count == size, is_minimal(part), size)?;
    put_part_body(out, size < count && size <= LISTED_MAX, part)
}

fn put_entry(out: &mut Vec<u8>, entry: &Option<Value>) -> Result<(), AllocError>
    ensures { OnOk result (out.new.items ≡ out.old.items ++ entry_text entry.now) }
{
    match entry {
        None => put(out, "missing"),
        Some(value) => put_pieces(out, &[Piece::Value(value)]),
    }
}

fn put_stored(out: &mut Vec<u8>, store: &Stored) -> Result<(), AllocError>
    ensures { OnOk result (out.new.items ≡ out.old.items ++ store_text store.now) }
{
    match store {
        Stored::Unknown => Ok(()),
        Stored::Known(None) => put(out, " and the store had nothing"),
        Stored::Known(Some(value)) => put_pieces(
            out,
            &[Piece::Text(" and the store had "), Piece::Value(value)],
        ),
    }
}

fn put_shared(out: &mut Vec<u8>, shared: &LoadAnswer) -> Result<(), AllocError>
    ensures { OnOk result (out.new.items ≡ out.old.items ++ shared_text shared.now) }
{
    match shared {
        LoadAnswer::NotAsked => Ok(()),
        LoadAnswer::Found(_) => put(out, ", just loaded"),
        LoadAnswer::Nothing => put(out, ", and a load had just found nothing"),
        LoadAnswer::Failed(code) => put_pieces(
            out,
            &[
                Piece::Text(", and a load had just failed with "),
                Piece::Number(u64::from(*code)),
            ],
        ),
    }
}

/// What could be at the key.
#[tactic(auto, unfolding(crate::specs::Details::spot_text))]
fn put_spot(out: &mut Vec<u8>, spot: &Spot) -> Result<(), AllocError>
    ensures { OnOk result (out.new.items ≡ out.old.items ++ spot_text spot.now) }
{
    put(out, "    the entry was ")?;
    put_entry(out, &spot.entry)?;
    put_stored(out, &spot.store)?;
    put_shared(out, &spot.shared)
}

/// Whether an entry has this value.
fn holds(entry: Option<&Value>, value: &Value) -> bool
    ensures { result ≡ holds (option_copied entry.entry) value.now }
{
    match entry {
        Some(held) => *held == *value,
        None => false,
    }
}

/// Whether the store has something else than the loader answered.
fn does_load_differ(is_known: bool, store: &Stored, answer: &LoadAnswer) -> bool
    ensures { result ≡ does_load_differ is_known store.now answer.now }
{
    match (answer, store) {
        (LoadAnswer::NotAsked, _) | (LoadAnswer::Failed(_), _) => false,
        (_, Stored::Unknown) => false,
        (LoadAnswer::Found(value), Stored::Known(stored)) => {
            is_known && !holds(stored.as_ref(), value)
        }
        (LoadAnswer::Nothing, Stored::Known(stored)) => is_known && stored.is_some(),
    }
}

/// Whether the loader or the processor failed.
fn has_early_fault(out: &Out) -> bool
    ensures { result ≡ is_some (early_fault out.now) }
{
    let has_load_failed = matches!(&out.load, LoadAnswer::Failed(_));
    let has_process_failed = matches!(&out.process, ProcessAnswer::Failed(_));
    has_load_failed || has_process_failed
}

/// Whether the writer has to be asked.
fn is_writer_asked(rules: &Rules, spot: &Spot, call: &Recorded) -> bool
    ensures { result ≡ is_writer_asked rules.now spot.now call.now }
{
    rules.config.write_through
        && !has_early_fault(&call.out)
        && call.op.write_ask(&spot.entry, &call.out.process).is_some()
}

/// What the call answers by the operation table.
#[tactic(auto, unfolding(crate::specs::Details::reply_words))]
fn put_reply_after(out: &mut Vec<u8>, spot: &Spot, call: &Recorded) -> Result<(), AllocError>
    ensures { OnOk result (out.new.items ≡ out.old.items ++ reply_words spot.now call.now) }
{
    let reply = call.op.reply_after(spot.entry.as_ref(), &call.out);
    put_pieces(out, &[Piece::Reply(&reply)])
}

/// What the call had to answer.
fn put_reply_due(out: &mut Vec<u8>, spot: &Spot, call: &Recorded) -> Result<(), AllocError>
    ensures { OnOk result (out.new.items ≡ out.old.items ++ reply_due spot.now call.now) }
{
    put(out, ": it had to answer ")?;
    put_reply_after(out, spot, call)?;
    put(out, "\n")?;
    Ok(())
}

/// The same, of a call that had no reason to ask the writer.
fn put_refrain_due(out: &mut Vec<u8>, spot: &Spot, call: &Recorded) -> Result<(), AllocError>
    ensures { OnOk result (out.new.items ≡ out.old.items ++ refrain_due spot.now call.now) }
{
    put(out, ": it had to answer without asking the writer: ")?;
    put_reply_after(out, spot, call)?;
    put(out, "\n")?;
    Ok(())
}

/// The same, or what its processor had to see.
fn put_answer_due(out: &mut Vec<u8>, spot: &Spot, call: &Recorded) -> Result<(), AllocError>
    ensures { OnOk result (out.new.items ≡ out.old.items ++ answer_due (is_invoke (call.now).op) spot.now call.now) }
{
    if call.op.is_invoke() {
        return put(out, ": its processor had to see that\n");
    }
    put_reply_due(out, spot, call)
}

/// The same, or what its loader had to find.
fn put_load_due(
    out: &mut Vec<u8>,
    rules: &Rules,
    spot: &Spot,
    call: &Recorded,
) -> Result<(), AllocError>
    ensures { OnOk result (out.new.items ≡ out.old.items
        ++ load_due (does_load_differ rules.now.is_store_known spot.now.store call.now.out.load) spot.now call.now) }
{
    if does_load_differ(rules.is_store_known, &spot.store, &call.out.load) {
        return put(out, ": its loader had to find that\n");
    }
    put_answer_due(out, spot, call)
}

/// The same, or whether its writer had to be asked.
fn put_writer_due(
    out: &mut Vec<u8>,
    rules: &Rules,
    spot: &Spot,
    call: &Recorded,
) -> Result<(), AllocError>
    ensures { OnOk result (out.new.items ≡ out.old.items
        ++ writer_due (is_writer_asked rules.now spot.now call.now) (is_write_given call.now.out.write) rules.now spot.now call.now) }
{
    match (
        is_writer_asked(rules, spot, call),
        call.out.write.is_given(),
    ) {
        (true, false) => put(out, ": it had to ask the writer\n"),
        (false, true) => put_refrain_due(out, spot, call),
        (true, true) | (false, false) => put_load_due(out, rules, spot, call),
    }
}

/// The same, or whether its loader had to be asked.
fn put_due(out: &mut Vec<u8>, rules: &Rules, spot: &Spot, call: &Recorded) -> Result<(), AllocError>
    ensures { OnOk result (out.new.items ≡ out.old.items ++ due_text rules.now spot.now call.now) }
{
    let ask = call.op.loader_ask(rules.config.read_through, &spot.entry);
    match (ask, call.out.load.is_given()) {
        (LoaderAsk::Always, false) => put(out, ": it had to ask the loader\n"),
        (LoaderAsk::Never, true) => put(out, ": it had no reason to ask the loader\n"),
        (LoaderAsk::Always, true) | (LoaderAsk::Never, false) | (LoaderAsk::IfWanted, _) => {
            put_writer_due(out, rules, spot, call)
        }
    }
}

/// What could be at the key, and what the call then had to do.
fn put_spot_line(
    out: &mut Vec<u8>,
    rules: &Rules,
    call: &Recorded,
    spot: &Spot,
) -> Result<(), AllocError>
    ensures { OnOk result (out.new.items ≡ out.old.items ++ spot_line rules.now call.now spot.now) }
{
    put_spot(out, spot)?;
    put_due(out, rules, spot, call)
}

fn put_spot_lines(
    out: &mut Vec<u8>,
    rules: &Rules,
    call: &Recorded,
    spots: &[Spot],
) -> Result<(), AllocError>
    ensures { OnOk result (out.new.items ≡ out.old.items ++ flat_map (spot_line rules.now call.now) spots.now) }
{
    for spot in spots {
        put_spot_line(out, rules, call, spot)?;
    }
    Ok(())
}

#[tactic(auto, unfolding(crate::specs::Details::reason_head))]
fn put_reason_head(out: &mut Vec<u8>, call: &Recorded) -> Result<(), AllocError>
    ensures { OnOk result (out.new.items ≡ out.old.items ++ reason_head call.now) }
{
    put_span(out, call)?;
    put(out, "has no place; when it was its turn,\n")
}

fn is_told(reason: &Reason) -> bool
    ensures { result ≡ is_told reason.now }
{
    0 < reason.spots.len() && reason.spots.len() <= REASONS_MAX
}

/// Why no order explains a part.
pub(crate) fn put_reason(
    out: &mut Vec<u8>,
    rules: &Rules,
    calls: &[Recorded],
    reason: &Reason,
) -> Result<(), AllocError>
    ensures { OnOk result (out.new.items ≡ out.old.items ++ reason_text rules.now calls.now reason.now) }
{
    if !is_told(reason) {
        return Ok(());
    }
    match calls.get(reason.call) {
        None => Ok(()),
        Some(call) => {
            put_reason_head(out, call)?;
            put_spot_lines(out, rules, call, &reason.spots)
        }
    }
}
