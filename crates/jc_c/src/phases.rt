//! The phases of calls, for C.
ghost use Rattle.std.specs.Prelude.{◌≡◌, ◌&&◌, ◌⊎◌, true, is_some, if◌then◌else◌};
ghost use Rattle.jc_model.specs.Group.{load_only, write_only};
ghost use Rattle.jc_stripe.specs.DeskState.{may_call_next};
ghost use Rattle.jc_stripe.specs.DeskPhases.{hits_next, without_hit, takes_load, takes_write, takes_process, ticket_of, is_join_out};
ghost use Rattle.jc_c.specs.declared.codes.TheConstants.{JC_OK, JC_CODE_MISUSE, JC_CODE_NONE};
ghost use Rattle.jc_c.specs.Requests.{key_fits, value_fits, op_fits, load_of_number, load_number_fits, write_of_number, write_number_fits, processor_out, processed_fits};
ghost use Rattle.jc_c.specs.Exports.{export_code, join_named, BeginsForC, CommitsForC, PicksUpForC, HitsForC, WithdrawsForC};

use crate::codes::{JC_CODE_BAD_ARGUMENT, JC_CODE_MISUSE, JC_CODE_WRONG_HANDLE, JC_OK};
use crate::handle::Handle;
use crate::layouts::{InlineValue, PhaseOut, ProcessorAnswers};
use crate::requests::{read_answers, read_key, read_load, read_value, read_write};
use jc_parcel::Loose;
use jc_types::Caller;
use std::alloc::Global;

/// The first phase of the session's next call. `JC_CODE_MISUSE` says that the call may not begin: its key is of another stripe, the
/// session has another call out here, or the call's number would overflow. Then nothing was done.
#[unsafe(no_mangle)]
pub extern "C" fn jc_begin(
    h: &mut Handle,
    alloc: Global,
    session: u32,
    op: u32,
    key: &[u8],
    value: &[u8],
    other: &[u8],
    out: &mut PhaseOut,
) -> u32
    ensures code { result ≡ export_code h.old.is_open (key_fits key.now && op_fits op value.now other.now)
        (may_call_next h.old.desk session key.now) JC_CODE_MISUSE }
    ensures begins { result ≡ JC_OK → BeginsForC h.old.desk session op key.now value.now other.now out.old out.new h.new.desk }
    ensures refused { (result ≡ JC_OK) ⊎ (h.new.desk ≡ h.old.desk) }
    ensures untouched { (result ≡ JC_OK) ⊎ (result ≡ JC_CODE_MISUSE) ⊎ (out.new ≡ out.old) }
    ensures is_open { h.new.is_open ≡ h.old.is_open }
{
    if !h.is_open() {
        return JC_CODE_WRONG_HANDLE;
    }
    let Some(key) = read_key(key) else {
        return JC_CODE_BAD_ARGUMENT;
    };
    let mut rooms = h.take(alloc).into_box();
    let code = rooms.begin(session, op, &key, value, other, out);
    h.put(Loose::of(rooms));
    code
}

/// A `get` that finds its entry: it writes the value, and makes no other call. `JC_CODE_NONE` says that no call was made: there is no
/// entry, the generation is full, or the call may not begin. A full generation may have ended, but none whose events are to be
/// taken.
#[unsafe(no_mangle)]
pub extern "C" fn jc_hit(
    h: &mut Handle,
    alloc: Global,
    session: u32,
    key: &[u8],
    out: &mut InlineValue,
) -> u32
    ensures code { result ≡ export_code h.old.is_open (key_fits key.now) (hits_next h.old.desk session key.now) JC_CODE_NONE }
    ensures hit { result ≡ JC_OK → HitsForC h.old.desk session key.now out.old out.new h.new.desk }
    ensures none { (result ≡ JC_OK) ⊎ ((out.new ≡ out.old)
        × (h.new.desk ≡ (if h.old.is_open && key_fits key.now then without_hit h.old.desk session key.now else h.old.desk))) }
    ensures is_open { h.new.is_open ≡ h.old.is_open }
{
    if !h.is_open() {
        return JC_CODE_WRONG_HANDLE;
    }
    let Some(key) = read_key(key) else {
        return JC_CODE_BAD_ARGUMENT;
    };
    let mut rooms = h.take(alloc).into_box();
    let code = rooms.hit(session, &key, out);
    h.put(Loose::of(rooms));
    code
}

/// The last phase of a call whose loader was asked. `JC_CODE_MISUSE` says that no ticket with this number is out that asks the loader; then
/// nothing was done.
#[unsafe(no_mangle)]
pub extern "C" fn jc_commit_load(
    h: &mut Handle,
    alloc: Global,
    number: u64,
    answer: u32,
    code: u32,
    value: &[u8],
    out: &mut PhaseOut,
) -> u32
    ensures code { result ≡ export_code h.old.is_open (value_fits value.now && load_number_fits answer)
        (takes_load h.old.desk.stripe number (load_of_number answer code value.now)) JC_CODE_MISUSE }
    ensures commits { result ≡ JC_OK → CommitsForC h.old.desk number (load_only (load_of_number answer code value.now)) out.old out.new h.new.desk }
    ensures refused { (result ≡ JC_OK) ⊎ ((h.new.desk ≡ h.old.desk) × (out.new ≡ out.old)) }
    ensures is_open { h.new.is_open ≡ h.old.is_open }
{
    if !h.is_open() {
        return JC_CODE_WRONG_HANDLE;
    }
    let Some(value) = read_value(value) else {
        return JC_CODE_BAD_ARGUMENT;
    };
    let Some(answer) = read_load(answer, code, &value) else {
        return JC_CODE_BAD_ARGUMENT;
    };
    let mut rooms = h.take(alloc).into_box();
    let code = rooms.commit_load(number, answer, out);
    h.put(Loose::of(rooms));
    code
}

/// The last phase of a call whose writer was asked. `JC_CODE_MISUSE` says that no ticket with this number is out that asks the writer; then
/// nothing was done.
#[unsafe(no_mangle)]
pub extern "C" fn jc_commit_write(
    h: &mut Handle,
    alloc: Global,
    number: u64,
    answer: u32,
    code: u32,
    out: &mut PhaseOut,
) -> u32
    ensures code { result ≡ export_code h.old.is_open (write_number_fits answer)
        (takes_write h.old.desk.stripe number (write_of_number answer code)) JC_CODE_MISUSE }
    ensures commits { result ≡ JC_OK → CommitsForC h.old.desk number (write_only (write_of_number answer code)) out.old out.new h.new.desk }
    ensures refused { (result ≡ JC_OK) ⊎ ((h.new.desk ≡ h.old.desk) × (out.new ≡ out.old)) }
    ensures is_open { h.new.is_open ≡ h.old.is_open }
{
    if !h.is_open() {
        return JC_CODE_WRONG_HANDLE;
    }
    let Some(answer) = read_write(answer, code) else {
        return JC_CODE_BAD_ARGUMENT;
    };
    let mut rooms = h.take(alloc).into_box();
    let code = rooms.commit_write(number, answer, out);
    h.put(Loose::of(rooms));
    code
}

/// The last phase of a call whose processor ran. `JC_CODE_MISUSE` says that no ticket with this number is out that asks a processor;
/// that the loader answered though it may not be asked; that the writer answered though it was not to be asked; or that it didn't
/// though it was to be asked. Then nothing was done.
#[unsafe(no_mangle)]
pub extern "C" fn jc_commit_process(
    h: &mut Handle,
    alloc: Global,
    number: u64,
    processed: &ProcessorAnswers,
    out: &mut PhaseOut,
) -> u32
    ensures code { result ≡ export_code h.old.is_open (processed_fits processed.now)
        (takes_process h.old.desk.stripe number (processor_out processed.now)) JC_CODE_MISUSE }
    ensures commits { result ≡ JC_OK → CommitsForC h.old.desk number (processor_out processed.now) out.old out.new h.new.desk }
    ensures refused { (result ≡ JC_OK) ⊎ ((h.new.desk ≡ h.old.desk) × (out.new ≡ out.old)) }
    ensures is_open { h.new.is_open ≡ h.old.is_open }
{
    if !h.is_open() {
        return JC_CODE_WRONG_HANDLE;
    }
    let Some(said) = read_answers(processed) else {
        return JC_CODE_BAD_ARGUMENT;
    };
    let mut rooms = h.take(alloc).into_box();
    let code = rooms.commit_process(number, said, out);
    h.put(Loose::of(rooms));
    code
}

/// Gives back a ticket whose loader, writer or processor was not asked. If its key was invalidated meanwhile, its entry is evicted.
/// `JC_CODE_MISUSE` says that no ticket with this number is out; then nothing was done.
#[unsafe(no_mangle)]
pub extern "C" fn jc_withdraw(h: &mut Handle, alloc: Global, number: u64, out: &mut PhaseOut) -> u32
    ensures code { result ≡ export_code h.old.is_open true (is_some (ticket_of h.old.desk.stripe number)) JC_CODE_MISUSE }
    ensures withdraws { result ≡ JC_OK → WithdrawsForC h.old.desk number out.old out.new h.new.desk }
    ensures refused { (result ≡ JC_OK) ⊎ ((h.new.desk ≡ h.old.desk) × (out.new ≡ out.old)) }
    ensures is_open { h.new.is_open ≡ h.old.is_open }
{
    if !h.is_open() {
        return JC_CODE_WRONG_HANDLE;
    }
    let mut rooms = h.take(alloc).into_box();
    let code = rooms.withdraw(number, out);
    h.put(Loose::of(rooms));
    code
}

/// Picks up the answer of a load that was joined. `JC_CODE_MISUSE` says that no such join is out; then nothing was done.
#[unsafe(no_mangle)]
pub extern "C" fn jc_pick_up(
    h: &mut Handle,
    alloc: Global,
    session: u32,
    call: u64,
    key: &[u8],
    load: u64,
    out: &mut PhaseOut,
) -> u32
    ensures code { result ≡ export_code h.old.is_open (key_fits key.now)
        (is_join_out h.old.desk.stripe (join_named session call key.now load)) JC_CODE_MISUSE }
    ensures picks_up { result ≡ JC_OK → PicksUpForC h.old.desk (join_named session call key.now load) out.old out.new h.new.desk }
    ensures refused { (result ≡ JC_OK) ⊎ (h.new.desk ≡ h.old.desk) }
    ensures untouched { (result ≡ JC_OK) ⊎ (result ≡ JC_CODE_MISUSE) ⊎ (out.new ≡ out.old) }
    ensures is_open { h.new.is_open ≡ h.old.is_open }
{
    if !h.is_open() {
        return JC_CODE_WRONG_HANDLE;
    }
    let Some(key) = read_key(key) else {
        return JC_CODE_BAD_ARGUMENT;
    };
    let mut rooms = h.take(alloc).into_box();
    let code = rooms.pick_up(Caller { session, call }, &key, load, out);
    h.put(Loose::of(rooms));
    code
}
