//! How a desk forgets what somebody else has written in the store, for C.
ghost use Rattle.std.specs.Prelude.{◌≡◌, ◌⊎◌, true};
ghost use Rattle.jc_stripe.specs.State.{is_of};
ghost use Rattle.jc_stripe.specs.DeskPhases.{InvalidatesAllAtDesk};
ghost use Rattle.jc_c.specs.declared.codes.TheConstants.{JC_OK, JC_CODE_MISUSE};
ghost use Rattle.jc_c.specs.Requests.{key_fits};
ghost use Rattle.jc_c.specs.Exports.{export_code, InvalidatesForC, SweepsForC};

use crate::codes::{JC_CODE_BAD_ARGUMENT, JC_CODE_WRONG_HANDLE, JC_OK};
use crate::handle::Handle;
use crate::layouts::PhaseOut;
use crate::requests::read_key;
use jc_parcel::Loose;
use std::alloc::Global;

/// Invalidates a key: no call that begins later is answered from what is cached or reserved of it now. Its entry is evicted at once, or,
/// if the key is reserved, when the reservation ends; calls that begin at it meanwhile are refused as busy. `JC_NEXT_SHUT` says that there
/// is no place for the eviction: no call begins until `jc_sweep` has evicted all entries. `JC_CODE_MISUSE` says that the key is of another
/// stripe; then nothing was done.
#[unsafe(no_mangle)]
pub extern "C" fn jc_invalidate(
    h: &mut Handle,
    alloc: Global,
    key: &[u8],
    out: &mut PhaseOut,
) -> u32
    ensures code { result ≡ export_code h.old.is_open (key_fits key.now) (is_of h.old.desk.stripe key.now) JC_CODE_MISUSE }
    ensures invalidates { result ≡ JC_OK → InvalidatesForC h.old.desk key.now out.old out.new h.new.desk }
    ensures refused { (result ≡ JC_OK) ⊎ ((h.new.desk ≡ h.old.desk) × (out.new ≡ out.old)) }
    ensures is_open { h.new.is_open ≡ h.old.is_open }
{
    if !h.is_open() {
        return JC_CODE_WRONG_HANDLE;
    }
    let Some(key) = read_key(key) else {
        return JC_CODE_BAD_ARGUMENT;
    };
    let mut rooms = h.take(alloc).into_box();
    let code = rooms.invalidate(&key, out);
    h.put(Loose::of(rooms));
    code
}

/// Invalidates all keys. No call begins until `jc_sweep` has evicted all entries whose keys aren't reserved; those that are go when their
/// reservations end.
#[unsafe(no_mangle)]
pub extern "C" fn jc_invalidate_all(h: &mut Handle, alloc: Global) -> u32
    ensures code { result ≡ export_code h.old.is_open true true JC_OK }
    ensures invalidates { result ≡ JC_OK → InvalidatesAllAtDesk h.old.desk h.new.desk }
    ensures refused { (result ≡ JC_OK) ⊎ (h.new.desk ≡ h.old.desk) }
    ensures is_open { h.new.is_open ≡ h.old.is_open }
{
    if !h.is_open() {
        return JC_CODE_WRONG_HANDLE;
    }
    let mut rooms = h.take(alloc).into_box();
    rooms.desk.invalidate_all();
    h.put(Loose::of(rooms));
    JC_OK
}

/// Evicts an entry of a desk that is shut, the least recently used one whose key isn't reserved, and writes it as a victim. `JC_NEXT_SHUT`
/// says that one was evicted: sweep again; `JC_NEXT_DONE`, that calls may begin; `JC_NEXT_NOT_YET`, that there is no place until a
/// reservation ends or an answer is picked up; `JC_NEXT_FULL`, that the events of the generation are to be taken first.
#[unsafe(no_mangle)]
pub extern "C" fn jc_sweep(h: &mut Handle, alloc: Global, out: &mut PhaseOut) -> u32
    ensures code { result ≡ export_code h.old.is_open true true JC_OK }
    ensures sweeps { result ≡ JC_OK → SweepsForC h.old.desk out.old out.new h.new.desk }
    ensures refused { (result ≡ JC_OK) ⊎ ((h.new.desk ≡ h.old.desk) × (out.new ≡ out.old)) }
    ensures is_open { h.new.is_open ≡ h.old.is_open }
{
    if !h.is_open() {
        return JC_CODE_WRONG_HANDLE;
    }
    let mut rooms = h.take(alloc).into_box();
    rooms.sweep(out);
    h.put(Loose::of(rooms));
    JC_OK
}
