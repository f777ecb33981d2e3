//! How many bytes an event and its parts take at most.
use jc_types::{KEY_MAX, VALUE_MAX};

/// The most values that an event has. A value of the loader or the processor that the reply repeats counts once.
pub const EVENT_VALUES: usize = 3;

pub(crate) const TAG_ROOM: usize = 1;

pub(crate) const CODE_ROOM: usize = 4;

pub(crate) const CALLER_ROOM: usize = 4 + 8;

// The bytes of a text's length, which is stored in front of it.
pub(crate) const LENGTH_ROOM: usize = 2;

pub(crate) const KEY_ROOM: usize = LENGTH_ROOM + KEY_MAX;

pub(crate) const VALUE_ROOM: usize = LENGTH_ROOM + VALUE_MAX;

pub(crate) const TAGGED_CODE_ROOM: usize = TAG_ROOM + CODE_ROOM;

pub(crate) const TAGGED_VALUE_ROOM: usize = TAG_ROOM + VALUE_ROOM;

// The most bytes of these parts, without their values.

// The longest is that of a fault, which has a code.
pub(crate) const REPLY_ROOM: usize = TAG_ROOM + TAGGED_CODE_ROOM;

// The longest are those of a loader, a writer and a processor that all failed.
pub(crate) const OUT_ROOM: usize = 3 * TAGGED_CODE_ROOM;

const STEP_ROOM: usize = TAG_ROOM
    + OUT_ROOM
    + REPLY_ROOM
    + CALLER_ROOM
    + KEY_ROOM
    + TAG_ROOM
    + TAGGED_CODE_ROOM;

/// The room of an event: no event with at most [`EVENT_VALUES`] values has more bytes. With the four of its index in
/// `History::starts` it has at most 52 bytes beside its key and its values.
pub(crate) const EVENT_ROOM: usize = STEP_ROOM + EVENT_VALUES * VALUE_ROOM;

const _: () = prove!(EVENT_ROOM == 48 + KEY_MAX + 3 * VALUE_MAX);
