//! The numbers that cross to C, by the names that the header gives them. A number that was given once is never changed, but the version.

/// The version: 1,000,000 times the major number, 1,000 times the minor one, and the patch's.
pub const JC_VERSION: u32 = 2_000;
/// The bytes of a `jc_out`.
pub const JC_OUT_SIZE: u32 = 856;

/// The call was made.
pub const JC_OK: u32 = 0;
/// The handle isn't open. From `jc_open`: it is open already.
pub const JC_CODE_WRONG_HANDLE: u32 = 1;
/// An allocation failed.
pub const JC_CODE_NO_MEMORY: u32 = 2;
/// A key, a value, a number or a shape is out of its limits.
pub const JC_CODE_BAD_ARGUMENT: u32 = 3;
/// No such ticket or join is out, or the call may not begin here.
pub const JC_CODE_MISUSE: u32 = 4;
/// A ticket or a join is out, or the generation may not end.
pub const JC_CODE_IN_USE: u32 = 5;
/// There is no entry, or no such event.
pub const JC_CODE_NONE: u32 = 6;

/// `get`.
pub const JC_OP_GET: u32 = 0;
/// `containsKey`.
pub const JC_OP_CONTAINS_KEY: u32 = 1;
/// `put`.
pub const JC_OP_PUT: u32 = 2;
/// `getAndPut`.
pub const JC_OP_GET_AND_PUT: u32 = 3;
/// `putIfAbsent`.
pub const JC_OP_PUT_IF_ABSENT: u32 = 4;
/// `remove` of a key.
pub const JC_OP_REMOVE: u32 = 5;
/// `remove` of a key that has this value.
pub const JC_OP_REMOVE_IF: u32 = 6;
/// `getAndRemove`.
pub const JC_OP_GET_AND_REMOVE: u32 = 7;
/// `replace` of a key.
pub const JC_OP_REPLACE: u32 = 8;
/// `replace` of a key that has the first value.
pub const JC_OP_REPLACE_IF: u32 = 9;
/// `getAndReplace`.
pub const JC_OP_GET_AND_REPLACE: u32 = 10;
/// One key of `clear`.
pub const JC_OP_CLEAR_KEY: u32 = 11;
/// One key of `loadAll`, if it has no entry.
pub const JC_OP_LOAD: u32 = 12;
/// One key of `loadAll`, whether it has an entry or not.
pub const JC_OP_RELOAD: u32 = 13;
/// `invoke`.
pub const JC_OP_INVOKE: u32 = 14;

/// The call is over.
pub const JC_NEXT_DONE: u32 = 0;
/// The loader is to be asked.
pub const JC_ASK_LOAD: u32 = 1;
/// The writer is to write a value.
pub const JC_ASK_WRITE: u32 = 2;
/// The writer is to delete the key.
pub const JC_ASK_DELETE: u32 = 3;
/// The processor is to run.
pub const JC_ASK_PROCESS: u32 = 4;
/// The call has joined a load.
pub const JC_NEXT_JOINED: u32 = 5;
/// The call is refused.
pub const JC_NEXT_REFUSED: u32 = 6;
/// The load was withdrawn: the call is to begin anew.
pub const JC_NEXT_AGAIN: u32 = 7;
/// The load isn't over. Of a sweep: there is no place for an eviction.
pub const JC_NEXT_NOT_YET: u32 = 8;
/// The events of a full generation are to be taken first.
pub const JC_NEXT_FULL: u32 = 9;
/// The desk is shut: its entries are to be swept first.
pub const JC_NEXT_SHUT: u32 = 10;

/// The reply has no value.
pub const JC_REPLY_UNIT: u32 = 0;
/// The reply is `false`.
pub const JC_REPLY_NO: u32 = 1;
/// The reply is `true`.
pub const JC_REPLY_YES: u32 = 2;
/// The reply is null, or there is no entry.
pub const JC_REPLY_NULL: u32 = 3;
/// The reply is a value, or there is an entry.
pub const JC_REPLY_VALUE: u32 = 4;
/// The loader failed, with a code.
pub const JC_REPLY_LOADER_FAILED: u32 = 5;
/// The writer failed, with a code.
pub const JC_REPLY_WRITER_FAILED: u32 = 6;
/// The processor failed, with a code.
pub const JC_REPLY_PROCESSOR_FAILED: u32 = 7;
/// Any other fault. A desk never replies it.
pub const JC_REPLY_OTHER_FAULT: u32 = 8;

/// The call's number, or that of the next reservation, would overflow.
pub const JC_REFUSAL_HISTORY_FULL: u32 = 0;
/// The key is reserved, or was invalidated while it is reserved, or the history lacks the places for now.
pub const JC_REFUSAL_BUSY: u32 = 1;
/// Too many reservations are out.
pub const JC_REFUSAL_TOO_MANY_IN_FLIGHT: u32 = 2;
/// Too many joins are out.
pub const JC_REFUSAL_TOO_MANY_JOINERS: u32 = 3;
/// Any other refusal. A desk never returns it.
pub const JC_REFUSAL_OTHER: u32 = 4;

/// The key's entry has a new value.
pub const JC_MOVE_STORED: u32 = 1;
/// The key's entry lost its value.
pub const JC_MOVE_REMOVED: u32 = 2;
/// An entry was evicted for the step, or by a sweep.
pub const JC_MOVE_EVICTED: u32 = 4;
/// The step's own new entry was evicted: all other entries are reserved.
pub const JC_MOVE_OWN_EVICTED_FULL: u32 = 8;
/// The step's own new entry was evicted: an allocation for it failed.
pub const JC_MOVE_OWN_EVICTED_MEMORY: u32 = 16;
/// The key's entry was evicted: the key was invalidated.
pub const JC_MOVE_INVALIDATED: u32 = 32;

/// The loader or the writer was not asked.
pub const JC_ANSWER_NOT_ASKED: u32 = 0;
/// The loader found a value.
pub const JC_ANSWER_FOUND: u32 = 1;
/// The writer did what it was asked.
pub const JC_ANSWER_WRITTEN: u32 = 1;
/// The loader found nothing.
pub const JC_ANSWER_NOTHING: u32 = 2;
/// The loader or the writer failed, with a code.
pub const JC_ANSWER_FAILED: u32 = 3;

/// The processor left the entry.
pub const JC_EFFECT_KEEP: u32 = 0;
/// The processor set the entry.
pub const JC_EFFECT_SET: u32 = 1;
/// The processor removed the entry.
pub const JC_EFFECT_REMOVE: u32 = 2;
/// The processor failed, with a code.
pub const JC_EFFECT_FAILED: u32 = 3;
/// No processor ran. Only an event has this number.
pub const JC_EFFECT_NOT_RUN: u32 = 4;

/// An event that is a step.
pub const JC_EVENT_STEP: u32 = 0;
/// An event that is an eviction.
pub const JC_EVENT_EVICTION: u32 = 1;

/// The stripe held as many entries as it may.
pub const JC_CAUSE_ROOM: u32 = 0;
/// An allocation for the entry failed.
pub const JC_CAUSE_MEMORY: u32 = 1;
/// The key was invalidated.
pub const JC_CAUSE_INVALIDATED: u32 = 2;
