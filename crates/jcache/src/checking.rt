//! The check of a record of calls.
ghost use Rattle.std.specs.Prelude.{◌≡◌, ◌≢◌, false, true};
ghost use Rattle.jc_record.specs.declared.input.TheConstants.{RECORD_MAX};
ghost use Rattle.jcache.specs.Exit.{ExitOfCheck, ExitOfRecord, FailsByStreams, IsOver, asked_of, is_first, status_of_check};

use crate::complaints::{complain, complain_of, end_of_output, end_without_memory};
use crate::status::{
    STATUS_CLEAN, STATUS_LINE_FAULT, STATUS_OPEN, STATUS_STREAMS, STATUS_UNEXPECTED, STATUS_USAGE,
};
use jc_commands::checking::{CheckPlan, Choice};
use jc_record::run::run;
use jc_record::{Asked, CheckFault, RECORD_MAX, RecordEnd};
use jc_text::Noted;
use std::alloc::Global;
use std::io::{Read, Write};

fn is_first(choice: Choice) -> bool
    ensures { result ≡ is_first choice }
{
    matches!(choice, Choice::First)
}

/// What a plan asks of a record.
fn asked_of(plan: &CheckPlan) -> Asked
    ensures { result ≡ asked_of plan.now }
{
    Asked {
        is_store_known: is_first(plan.rules),
        may_vanish: is_first(plan.evict),
        is_real: is_first(plan.order),
        states: plan.states as usize,
        is_ordered: !is_first(plan.witness),
    }
}

/// The status of a check whose answer was written.
fn status_of_check(end: RecordEnd) -> u8
    ensures status { result ≡ status_of_check end }
    ensures apart { result ≢ 3 }
{
    match end {
        RecordEnd::Explained => STATUS_CLEAN,
        RecordEnd::LineFault => STATUS_LINE_FAULT,
        RecordEnd::NotExplained => STATUS_UNEXPECTED,
        RecordEnd::GaveUp => STATUS_OPEN,
    }
}

/// Judges a record, and returns the status.
fn judge<R: Read, W: Write, E: Write>(
    alloc: Global,
    asked: &Asked,
    reader: &mut Noted<R>,
    out: &mut Noted<W>,
    err: &mut E,
) -> u8
    ensures judged { ExitOfRecord asked.now result (R.remaining reader.old.inner) (R.remaining reader.new.inner)
        (W.contents out.old.inner) (W.contents out.new.inner) (out.new ≡ out.old) }
    ensures streams { reader.old.failed ≡ false → out.old.failed ≡ false
        → FailsByStreams result reader.new.failed out.new.failed (IsOver RECORD_MAX (R.remaining reader.old.inner)) (out.new ≡ out.old) }
{
    match run(alloc, reader, out, asked) {
        Ok(end) => status_of_check(end),
        Err(CheckFault::Read) => {
            complain_of(reader, err, "read failed");
            STATUS_STREAMS
        }
        Err(CheckFault::Write) => end_of_output(out, err),
        Err(CheckFault::TooLong) => {
            let _ = write!(err, "jcache: input too long: over {RECORD_MAX} bytes\n");
            STATUS_STREAMS
        }
        Err(CheckFault::OutOfMemory) => end_without_memory(err),
    }
}

/// Judges a record by a plan, and returns the status. A plan with a wrong word is refused before anything is read.
pub(crate) fn check_and_show<R: Read, W: Write, E: Write>(
    alloc: Global,
    plan: &CheckPlan,
    reader: &mut Noted<R>,
    out: &mut Noted<W>,
    err: &mut E,
) -> u8
    ensures checked { ExitOfCheck plan.now result (R.remaining reader.old.inner) (R.remaining reader.new.inner)
        (W.contents out.old.inner) (W.contents out.new.inner) (out.new ≡ out.old) (reader.new ≡ reader.old) }
    ensures streams { reader.old.failed ≡ false → out.old.failed ≡ false
        → FailsByStreams result reader.new.failed out.new.failed (IsOver RECORD_MAX (R.remaining reader.old.inner)) (out.new ≡ out.old) }
{
    if plan.is_wrong() {
        complain(
            err,
            "jcache: --rules is store or table, --order is real or program, --evict is free or never, --witness is no or yes\n",
        );
        return STATUS_USAGE;
    }
    judge(alloc, &asked_of(plan), reader, out, err)
}
