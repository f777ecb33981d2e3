//! The tasks of the program, and its exit statuses.
ghost use Rattle.std.specs.Prelude.{◌≡◌, ◌≢◌, ◌⊎◌, ◌↔◌, Result, codes, map, string_bytes, true, false, IfOk, IfErr};
ghost use Rattle.std.specs.Io.KnownBytes.{Appends};
ghost use Rattle.std.specs.Fn.{FnOnceReturnsAt};
ghost use Rattle.std.specs.IoError.{error_kind};
ghost use Rattle.jc_commands.specs.CommandLine.{Names, faults_at, subcommand_at};
ghost use Rattle.clap.specs.Words.{kind_of};
ghost use Rattle.jc_commands.specs.declared.commands.Task.TheVariants as tasks;
ghost use Rattle.jc_types.specs.declared.limits.TheConstants.{SCRIPT_MAX};
ghost use Rattle.jcache.specs.Exit.{Exit, ExitOfExplore, ExitOfFault, ExitOfPlay, ExitOfShell, ExitOfThreads, Exits, FailsByStreams, IsHelp, IsOver, IsTooLong};
ghost use Rattle.jcache.specs.Exit.{IsTooLongFor, ShowsReport, ShowsText};
ghost use Rattle.jcache.specs.Exit.{status_of, status_of_end, status_without_words};
ghost use Rattle.jcache.specs.Reports.{IsReportOf};

use crate::checking::check_and_show;
use crate::complaints::{
    complain_of, end_of_long_input, end_of_output, end_without_memory, end_without_words,
    write_note, write_notes,
};
use crate::report::Report;
use crate::status::{
    STATUS_CLEAN, STATUS_LINE_FAULT, STATUS_OPEN, STATUS_STREAMS, STATUS_UNEXPECTED, STATUS_USAGE,
};
use clap::Error;
use clap::error::ErrorKind;
use jc_commands::commands::{Task, read_task};
use jc_commands::plan::{INCREMENTS_MAX, Plan};
use jc_explore::Watch;
use jc_litmus::run::run as explore;
use jc_litmus::{LitmusEnd, LitmusFault};
use jc_script::run::run;
use jc_script::{RunEnd, RunFault};
use jc_shell::run::run as answer_lines;
use jc_shell::{Save, ShellFault};
use jc_text::Noted;
use jc_text::input::write_out;
use std::alloc::{AllocError, Global};
use std::io::{self, Read, Write};

/// The output of `--version`.
const VERSION: &str = "jcache 0.2.0\n";

/// The end of the help. The script `jcache` at the top of the repository shows the same help.
const ENDING: &str = "
Exit status: 0 done, 1 a line has a fault, 2 wrong words, 3 a stream failed, 4 out of memory, 5 wrong report, an expectation fails, or a key isn't explained,
  6 not all is known: states were left

The script ./jcache of the repository builds this program if it has to, and has further words:
  run FILE..       Plays these scripts, one after the other, up to the first whose exit status isn't 0; - is standard input
  explore FILE..   Explores these programs of threads in the same way
  check FILE..     Judges these records of calls in the same way
  build [CRATE..]  Proves and builds the program, and these crates with those below them; exit status 125 if that fails

For example: ./jcache run examples/put_seen_after_commit.script
The words of a script, and all limits: docs/SCRIPT.md; of a program of threads: docs/EXPLORE.md; of a record: docs/CHECK.md
";

/// The parts that a command uses beside standard input and output.
#[derive(Drop)]
pub struct Console<'a, E, H, S> {
    /// Standard error, for error messages.
    pub err: E,
    /// It is told the progress of a search.
    pub watch: H,
    /// The text that a shell writes before each line is typed. It is empty if nobody types.
    pub prompt: &'a str,
    /// Where a shell saves scripts.
    pub saves: S,
}

/// Plays the script, and returns the status.
fn play<R: Read, W: Write, E: Write>(
    alloc: Global,
    reader: &mut Noted<R>,
    out: &mut Noted<W>,
    err: &mut E,
) -> u8
    ensures played { ExitOfPlay result (R.remaining reader.old.inner) (R.remaining reader.new.inner)
        (W.contents out.old.inner) (W.contents out.new.inner) (out.new ≡ out.old) }
    ensures streams { reader.old.failed ≡ false → out.old.failed ≡ false
        → FailsByStreams result reader.new.failed out.new.failed (IsOver SCRIPT_MAX (R.remaining reader.old.inner)) (out.new ≡ out.old) }
{
    let mut note = Vec::new(alloc);
    match run(alloc, reader, out, &mut note) {
        Ok(RunEnd::Clean) => STATUS_CLEAN,
        Ok(RunEnd::LineFault(_)) => {
            write_note(err, &note);
            STATUS_LINE_FAULT
        }
        Err(RunFault::Read) => {
            complain_of(reader, err, "read failed");
            STATUS_STREAMS
        }
        Err(RunFault::Write) => end_of_output(out, err),
        Err(RunFault::TooLong) => end_of_long_input(err),
        Err(RunFault::OutOfMemory) => end_without_memory(err),
    }
}

/// Answers the lines of a script as they are typed, and returns the status.
fn converse<R: Read, W: Write, E: Write, H, S: Save>(
    alloc: Global,
    reader: &mut Noted<R>,
    out: &mut Noted<W>,
    console: &mut Console<'_, E, H, S>,
) -> u8
    ensures answered { ExitOfShell console.old.prompt.now result (R.remaining reader.old.inner) (R.remaining reader.new.inner)
        (W.contents out.old.inner) (W.contents out.new.inner) (S.calls console.old.saves) (S.calls console.new.saves) }
    ensures streams { reader.old.failed ≡ false → out.old.failed ≡ false
        → FailsByStreams result reader.new.failed out.new.failed (IsOver SCRIPT_MAX (R.remaining reader.old.inner)) (Unit {0}) }
{
    let err = &mut console.err;
    match answer_lines(alloc, console.prompt, reader, out, &mut console.saves) {
        Ok(()) => STATUS_CLEAN,
        Err(ShellFault::Read) => {
            complain_of(reader, err, "read failed");
            STATUS_STREAMS
        }
        Err(ShellFault::Write) => end_of_output(out, err),
        Err(ShellFault::TooLong) => end_of_long_input(err),
        Err(ShellFault::OutOfMemory) => end_without_memory(err),
    }
}

/// The status of an exploration whose answer was written.
fn status_of_end(end: LitmusEnd) -> u8
    ensures status { result ≡ status_of_end end }
    ensures apart { result ≢ 3 }
{
    match end {
        LitmusEnd::Holds => STATUS_CLEAN,
        LitmusEnd::LineFault => STATUS_LINE_FAULT,
        LitmusEnd::Fails => STATUS_UNEXPECTED,
        LitmusEnd::Open => STATUS_OPEN,
    }
}

/// Writes the outcomes of a program of threads, for which it follows at most `states` states, and returns the status.
fn explore_and_show<R: Read, W: Write, E: Write, H: Watch, S>(
    alloc: Global,
    states: u32,
    reader: &mut Noted<R>,
    out: &mut Noted<W>,
    console: &mut Console<'_, E, H, S>,
) -> u8
    ensures explored { ExitOfExplore states result (R.remaining reader.old.inner) (R.remaining reader.new.inner)
        (W.contents out.old.inner) (W.contents out.new.inner) (out.new ≡ out.old) }
    ensures streams { reader.old.failed ≡ false → out.old.failed ≡ false
        → FailsByStreams result reader.new.failed out.new.failed (IsOver SCRIPT_MAX (R.remaining reader.old.inner)) (out.new ≡ out.old) }
{
    let mut notes = Vec::new(alloc);
    match explore(
        alloc,
        reader,
        out,
        states as usize,
        &mut console.watch,
        &mut notes,
    ) {
        Ok(end) => {
            write_notes(&mut console.err, &notes);
            status_of_end(end)
        }
        Err(LitmusFault::Read) => {
            complain_of(reader, &mut console.err, "read failed");
            STATUS_STREAMS
        }
        Err(LitmusFault::Write) => end_of_output(out, &mut console.err),
        Err(LitmusFault::TooLong) => end_of_long_input(&mut console.err),
        Err(LitmusFault::OutOfMemory) => end_without_memory(&mut console.err),
    }
}

/// Shows the text that was asked for, and returns the status.
fn show<W: Write, E: Write>(text: &str, out: &mut Noted<W>, err: &mut E) -> u8
    ensures shown { ShowsText text.now result (W.contents out.old.inner) (W.contents out.new.inner) }
    ensures streams { out.old.failed ≡ false → (result ≡ 3 ↔ out.new.failed ≡ true) }
{
    match write_out(out, text.as_bytes()) {
        Ok(()) => STATUS_CLEAN,
        Err(_) => end_of_output(out, err),
    }
}

/// Writes the error of the words, or shows the text that they ask for, and returns the status.
fn answer<W: Write, E: Write>(alloc: Global, error: &Error, out: &mut Noted<W>, err: &mut E) -> u8
    ensures answered { ExitOfFault (kind_of error.now) result (W.contents out.old.inner) (W.contents out.new.inner) (out.new ≡ out.old)
        ⊎ ((result ≡ 4) × (out.new ≡ out.old)) }
    ensures streams { out.old.failed ≡ false → (result ≡ 3 ↔ out.new.failed ≡ true) }
{
    if error.use_stderr() {
        let _ = write!(err, "{error}");
        return STATUS_USAGE;
    }
    if error.kind() == ErrorKind::DisplayVersion {
        return show(VERSION, out, err);
    }
    match help(alloc, error) {
        Ok(text) => show(&text, out, err),
        Err(_) => end_without_memory(err),
    }
}

/// The help that the words ask for, with its ending.
fn help(alloc: Global, error: &Error) -> Result<String, AllocError>
    ensures { IfOk result (λ text. IsHelp (string_bytes text)) }
{
    let mut text = match format!(in alloc; "{error}") {
        Ok(text) => text,
        Err(_) => return Err(AllocError),
    };
    text.push_str(ENDING)?;
    Ok(text)
}

/// Writes a report, and returns the status.
fn show_report<W: Write, E: Write>(
    alloc: Global,
    report: &Report,
    out: &mut Noted<W>,
    err: &mut E,
) -> u8
    ensures shown { ShowsReport report.now result (W.contents out.old.inner) (W.contents out.new.inner) (out.new ≡ out.old) }
    ensures streams { out.old.failed ≡ false → (result ≡ 3 ↔ out.new.failed ≡ true) }
{
    let Ok(text) = report.text(alloc) else {
        return end_without_memory(err);
    };
    if write_out(out, &text).is_err() {
        return end_of_output(out, err);
    }
    status_of(report)
}

/// The status of a report that was written.
fn status_of(report: &Report) -> u8
    ensures { result ≡ status_of report.now }
{
    if report.is_right() {
        STATUS_CLEAN
    } else {
        STATUS_UNEXPECTED
    }
}

/// Writes that a plan is too much work.
fn complain_of_plan<E: Write>(plan: &Plan, err: &mut E) {
    let (workers, rounds) = (plan.workers, plan.rounds);
    let _ = write!(
        err,
        "jcache: too much work: {workers} times {rounds} is over {INCREMENTS_MAX}; with --history NUMBER there is no such limit\n",
    );
}

/// The report on a plan.
fn report_on<F: FnOnce(&Plan) -> Result<Report, AllocError>>(
    count: F,
    plan: &Plan,
) -> Result<Report, AllocError>
    requires callable { (plan : _) → F.pre count plan }
    requires reports { (plan : _) (r : _) → F.post count plan r → IfOk r (IsReportOf plan.now) }
    ensures counted { FnOnceReturnsAt F.FnOnce count plan.now result }
    ensures plan { IfOk result (λ report. IsReportOf plan.now report) }
{
    count(plan)
}

/// Lets threads count, and returns the status.
fn count_and_show<F: FnOnce(&Plan) -> Result<Report, AllocError>, W: Write, E: Write>(
    alloc: Global,
    count: F,
    plan: &Plan,
    out: &mut Noted<W>,
    err: &mut E,
) -> u8
    requires callable { (plan : _) → F.pre count plan }
    requires reports { (plan : _) (r : _) → F.post count plan r → IfOk r (IsReportOf plan.now) }
    ensures counted { ExitOfThreads (FnOnceReturnsAt F.FnOnce count) plan.now result (W.contents out.old.inner) (W.contents out.new.inner) (out.new ≡ out.old) }
    ensures streams { out.old.failed ≡ false → (result ≡ 3 ↔ out.new.failed ≡ true) }
{
    if plan.is_too_much() {
        complain_of_plan(plan, err);
        return STATUS_USAGE;
    }
    match report_on(count, plan) {
        Ok(report) => show_report(alloc, &report, out, err),
        Err(AllocError) => end_without_memory(err),
    }
}

/// Carries a task out, and returns the status.
fn carry_out<
    F: FnOnce(&Plan) -> Result<Report, AllocError>,
    R: Read,
    W: Write,
    E: Write,
    H: Watch,
    S: Save,
>(
    alloc: Global,
    count: F,
    task: &Task,
    reader: &mut Noted<R>,
    out: &mut Noted<W>,
    console: &mut Console<'_, E, H, S>,
) -> u8
    requires callable { (plan : _) → F.pre count plan }
    requires reports { (plan : _) (r : _) → F.post count plan r → IfOk r (IsReportOf plan.now) }
    ensures done { Exits (FnOnceReturnsAt F.FnOnce count) console.old.prompt.now task.now result
        (R.remaining reader.old.inner) (R.remaining reader.new.inner) (W.contents out.old.inner) (W.contents out.new.inner)
        (S.calls console.old.saves) (S.calls console.new.saves) (out.new ≡ out.old) (reader.new ≡ reader.old) }
    ensures streams { reader.old.failed ≡ false → out.old.failed ≡ false
        → FailsByStreams result reader.new.failed out.new.failed (IsTooLong task.now (R.remaining reader.old.inner))
        ((task.now ≡ tasks.Shell) ⊎ (out.new ≡ out.old)) }
{
    match task {
        Task::Run => play(alloc, reader, out, &mut console.err),
        Task::Shell => converse(alloc, reader, out, console),
        Task::Explore { states } => explore_and_show(alloc, *states, reader, out, console),
        Task::Threads(plan) => count_and_show(alloc, count, plan, out, &mut console.err),
        Task::Check(plan) => check_and_show(alloc, plan, reader, out, &mut console.err),
    }
}

/// Carries out the task of these words, and returns the status.
fn do_words<
    F: FnOnce(&Plan) -> Result<Report, AllocError>,
    R: Read,
    W: Write,
    E: Write,
    H: Watch,
    S: Save,
>(
    alloc: Global,
    count: F,
    words: &[String],
    reader: &mut Noted<R>,
    out: &mut Noted<W>,
    console: &mut Console<'_, E, H, S>,
) -> u8
    requires callable { (plan : _) → F.pre count plan }
    requires reports { (plan : _) (r : _) → F.post count plan r → IfOk r (IsReportOf plan.now) }
    ensures answered { Exit (faults_at (map string_bytes words.now)) (subcommand_at (map string_bytes words.now)) result
        (λ task. Exits (FnOnceReturnsAt F.FnOnce count) console.old.prompt.now task result
        (R.remaining reader.old.inner) (R.remaining reader.new.inner) (W.contents out.old.inner) (W.contents out.new.inner)
        (S.calls console.old.saves) (S.calls console.new.saves) (out.new ≡ out.old) (reader.new ≡ reader.old))
        (reader.new ≡ reader.old) (W.contents out.old.inner) (W.contents out.new.inner) (out.new ≡ out.old) }
    ensures streams { reader.old.failed ≡ false → out.old.failed ≡ false
        → FailsByStreams result reader.new.failed out.new.failed
        (IsTooLongFor (subcommand_at (map string_bytes words.now)) (R.remaining reader.old.inner))
        (Names (subcommand_at (map string_bytes words.now)) (codes "shell") ⊎ (out.new ≡ out.old)) }
{
    match read_task(alloc, words) {
        Ok(task) => carry_out(alloc, count, &task, reader, out, console),
        Err(error) => {
            if error.kind() == ErrorKind::OutOfMemory {
                return end_without_memory(&mut console.err);
            }
            answer(alloc, &error, out, &mut console.err)
        }
    }
}

/// Carries out the task of a command line, and returns the status:
///
/// - 0: the script was played to its end; or the lines that were typed were answered, also those with a fault; or all outcomes of
///   a program of threads were written, and each expectation holds; or each key of a record is explained; or threads counted
///   right; or a text was asked for and shown, for example by `--help` and `--version`.
/// - 1: the transcript ends with a line's fault, whose column and word are on standard error; or a line of the program of threads
///   or of the record has a fault.
/// - 2: the words aren't this program's, ask for too much work or aren't UTF-8, which is written to standard error.
/// - 3: the input or output failed, or the input is too long.
/// - 4: an allocation failed.
/// - 5: the report that was written has a wrong number, or the history isn't legal; or an expectation fails; or a key of a record
///   isn't explained.
/// - 6: no expectation fails, and not all outcomes are known; or the search of a key gave up, and no key is known not to be explained.
///
/// `count` lets threads count by a plan. If the words ask for it and the plan isn't too much work, it is called, and the report that
/// it returns is the one that is shown. Otherwise it isn't called, so the loaders and writers of the threads are made only then; no
/// clause can say this of a closure. While it is at work, this waits. Nothing else waits. The watch is told the progress of a search
/// for outcomes.
///
/// Conditions: `count` may be called, and its report is on the plan that it was given.
pub fn exec<
    F: FnOnce(&Plan) -> Result<Report, AllocError>,
    R: Read,
    W: Write,
    E: Write,
    H: Watch,
    S: Save,
>(
    alloc: Global,
    count: F,
    words: io::Result<Vec<String>>,
    reader: &mut Noted<R>,
    out: &mut Noted<W>,
    console: &mut Console<'_, E, H, S>,
) -> u8
    requires callable { (plan : _) → F.pre count plan }
    requires reports { (plan : _) (r : _) → F.post count plan r → IfOk r (IsReportOf plan.now) }
    // The task of right words is carried out. For other words the error is written, or the text that they ask for is shown; then
    // nothing is read.
    ensures answered { IfOk words (λ w. Exit (faults_at (map string_bytes w.items)) (subcommand_at (map string_bytes w.items)) result
        (λ task. Exits (FnOnceReturnsAt F.FnOnce count) console.old.prompt.now task result
        (R.remaining reader.old.inner) (R.remaining reader.new.inner) (W.contents out.old.inner) (W.contents out.new.inner)
        (S.calls console.old.saves) (S.calls console.new.saves) (out.new ≡ out.old) (reader.new ≡ reader.old))
        (reader.new ≡ reader.old) (W.contents out.old.inner) (W.contents out.new.inner) (out.new ≡ out.old)) }
    // Without words nothing is read or written.
    ensures without_words { IfErr words (λ e. (result ≡ status_without_words (error_kind e)) × (reader.new ≡ reader.old) × (out.new ≡ out.old)) }
    // Status 3 is returned if a stream failed in this call, and otherwise only if the input is longer than the task that the words
    // ask for takes. After a failed read nothing was written, unless a shell had answered lines before.
    ensures streams { IfOk words (λ w. reader.old.failed ≡ false → out.old.failed ≡ false
        → FailsByStreams result reader.new.failed out.new.failed
        (IsTooLongFor (subcommand_at (map string_bytes w.items)) (R.remaining reader.old.inner))
        (Names (subcommand_at (map string_bytes w.items)) (codes "shell") ⊎ (out.new ≡ out.old))) }
{
    match words {
        Ok(words) => do_words(alloc, count, &words, reader, out, console),
        Err(error) => end_without_words(error.kind(), &mut console.err),
    }
}
