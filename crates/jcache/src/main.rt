//! The program: a command line, with a script that it plays, a shell that answers the lines of one, a program of threads whose
//! outcomes it looks for, a record of calls that it judges, and threads that count.
//!
//! Why it is so:
//! - The tasks and errors of a command line are what `clap`'s contract states of its words; a law computes them for the words
//!   that matter.
//! - A help text is complete before one call writes it, because the statuses are added at its end.
//! - What threads need is made by a closure of `main`, once the words ask for it, because a loader that waits can be boxed only
//!   where the runtime is known, and because a bound can't name a type with a box in it. So this closure also lets the threads
//!   count.
#![tactic(auto)]

ghost use Rattle.std.specs.Prelude.{IfOk};
ghost use Rattle.jcache.specs.Reports.{IsReportOf};

mod checking;
mod complaints;
mod exec;
mod progress;
mod report;
mod script_files;
mod status;
mod threads;

use exec::Console;
use jc_cache::{CacheLoader, CacheWriter, EntryProcessor};
use jc_commands::plan::Plan;
use jc_store::{Increment, SharedStore, Store};
use jc_text::Noted;
use progress::ProgressLine;
use report::Report;
use script_files::ScriptFiles;
use std::alloc::AllocError;
use std::env::{self, Env};
use std::io::{self, IsTerminal};
use std::process::ExitCode;
use threads::{Crew, OUTFITS, Outfit, count_on_threads};

/// The text that a shell on a terminal writes before each line is typed.
const PROMPT: &str = "jcache> ";

/// The words of the command line, the program's name first.
fn words<R: Env + AllocGlobal>(rt: &R) -> io::Result<Vec<String>> {
    Ok(env::args(rt)?.collect(rt.alloc())?)
}

fn main(rt: HostRuntime) -> ExitCode {
    let alloc = rt.alloc();
    let count = move |plan: &Plan| -> Result<Report, AllocError>
        ensures { IfOk result (IsReportOf plan.entry.now) }
    {
        let store = SharedStore::new(alloc, Store::new(alloc))?;
        let mut outfits = Vec::new(alloc);
        for _ in 0..OUTFITS {
            let loader: Box<dyn CacheLoader + Send + Drop> = Box::new(alloc, store.loader(rt)?)?;
            let writer: Box<dyn CacheWriter + Send + Drop> = Box::new(alloc, store.writer(rt)?)?;
            let increment: Box<dyn EntryProcessor + Send + Drop> = Box::new(alloc, Increment)?;
            outfits.push(Outfit {
                loader,
                writer,
                increment,
            })?;
        }
        count_on_threads(&rt, alloc, Crew { store, outfits }, plan)
    };
    let err = rt.stderr();
    let mut console = Console {
        err,
        watch: ProgressLine::new(err, err.is_terminal()),
        prompt: if rt.stdin().is_terminal() { PROMPT } else { "" },
        saves: ScriptFiles::new(rt),
    };
    let status = exec::exec(
        alloc,
        count,
        words(&rt),
        &mut Noted::new(rt.reader()),
        &mut Noted::new(io::writer(&rt)),
        &mut console,
    );
    ExitCode::from(status)
}
