//! The answers of loaders and writers, and whether they are honest.
ghost use Rattle.std.specs.Prelude.{◌≡◌};
ghost use Rattle.jc_world.specs.Premises.{read_answer, changed_to, report_of, is_true_load, is_done, is_true_report};

use jc_model::{Change, LoadAnswer, WriteAnswer};
use jc_types::Value;

/// Whether the loader's answer is a failure, or what the store holds.
pub(crate) fn is_honest_load(answer: LoadAnswer, stored: Option<Value>) -> bool
    ensures { result ≡ is_true_load answer stored }
{
    match answer {
        LoadAnswer::NotAsked | LoadAnswer::Failed(_) => true,
        LoadAnswer::Found(value) => match stored {
            Some(held) => held == value,
            None => false,
        },
        LoadAnswer::Nothing => stored.is_none(),
    }
}

/// The answer of a loader that reads the store.
pub(crate) fn answer_of(stored: Option<Value>) -> LoadAnswer
    ensures { result ≡ read_answer stored }
{
    match stored {
        Some(value) => LoadAnswer::Found(value),
        None => LoadAnswer::Nothing,
    }
}

/// The writer's report, from its fault or none.
pub(crate) fn report_with(fault: Option<u32>) -> WriteAnswer
    ensures { result ≡ report_of fault }
{
    match fault {
        Some(code) => WriteAnswer::Failed(code),
        None => WriteAnswer::Done,
    }
}

/// Whether a report says that the writer did as it was asked.
fn is_done(report: &WriteAnswer) -> bool
    ensures { result ≡ is_done report.now }
{
    match report {
        WriteAnswer::Done => true,
        WriteAnswer::NotAsked | WriteAnswer::Failed(_) => false,
    }
}

/// Whether a report says that the writer did as it was asked exactly if the store was changed.
pub(crate) fn is_honest_report(report: &WriteAnswer, is_changed: bool) -> bool
    ensures { result ≡ is_true_report report.now is_changed }
{
    is_changed == is_done(report)
}

/// The store's value of a key once the writer has made the change that it was asked for.
pub(crate) fn entry_after(change: &Change) -> Option<Value>
    ensures { result ≡ changed_to change.now }
{
    match change {
        Change::Write(value) => Some(*value),
        Change::Delete => None,
    }
}
