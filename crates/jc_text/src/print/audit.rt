//! An audit, as lines.
ghost use Rattle.std.specs.Prelude.{◌≡◌, ◌++◌, OnOk};
ghost use Rattle.std.specs.List.{flat_map};
ghost use Rattle.jc_text.specs.Printing.{entry_text, entries_line, coherence_text, legal_name, history_line, audit_text};

use crate::print::lines::put_keys_line;
use crate::print::{Piece, put, put_pieces};
use jc_types::{Key, Value};
use jc_world::audit::Audit;
use std::alloc::AllocError;

#[tactic(auto, unfolding(crate::specs::Printing::entry_text))]
fn put_entry(out: &mut Vec<u8>, entry: &(Key, Value)) -> Result<(), AllocError>
    ensures { OnOk result (out.new.items ≡ out.old.items ++ entry_text entry.now) }
{
    put_pieces(
        out,
        &[
            Piece::Text(" "),
            Piece::Key(&entry.0),
            Piece::Text("="),
            Piece::Value(&entry.1),
        ],
    )
}

fn put_entries(out: &mut Vec<u8>, entries: &[(Key, Value)]) -> Result<(), AllocError>
    ensures { OnOk result (out.new.items ≡ out.old.items ++ flat_map entry_text entries.now) }
{
    for entry in entries {
        put_entry(out, entry)?;
    }
    Ok(())
}

/// A line of entries, with this word before them.
#[tactic(auto, unfolding(crate::specs::Printing::entries_line))]
pub fn put_entries_line(
    out: &mut Vec<u8>,
    name: &str,
    entries: &[(Key, Value)],
) -> Result<(), AllocError>
    ensures { OnOk result (out.new.items ≡ out.old.items ++ entries_line name.now entries.now) }
{
    put(out, name)?;
    put_entries(out, entries)?;
    put(out, "\n")
}

/// The keys that differ, or that there is none.
pub fn put_coherence(out: &mut Vec<u8>, keys: &[Key]) -> Result<(), AllocError>
    ensures { OnOk result (out.new.items ≡ out.old.items ++ coherence_text keys.now) }
{
    match keys {
        [] => put(out, "coherent\n"),
        [_, ..] => put_keys_line(out, "differs", keys),
    }
}

fn legality(is_legal: bool) -> &'static str
    ensures { result.now ≡ legal_name is_legal }
{
    if is_legal { " legal\n" } else { " illegal\n" }
}

#[tactic(auto, unfolding(crate::specs::Printing::history_line))]
fn put_history(out: &mut Vec<u8>, events: usize, is_legal: bool) -> Result<(), AllocError>
    ensures { OnOk result (out.new.items ≡ out.old.items ++ history_line events is_legal) }
{
    put_pieces(
        out,
        &[
            Piece::Text("history "),
            Piece::Number(events as u64),
            Piece::Text(legality(is_legal)),
        ],
    )
}

/// The lines of an audit.
#[tactic(auto, unfolding(crate::specs::Printing::audit_text))]
pub fn put_audit(out: &mut Vec<u8>, audit: &Audit) -> Result<(), AllocError>
    ensures { OnOk result (out.new.items ≡ out.old.items ++ audit_text audit.now.cache.items audit.now.store.items audit.now.differing.items audit.now.events audit.now.is_legal) }
{
    put_entries_line(out, "cache", &audit.cache)?;
    put_entries_line(out, "store", &audit.store)?;
    put_coherence(out, &audit.differing)?;
    put_history(out, audit.events, audit.is_legal)
}
