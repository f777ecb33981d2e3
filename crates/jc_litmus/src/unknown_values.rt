//! Values that an expectation names or a call compares, and that no line of the program sets or writes: typing errors, as a rule.
ghost use Rattle.std.specs.Prelude.{◌≡◌, ◌++◌, codes, OnOk};
ghost use Rattle.std.specs.List.{flat_map, list_any};
ghost use Rattle.jc_litmus.specs.UnknownValues.{atom_value, has_value, is_known, is_set_by, is_stored, is_written_by, is_written_in, reply_value};
ghost use Rattle.jc_litmus.specs.UnknownValues.{unknown_text, call_warning, compared_value, compared_warning, item_warning, thread_warnings};
ghost use Rattle.jc_litmus.specs.UnknownValues.{expectation_warnings, value_warning, warning_if_unknown, warning_of, warnings_text, written_value};

use crate::program::{Atom, Expectation};
use crate::spelling::put_operation;
use jc_explore::{Item, Program};
use jc_model::{EntryCall, Op, Reply};
use jc_text::print::{Piece, put, put_pieces};
use jc_types::{Key, Value};
use std::alloc::AllocError;

/// The value that a reply names.
fn reply_value(reply: &Reply) -> Option<Value>
    ensures { result ≡ reply_value reply.now }
{
    match reply {
        Reply::Value(value) => *value,
        Reply::Unit | Reply::Flag(_) | Reply::Fault(_) => None,
    }
}

/// The value that an atom names.
fn atom_value(atom: &Atom) -> Option<Value>
    ensures { result ≡ atom_value atom.now }
{
    match atom {
        Atom::Replied { reply, .. } => reply_value(reply),
        Atom::Cached { value, .. } | Atom::Stored { value, .. } => *value,
        Atom::Coherent | Atom::Differs => None,
    }
}

/// The value that an operation may leave in the store. The value that it only compares isn't one.
fn written_value(op: &Op) -> Option<Value>
    ensures { result ≡ written_value op.now }
{
    match op {
        Op::Put(value) | Op::GetAndPut(value) | Op::PutIfAbsent(value) => Some(*value),
        Op::Replace(value) | Op::GetAndReplace(value) => Some(*value),
        Op::ReplaceIf { old: _, new } => Some(*new),
        Op::Get | Op::ContainsKey | Op::Remove | Op::RemoveIf(_) | Op::GetAndRemove => None,
        Op::Clear | Op::LoadAll { .. } | Op::Invoke => None,
    }
}

/// Whether this is the value.
fn has_value(found: &Option<Value>, value: &Value) -> bool
    ensures { result ≡ has_value found.now value.now }
{
    match found {
        Some(found) => *found == *value,
        None => false,
    }
}

/// Whether a call on an entry sets this value.
fn is_set_by(value: &Value, call: &EntryCall) -> bool
    ensures { result ≡ is_set_by value.now call.now }
{
    match call {
        EntryCall::SetValue(set) => *set == *value,
        EntryCall::GetValue | EntryCall::Exists | EntryCall::Remove => false,
    }
}

/// Whether one of these calls on an entry sets this value.
fn is_set_in(value: &Value, calls: &[EntryCall]) -> bool
    ensures { result ≡ list_any (is_set_by value.now) calls.now }
{
    calls.iter().any(|call| is_set_by(value, call))
}

/// Whether an item writes this value.
fn is_written_by(value: &Value, item: &Item) -> bool
    ensures { result ≡ is_written_by value.now item.now }
{
    match item {
        Item::Call { op, key: _ } => has_value(&written_value(op), value),
        Item::Invoke { key: _, calls } => is_set_in(value, calls.as_slice()),
        Item::Foreign {
            key: _,
            value: found,
        } => has_value(found, value),
        Item::Invalidate { key: _ } => false,
    }
}

/// Whether one of these items writes this value.
fn is_written_in(value: &Value, items: &[Item]) -> bool
    ensures { result ≡ list_any (is_written_by value.now) items.now }
{
    items.iter().any(|item| is_written_by(value, item))
}

/// Whether a thread writes this value.
fn is_written(value: &Value, threads: &[Vec<Item>]) -> bool
    ensures { result ≡ list_any (is_written_in value.now) threads.now }
{
    threads.iter().any(|items| is_written_in(value, items))
}

/// Whether the store has this value at first.
fn is_stored(value: &Value, stored: &[(Key, Value)]) -> bool
    ensures { result ≡ list_any (is_stored value.now) stored.now }
{
    stored.iter().any(|entry| entry.1 == *value)
}

/// Whether a line of the program sets or writes this value.
fn is_known(program: &Program, value: &Value) -> bool
    ensures { result ≡ is_known program.now value.now }
{
    is_stored(value, &program.stored) || is_written(value, &program.threads)
}

/// Appends a text, and the end of its line.
fn put_line_end(out: &mut Vec<u8>, text: &[u8]) -> Result<(), AllocError>
    ensures { OnOk result (out.new.items ≡ out.old.items ++ text.now ++ codes "\n") }
{
    out.extend_from_slice(text)?;
    put(out, "\n")
}

/// Appends that no line sets or writes this value.
fn put_unknown<'a>(out: &mut Vec<u8>, value: &'a Value) -> Result<(), AllocError>
    ensures { OnOk result (out.new.items ≡ out.old.items ++ unknown_text value.now) }
{
    put_pieces(
        out,
        &[
            Piece::Text("warning: no line sets or writes the value "),
            Piece::Value(value),
            Piece::Text(": "),
        ],
    )
}

/// Appends that no line sets or writes this value of an expectation.
fn put_value_warning<'a>(out: &mut Vec<u8>, value: &'a Value, text: &[u8]) -> Result<(), AllocError>
    ensures { OnOk result (out.new.items ≡ out.old.items ++ value_warning value.now text.now) }
{
    put_unknown(out, value)?;
    put_line_end(out, text)?;
    Ok(())
}

/// Appends a warning if the value of an atom is none that a line of the program sets or writes.
fn put_warning(
    out: &mut Vec<u8>,
    program: &Program,
    text: &[u8],
    atom: &Atom,
) -> Result<(), AllocError>
    ensures { OnOk result (out.new.items ≡ out.old.items ++ warning_of program.now text.now atom.now) }
{
    match atom_value(atom) {
        None => Ok(()),
        Some(value) => {
            if is_known(program, &value) {
                return Ok(());
            }
            put_value_warning(out, &value, text)
        }
    }
}

/// Appends the warnings about the atoms of an expectation, which has this text.
fn put_expectation_warnings(
    out: &mut Vec<u8>,
    program: &Program,
    text: &[u8],
    atoms: &[Atom],
) -> Result<(), AllocError>
    ensures { OnOk result (out.new.items ≡ out.old.items ++ flat_map (warning_of program.now text.now) atoms.now) }
{
    for atom in atoms {
        put_warning(out, program, text, atom)?;
    }
    Ok(())
}

/// The value with which an operation compares the entry.
fn compared_value(op: &Op) -> Option<Value>
    ensures { result ≡ compared_value op.now }
{
    match op {
        Op::RemoveIf(old) => Some(*old),
        Op::ReplaceIf { old, new: _ } => Some(*old),
        Op::Get | Op::ContainsKey | Op::Put(_) | Op::GetAndPut(_) | Op::PutIfAbsent(_) => None,
        Op::Remove | Op::GetAndRemove | Op::Replace(_) | Op::GetAndReplace(_) => None,
        Op::Clear | Op::LoadAll { .. } | Op::Invoke => None,
    }
}

/// Appends that no line sets or writes the value with which a call compares.
#[tactic(auto, unfolding(crate::specs::UnknownValues::compared_warning))]
fn put_compared_warning<'a>(
    out: &mut Vec<u8>,
    value: &'a Value,
    op: &Op,
    key: &Key,
) -> Result<(), AllocError>
    ensures { OnOk result (out.new.items ≡ out.old.items ++ compared_warning value.now op.now key.now) }
{
    put_pieces(
        out,
        &[
            Piece::Text("warning: no line sets or writes the value "),
            Piece::Value(value),
            Piece::Text(":"),
        ],
    )?;
    put_operation(out, op, key)?;
    put(out, "\n")
}

/// Appends a warning if the value with which a call compares is none that a line of the program sets or writes.
fn put_call_warning(
    out: &mut Vec<u8>,
    program: &Program,
    op: &Op,
    key: &Key,
) -> Result<(), AllocError>
    ensures { OnOk result (out.new.items ≡ out.old.items ++ call_warning program.now op.now key.now (compared_value op.now)) }
{
    match compared_value(op) {
        None => Ok(()),
        Some(value) => {
            if is_known(program, &value) {
                return Ok(());
            }
            put_compared_warning(out, &value, op, key)
        }
    }
}

/// Appends the warning about an item, if there is one.
fn put_item_warning(out: &mut Vec<u8>, program: &Program, item: &Item) -> Result<(), AllocError>
    ensures { OnOk result (out.new.items ≡ out.old.items ++ item_warning program.now item.now) }
{
    match item {
        Item::Call { op, key } => put_call_warning(out, program, op, key),
        Item::Invoke { .. } | Item::Foreign { .. } | Item::Invalidate { .. } => Ok(()),
    }
}

/// Appends the warnings about the items of a thread.
fn put_thread_warnings(
    out: &mut Vec<u8>,
    program: &Program,
    items: &[Item],
) -> Result<(), AllocError>
    ensures { OnOk result (out.new.items ≡ out.old.items ++ flat_map (item_warning program.now) items.now) }
{
    for item in items {
        put_item_warning(out, program, item)?;
    }
    Ok(())
}

/// Appends the warnings about the calls of all threads.
fn put_call_warnings(out: &mut Vec<u8>, program: &Program) -> Result<(), AllocError>
    ensures { OnOk result (out.new.items ≡ out.old.items ++ flat_map (thread_warnings program.now) program.now.threads.items) }
{
    for items in &program.threads {
        put_thread_warnings(out, program, items)?;
    }
    Ok(())
}

/// Appends the warnings about these expectations.
fn put_all_expectation_warnings(
    out: &mut Vec<u8>,
    program: &Program,
    expectations: &[Expectation],
) -> Result<(), AllocError>
    ensures { OnOk result (out.new.items ≡ out.old.items ++ flat_map (expectation_warnings program.now) expectations.now) }
{
    for expectation in expectations {
        put_expectation_warnings(out, program, &expectation.text, &expectation.atoms)?;
    }
    Ok(())
}

/// Appends the warnings about a program and these expectations.
pub(crate) fn put_warnings(
    out: &mut Vec<u8>,
    program: &Program,
    expectations: &[Expectation],
) -> Result<(), AllocError>
    ensures { OnOk result (out.new.items ≡ out.old.items ++ warnings_text program.now expectations.now) }
{
    put_call_warnings(out, program)?;
    put_all_expectation_warnings(out, program, expectations)
}
