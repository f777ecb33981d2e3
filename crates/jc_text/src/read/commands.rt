//! Operations as words: their names, and what follows a name.
ghost use Rattle.std.specs.Prelude.{◌≡◌, map, option_map};
ghost use Rattle.jc_text.specs.Lines.{Gives, ok_with, form_named, op_name, takes_words, bare_op, valued_op, bare_of, valued_of};
ghost use Rattle.jc_text.specs.Lines.{value_alone, replace_if_of, command_of, begin_with, bulk_of, bulk_with};
ghost use Rattle.jc_text.specs.Lines.{is_load_mode, has_load_shape, bulk_takes, load_all_of};

use crate::fault::{Fault, ReadError};
use crate::read::line::{BulkLine, Line, Operation, put_line};
use crate::read::words::{distinct_pairs, is, key, keys, value};
use jc_model::Op;
use jc_types::Value;
use std::alloc::Global;

/// An operation with no value.
#[derive(Clone, Copy)]
pub enum Bare {
    Get,
    Contains,
    Remove,
    GetRemove,
    Forget,
    Invoke,
}

/// An operation with one value.
#[derive(Clone, Copy)]
pub enum Valued {
    Put,
    GetPut,
    PutIf,
    RemoveIf,
    Replace,
    GetReplace,
}

/// Which call of many keys a word names.
#[derive(Clone, Copy)]
pub enum BulkName {
    GetAll,
    PutAll,
    RemoveAll,
    RemoveEvery,
    Clear,
    LoadAll,
    InvokeAll,
}

/// The words after an operation's name: its key and its values, or the words of a call of many keys.
#[derive(Clone, Copy)]
pub enum Form {
    Bare(Bare),
    Valued(Valued),
    /// The old value and the new one.
    ReplaceIf,
    /// The words of a call of many keys: keys or pairs, `keep` or `replace` and keys, or nothing.
    Bulk(BulkName),
}

/// The call that a word names, and what it takes.
pub fn form_named(word: &[u8]) -> Result<Form, Fault>
    ensures { result ≡ form_named word.now }
{
    match word {
        _ if is(word, "get") => Ok(Form::Bare(Bare::Get)),
        _ if is(word, "contains") => Ok(Form::Bare(Bare::Contains)),
        _ if is(word, "put") => Ok(Form::Valued(Valued::Put)),
        _ if is(word, "getput") => Ok(Form::Valued(Valued::GetPut)),
        _ if is(word, "putif") => Ok(Form::Valued(Valued::PutIf)),
        _ if is(word, "remove") => Ok(Form::Bare(Bare::Remove)),
        _ if is(word, "removeif") => Ok(Form::Valued(Valued::RemoveIf)),
        _ if is(word, "getremove") => Ok(Form::Bare(Bare::GetRemove)),
        _ if is(word, "replace") => Ok(Form::Valued(Valued::Replace)),
        _ if is(word, "replaceif") => Ok(Form::ReplaceIf),
        _ if is(word, "getreplace") => Ok(Form::Valued(Valued::GetReplace)),
        _ if is(word, "forget") => Ok(Form::Bare(Bare::Forget)),
        _ if is(word, "invoke") => Ok(Form::Bare(Bare::Invoke)),
        _ if is(word, "getall") => Ok(Form::Bulk(BulkName::GetAll)),
        _ if is(word, "putall") => Ok(Form::Bulk(BulkName::PutAll)),
        _ if is(word, "removeall") => Ok(Form::Bulk(BulkName::RemoveAll)),
        _ if is(word, "removeevery") => Ok(Form::Bulk(BulkName::RemoveEvery)),
        _ if is(word, "clear") => Ok(Form::Bulk(BulkName::Clear)),
        _ if is(word, "loadall") => Ok(Form::Bulk(BulkName::LoadAll)),
        _ if is(word, "invokeall") => Ok(Form::Bulk(BulkName::InvokeAll)),
        _ => Err(Fault::BadLine),
    }
}

/// The name of an operation, if it has one: the keys of a `loadall` have none of their own.
pub fn op_name(op: &Op) -> Option<&'static str>
    ensures { option_map (λ name. name.now) result ≡ op_name op.now }
{
    match op {
        Op::Get => Some("get"),
        Op::ContainsKey => Some("contains"),
        Op::Put(_) => Some("put"),
        Op::GetAndPut(_) => Some("getput"),
        Op::PutIfAbsent(_) => Some("putif"),
        Op::Remove => Some("remove"),
        Op::RemoveIf(_) => Some("removeif"),
        Op::GetAndRemove => Some("getremove"),
        Op::Replace(_) => Some("replace"),
        Op::ReplaceIf { .. } => Some("replaceif"),
        Op::GetAndReplace(_) => Some("getreplace"),
        Op::Clear => Some("forget"),
        Op::LoadAll { .. } => None,
        Op::Invoke => Some("invoke"),
    }
}

/// Whether a word says which keys a `loadall` loads: `keep`, those that are missing; or `replace`, all.
pub fn is_load_mode(word: &[u8]) -> bool
    ensures { result ≡ is_load_mode word.now }
{
    is(word, "keep") || is(word, "replace")
}

/// Whether these words say which keys a `loadall` loads, and then name a key or more.
fn has_load_shape(words: &[&[u8]]) -> bool
    ensures { result ≡ has_load_shape (map (λ w. w.now) words.now) }
{
    match words {
        [] => false,
        [mode, rest @ ..] => is_load_mode(mode) && 0 < rest.len(),
    }
}

/// Whether these words may follow the name of a call of many keys: a key or a pair, or more; or none.
fn bulk_takes(name: BulkName, words: &[&[u8]]) -> bool
    ensures { result ≡ bulk_takes name (map (λ w. w.now) words.now) }
{
    match name {
        BulkName::GetAll | BulkName::PutAll | BulkName::RemoveAll | BulkName::InvokeAll => {
            0 < words.len()
        }
        BulkName::RemoveEvery | BulkName::Clear => words.len() == 0,
        BulkName::LoadAll => has_load_shape(words),
    }
}

/// Whether these words may follow an operation's name, by their number: its key, and the values that it takes; or what a call of many
/// keys takes.
pub fn has_shape(form: Form, words: &[&[u8]]) -> bool
    ensures { result ≡ takes_words form (map (λ w. w.now) words.now) }
{
    match form {
        Form::Bare(_) => words.len() == 1,
        Form::Valued(_) => words.len() == 2,
        Form::ReplaceIf => words.len() == 3,
        Form::Bulk(name) => bulk_takes(name, words),
    }
}

fn bare_op(bare: Bare) -> Op
    ensures { result ≡ bare_op bare }
{
    match bare {
        Bare::Get => Op::Get,
        Bare::Contains => Op::ContainsKey,
        Bare::Remove => Op::Remove,
        Bare::GetRemove => Op::GetAndRemove,
        Bare::Forget => Op::Clear,
        Bare::Invoke => Op::Invoke,
    }
}

fn valued_op(valued: Valued, value: Value) -> Op
    ensures { result ≡ valued_op valued value }
{
    match valued {
        Valued::Put => Op::Put(value),
        Valued::GetPut => Op::GetAndPut(value),
        Valued::PutIf => Op::PutIfAbsent(value),
        Valued::RemoveIf => Op::RemoveIf(value),
        Valued::Replace => Op::Replace(value),
        Valued::GetReplace => Op::GetAndReplace(value),
    }
}

#[inline(never)]
fn begin_bare(
    call: u32,
    session: u32,
    bare: Bare,
    words: &[&[u8]],
    line: &mut Line,
) -> Result<(), Fault>
    ensures { ok_with line.new result ≡ begin_with call session (bare_of (bare_op bare) (map (λ w. w.now) words.now)) }
{
    match words {
        [k] => {
            let key = key(k)?;
            let op = bare_op(bare);
            put_line(line, Line::Begin(call, session, Operation { op, key }));
            Ok(())
        }
        _ => Err(Fault::BadLine),
    }
}

#[inline(never)]
fn begin_valued(
    call: u32,
    session: u32,
    valued: Valued,
    words: &[&[u8]],
    line: &mut Line,
) -> Result<(), Fault>
    ensures { ok_with line.new result ≡ begin_with call session (valued_of (valued_op valued) (map (λ w. w.now) words.now)) }
{
    match words {
        [k, v] => {
            let key = key(k)?;
            let op = valued_op(valued, value(v)?);
            put_line(line, Line::Begin(call, session, Operation { op, key }));
            Ok(())
        }
        _ => Err(Fault::BadLine),
    }
}

fn value_alone(words: &[&[u8]]) -> Result<Value, Fault>
    ensures { result ≡ value_alone (map (λ w. w.now) words.now) }
{
    match words {
        [v] => value(v),
        _ => Err(Fault::BadLine),
    }
}

#[tactic(auto, unfolding(crate::specs::Lines::replace_if_of))]
#[inline(never)]
fn begin_replace_if(call: u32, session: u32, words: &[&[u8]], line: &mut Line) -> Result<(), Fault>
    ensures { ok_with line.new result ≡ begin_with call session (replace_if_of (map (λ w. w.now) words.now)) }
{
    match words {
        [k, v, rest @ ..] => {
            let key = key(k)?;
            let old = value(v)?;
            let new = value_alone(rest)?;
            let op = Op::ReplaceIf { old, new };
            put_line(line, Line::Begin(call, session, Operation { op, key }));
            Ok(())
        }
        _ => Err(Fault::BadLine),
    }
}

/// A `loadall` of the keys after the first word, which says whether it replaces.
fn load_all(alloc: Global, words: &[&[u8]]) -> Result<BulkLine, ReadError>
    ensures { Gives result (load_all_of (map (λ w. w.now) words.now)) }
{
    match words {
        [] => Err(ReadError::Fault(Fault::BadLine)),
        [mode, rest @ ..] => {
            let keys = keys(alloc, rest)?;
            let replace = is(mode, "replace");
            Ok(BulkLine::LoadAll { replace, keys })
        }
    }
}

fn read_bulk(alloc: Global, name: BulkName, words: &[&[u8]]) -> Result<BulkLine, ReadError>
    ensures { Gives result (bulk_of name (map (λ w. w.now) words.now)) }
{
    match name {
        BulkName::GetAll => Ok(BulkLine::GetAll(keys(alloc, words)?)),
        BulkName::PutAll => Ok(BulkLine::PutAll(distinct_pairs(alloc, words)?)),
        BulkName::RemoveAll => Ok(BulkLine::RemoveAll(keys(alloc, words)?)),
        BulkName::RemoveEvery => Ok(BulkLine::RemoveEvery),
        BulkName::Clear => Ok(BulkLine::Clear),
        BulkName::LoadAll => load_all(alloc, words),
        BulkName::InvokeAll => Ok(BulkLine::InvokeAll(keys(alloc, words)?)),
    }
}

#[inline(never)]
fn begin_bulk(
    alloc: Global,
    call: u32,
    session: u32,
    name: BulkName,
    words: &[&[u8]],
    line: &mut Line,
) -> Result<(), ReadError>
    ensures { Gives (ok_with line.new result) (bulk_with call session (bulk_of name (map (λ w. w.now) words.now))) }
{
    let bulk = read_bulk(alloc, name, words)?;
    put_line(line, Line::BeginBulk(call, session, bulk));
    Ok(())
}

/// The begin of a call, with what a form and the words after its name say. It is left in `line`.
pub fn begin_command(
    alloc: Global,
    call: u32,
    session: u32,
    form: Form,
    words: &[&[u8]],
    line: &mut Line,
) -> Result<(), ReadError>
    ensures { Gives (ok_with line.new result) (command_of call session form (map (λ w. w.now) words.now)) }
{
    match form {
        Form::Bare(bare) => Ok(begin_bare(call, session, bare, words, line)?),
        Form::Valued(valued) => Ok(begin_valued(call, session, valued, words, line)?),
        Form::ReplaceIf => Ok(begin_replace_if(call, session, words, line)?),
        Form::Bulk(name) => begin_bulk(alloc, call, session, name, words, line),
    }
}
