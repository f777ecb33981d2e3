//! Lines of scripts, as they are spelled.
ghost use Rattle.std.specs.Prelude.{◌≡◌, ◌++◌, ◌∷◌, [], OnOk, map};
ghost use Rattle.jc_text.specs.ProcessWords.{call_text, fail_words, source_words};
ghost use Rattle.jc_text.specs.Spelled.{flag_words, operation_words, spelling};
ghost use Rattle.jc_text.specs.Printing.{value_text};
ghost use Rattle.jc_text.specs.declared.read.line.ScriptAct.TheVariants as act;
ghost use Rattle.jc_text.specs.declared.read.line.Line.TheVariants as line;
ghost use Rattle.jc_litmus.specs.Spaced.{begin_text, coded_text, lone_text, open_text, spaced};

use jc_model::{EntryCall, Op, OpValues};
use jc_text::op_name;
use jc_text::print::{Piece, put, put_pieces};
use jc_types::{Config, Key, Value};
use jc_world::LoadSource;
use std::alloc::AllocError;

/// Appends the line that opens a cache of this shape, with these words for the flags that are on.
fn put_open_with(out: &mut Vec<u8>, config: &Config, flags: &str) -> Result<(), AllocError>
    ensures { OnOk result (out.new.items ≡ out.old.items ++ open_text config.now flags.now) }
{
    put_pieces(
        out,
        &[
            Piece::Text("open "),
            Piece::Number(config.stripes as u64),
            Piece::Text(" "),
            Piece::Number(config.capacity as u64),
            Piece::Text(" "),
            Piece::Number(config.history as u64),
            Piece::Text(flags),
        ],
    )
}

/// The words for read-through and write-through, as far as they are on, each after a space.
fn flags(config: &Config) -> &'static str
    ensures { result.now ≡ spaced (flag_words config.now.read_through config.now.write_through) }
{
    match (config.read_through, config.write_through) {
        (false, false) => "",
        (true, false) => " read",
        (false, true) => " write",
        (true, true) => " read write",
    }
}

/// Appends the line that opens a cache of this shape.
#[tactic(auto, using(crate::proofs::Joined::spelled_open))]
pub fn put_open(out: &mut Vec<u8>, config: &Config) -> Result<(), AllocError>
    ensures { OnOk result (out.new.items ≡ out.old.items ++ spelling (line.Open config.now)) }
{
    put_open_with(out, config, flags(config))?;
    Ok(())
}

/// Appends the line of an entry that the store has before anything happens.
pub fn put_set<'a>(out: &mut Vec<u8>, key: &'a Key, value: &'a Value) -> Result<(), AllocError>
    ensures { OnOk result (out.new.items ≡ out.old.items ++ spelling (line.Set key.now value.now)) }
{
    put_pieces(
        out,
        &[
            Piece::Text("set "),
            Piece::Key(key),
            Piece::Text(" "),
            Piece::Value(value),
        ],
    )
}

/// Appends the line of another program's write, or delete.
pub fn put_foreign<'a>(
    out: &mut Vec<u8>,
    key: &'a Key,
    value: &'a Option<Value>,
) -> Result<(), AllocError>
    ensures { OnOk result (out.new.items ≡ out.old.items ++ spelling (line.Foreign key.now value.now)) }
{
    put_pieces(
        out,
        &[
            Piece::Text("foreign "),
            Piece::Key(key),
            Piece::Text(" "),
            Piece::ValueOrNone(value),
        ],
    )
}

/// Appends the line of an invalidation.
pub fn put_invalidate<'a>(out: &mut Vec<u8>, key: &'a Key) -> Result<(), AllocError>
    ensures { OnOk result (out.new.items ≡ out.old.items ++ spelling (line.Invalidate key.now)) }
{
    put_pieces(out, &[Piece::Text("invalidate "), Piece::Key(key)])
}

/// A call, and the session that begins it.
#[derive(Clone, Copy)]
pub struct Beginning {
    /// The call's number.
    pub call: u64,
    /// The session.
    pub session: u64,
}

/// Appends the name of an operation and its key, each after a space.
fn put_named<'a>(out: &mut Vec<u8>, name: &'a str, key: &'a Key) -> Result<(), AllocError>
    ensures { OnOk result (out.new.items ≡ out.old.items ++ spaced (name.now ∷ key.now ∷ [])) }
{
    put_pieces(
        out,
        &[
            Piece::Text(" "),
            Piece::Text(name),
            Piece::Text(" "),
            Piece::Key(key),
        ],
    )
}

/// Appends the name of an operation, its key and its value, each after a space.
fn put_valued<'a>(
    out: &mut Vec<u8>,
    name: &'a str,
    key: &'a Key,
    value: &'a Value,
) -> Result<(), AllocError>
    ensures { OnOk result (out.new.items
        ≡ out.old.items ++ spaced (name.now ∷ key.now ∷ value_text value.now ∷ [])) }
{
    put_named(out, name, key)?;
    put_pieces(out, &[Piece::Text(" "), Piece::Value(value)])
}

/// Appends the name of an operation, its key and its two values, each after a space.
fn put_two_valued<'a>(
    out: &mut Vec<u8>,
    name: &'a str,
    key: &'a Key,
    old: &'a Value,
    new: &'a Value,
) -> Result<(), AllocError>
    ensures { OnOk result (out.new.items
        ≡ out.old.items ++ spaced (name.now ∷ key.now ∷ value_text old.now ∷ value_text new.now ∷ [])) }
{
    put_valued(out, name, key, old)?;
    put_pieces(out, &[Piece::Text(" "), Piece::Value(new)])
}

/// Appends the words of an operation at a key, each after a space: nothing, if it has no name, as one of a bulk call.
pub fn put_operation(out: &mut Vec<u8>, op: &Op, key: &Key) -> Result<(), AllocError>
    ensures { OnOk result (out.new.items ≡ out.old.items ++ spaced (operation_words op.now key.now)) }
{
    let name = match op_name(op) {
        Some(name) => name,
        None => return Ok(()),
    };
    match op.values() {
        OpValues::Nothing => put_named(out, name, key),
        OpValues::One(value) => put_valued(out, name, key, value),
        OpValues::Two { first, second } => put_two_valued(out, name, key, first, second),
    }
}

/// Appends the first words of the line by which a session begins a call.
fn put_beginning(out: &mut Vec<u8>, beginning: Beginning) -> Result<(), AllocError>
    ensures { OnOk result (out.new.items
        ≡ out.old.items ++ begin_text beginning.call beginning.session []) }
{
    put_pieces(
        out,
        &[
            Piece::Text("begin "),
            Piece::Number(beginning.call),
            Piece::Text(" s"),
            Piece::Number(beginning.session),
        ],
    )
}

/// Appends the line by which a session begins a call.
pub fn put_begin(
    out: &mut Vec<u8>,
    beginning: Beginning,
    op: &Op,
    key: &Key,
) -> Result<(), AllocError>
    ensures { OnOk result (out.new.items ≡ out.old.items
        ++ begin_text beginning.call beginning.session (operation_words op.now key.now)) }
{
    put_beginning(out, beginning)?;
    put_operation(out, op, key)?;
    Ok(())
}

/// Appends a line of a word and a call's number.
pub fn put_lone(out: &mut Vec<u8>, name: &str, call: u64) -> Result<(), AllocError>
    ensures { OnOk result (out.new.items ≡ out.old.items ++ lone_text name.now call) }
{
    put_pieces(
        out,
        &[Piece::Text(name), Piece::Text(" "), Piece::Number(call)],
    )
}

/// Appends a line of a word, a call's number and a code.
pub fn put_coded(out: &mut Vec<u8>, name: &str, call: u64, code: u32) -> Result<(), AllocError>
    ensures { OnOk result (out.new.items ≡ out.old.items ++ coded_text name.now call code) }
{
    put_pieces(
        out,
        &[
            Piece::Text(name),
            Piece::Text(" "),
            Piece::Number(call),
            Piece::Text(" "),
            Piece::Number(code as u64),
        ],
    )
}

/// Appends the answer of a processor's loader, unless it is that of the store.
fn put_source(out: &mut Vec<u8>, load: &LoadSource) -> Result<(), AllocError>
    ensures { OnOk result (out.new.items ≡ out.old.items ++ spaced (source_words load.now)) }
{
    match load {
        LoadSource::Store => Ok(()),
        LoadSource::Stated(value) => put_pieces(
            out,
            &[Piece::Text(" loadsay="), Piece::ValueOrNone(value)],
        ),
        LoadSource::Failing(code) => put_pieces(
            out,
            &[Piece::Text(" loadfail="), Piece::Number(*code as u64)],
        ),
    }
}

/// Appends a call on an entry.
fn put_entry_call(out: &mut Vec<u8>, call: &EntryCall) -> Result<(), AllocError>
    ensures { OnOk result (out.new.items ≡ out.old.items ++ spaced (call_text call.now ∷ [])) }
{
    match call {
        EntryCall::GetValue => put(out, " get"),
        EntryCall::Exists => put(out, " exists"),
        EntryCall::Remove => put(out, " remove"),
        EntryCall::SetValue(value) => {
            put_pieces(out, &[Piece::Text(" set="), Piece::Value(value)])
        }
    }
}

/// Appends the calls on an entry.
fn put_entry_calls(out: &mut Vec<u8>, calls: &[EntryCall]) -> Result<(), AllocError>
    ensures { OnOk result (out.new.items ≡ out.old.items ++ spaced (map call_text calls.now)) }
{
    for call in calls {
        put_entry_call(out, call)?;
    }
    Ok(())
}

/// Appends the code with which a processor fails, if it fails.
fn put_fail(out: &mut Vec<u8>, fail: Option<u32>) -> Result<(), AllocError>
    ensures { OnOk result (out.new.items ≡ out.old.items ++ spaced (fail_words fail)) }
{
    match fail {
        None => Ok(()),
        Some(code) => put_pieces(out, &[Piece::Text(" fail="), Piece::Number(code as u64)]),
    }
}

/// Appends the line of a processor's run.
pub fn put_process(
    out: &mut Vec<u8>,
    call: u64,
    load: &LoadSource,
    calls: &[EntryCall],
    fail: Option<u32>,
) -> Result<(), AllocError>
    ensures { OnOk result (out.new.items ≡ out.old.items
        ++ spelling (line.OfCall call (act.Process load.now calls.now fail))) }
{
    put_lone(out, "process", call)?;
    put_source(out, load)?;
    put_entry_calls(out, calls)?;
    put_fail(out, fail)?;
    Ok(())
}
