//! The table of keys and values, `entry`, and its statements. Each function is lent a connection: that of a
//! [`Database`](crate::Database), or one of your own.
//!
//! - [`create`] makes the table, and [`is_own`] tells whether `entry` is this table.
//! - [`load`], [`load_all`] and [`entry_count`] read it.
//! - [`write`] and [`delete`] change one entry by one statement.
//! - [`write_all`] and [`delete_all`] change many entries in a transaction of their own.
//!
//! The contracts name each statement and its parameters, and state its effect in the words of `sqlite`. Those about the table's
//! content hold under `HasCleanDisk`: as long as the disk has returned what was written to it. An `Err` is SQLite's error, which
//! [`code_of`](crate::code::code_of) maps to the code that a loader or a writer returns. Whatever the outcome, the connection's
//! limit on steps is as it was.
ghost use Rattle.std.specs.Prelude.{◌≡◌, ◌≢◌, ℕ, false, IsTrue, List, [], map, Contains, Some, IsSomeAnd, IfOk, IfErr, OnOk, OnErr};
ghost use Rattle.sqlite.specs.declared.types.Value.TheVariants.{Blob};
ghost use Rattle.sqlite.specs.Order.{column};
ghost use Rattle.sqlite.specs.Values.{bound};
ghost use Rattle.sqlite.specs.State.{HasCleanDisk, Survives, CommitsBy, CommitsShowing, FailsToQuery, Shown};
ghost use Rattle.sqlite.specs.Batch.{ExecutesAll};
ghost use Rattle.sqlite.specs.Held.{state};
ghost use Rattle.jc_sqlite.specs.Batch.{RunsAsOne};
ghost use Rattle.jc_sqlite.specs.Statements.{create_sql, schema_sql, count_sql, load_sql, write_sql, delete_sql, entry_row, key_row};
ghost use Rattle.jc_sqlite.specs.Statements.{TellsOwn, IsOwn, IsOwnText, ExecutesOnce, Counts, IsCount, row_error, ReadsValue, IsInFirst, Loads, LoadsInto, LoadsAll, CommitsLoading};

use crate::batch;
use crate::failure::Failure;
use indexmap::{IndexMap, IndexSet};
use jc_outside::Answers;
use jc_types::{Key, Value};
use sqlite::types::{Type, ValueRef};
use sqlite::{Alter, Connection, Error, ErrorCode, Row, params};

const CREATE: &str =
    "CREATE TABLE IF NOT EXISTS entry (key BLOB PRIMARY KEY NOT NULL, value BLOB NOT NULL) STRICT";

/// The table's text as `sqlite3` keeps it after it has run [`CREATE`].
const KEPT: &str = "CREATE TABLE entry (key BLOB PRIMARY KEY NOT NULL, value BLOB NOT NULL) STRICT";

const SCHEMA: &str = "SELECT sql FROM sqlite_schema WHERE tbl_name = 'entry' AND type <> 'index'";

const COUNT: &str = "SELECT count(*) FROM entry";

const LOAD: &str = "SELECT value FROM entry WHERE key = ?1";

const WRITE: &str =
    "INSERT INTO entry (key, value) VALUES (?1, ?2) ON CONFLICT (key) DO UPDATE SET value = excluded.value";

const DELETE: &str = "DELETE FROM entry WHERE key = ?1";

/// The bytes of a row are too many for a value of a cache.
const NO_VALUE: Error = Error::SqliteFailure(ErrorCode::TooBig);

/// Makes the table, if it isn't there, by one `CREATE TABLE IF NOT EXISTS`. Its columns are `key` and `value`, both `BLOB NOT
/// NULL`, and `key` is its primary key; it is `STRICT`.
///
/// A table named `entry` that is there already stays as it is, whatever its columns: [`is_own`] tells whether it is this one. An
/// `Err` is that of the statement, for example that the file can't be written.
pub fn create<S: Alter>(conn: &mut Connection<S>) -> Result<(), Error>
    ensures runs { HasCleanDisk (state S.Store conn.new) → ExecutesAll S.Store create_sql conn.old conn.new result }
    ensures clean { HasCleanDisk (state S.Store conn.new) → HasCleanDisk (state S.Store conn.old) }
    ensures limit { conn.new.step_limit ≡ conn.old.step_limit }
    ensures shield { (state S.Store conn.old).IsShielded → (state S.Store conn.new).IsShielded }
{
    conn.execute_batch(CREATE)
}

/// Whether `entry` is the table that [`create`] makes, with no trigger on it. It compares the text in the schema, in which `IF
/// NOT EXISTS` may be missing, since `sqlite3` leaves it out.
///
/// The table stays as it is. An `Err` is that of the query.
pub fn is_own<S: Alter>(conn: &mut Connection<S>) -> Result<bool, Error>
    ensures own { HasCleanDisk (state S.Store conn.new)
        → TellsOwn (state S.Store conn.old) (state S.Store conn.new) result }
    ensures survives { Survives (state S.Store conn.old) (state S.Store conn.new)
        (CommitsShowing schema_sql [] (state S.Store conn.old)) }
{
    match conn.query_all(SCHEMA, &[]) {
        Ok(rows) => Ok(is_own_row(rows.as_slice())),
        Err(error) => Err(error),
    }
}

/// Whether the table's row is the one row that the schema shows.
fn is_own_row(rows: &[Row]) -> bool
    ensures own { IsTrue result → IsOwn rows.now }
    ensures other { result ≡ false → ¬ IsOwn rows.now }
{
    if rows.len() != 1 {
        return false;
    }
    match rows[0].get_ref(0) {
        Ok(ValueRef::Text(text)) => is_own_text(text),
        _ => false,
    }
}

/// Whether this is the table's text.
fn is_own_text(text: &[u8]) -> bool
    ensures own { IsTrue result → IsOwnText text.now }
    ensures other { result ≡ false → ¬ IsOwnText text.now }
{
    is_text(text, CREATE) || is_text(text, KEPT)
}

fn is_text(text: &[u8], wanted: &str) -> bool
    ensures same { IsTrue result → text.now ≡ wanted.now }
    ensures other { result ≡ false → text.now ≢ wanted.now }
{
    text == wanted.as_bytes()
}

/// The number of entries in the table, by a count of its rows.
///
/// The table stays as it is. An `Err` is that of the query, or says that its row has no number.
pub fn entry_count<S: Alter>(conn: &mut Connection<S>) -> Result<u64, Error>
    ensures counts { HasCleanDisk (state S.Store conn.new)
        → Counts (state S.Store conn.old) (state S.Store conn.new) result }
    ensures survives { Survives (state S.Store conn.old) (state S.Store conn.new)
        (CommitsShowing count_sql [] (state S.Store conn.old)) }
{
    count_in(&conn.query_row(COUNT, &[])?)
}

/// The number in the one column of a row.
fn count_in(row: &Row) -> Result<u64, Error>
    ensures { IsCount row.now result }
{
    row.get(0)
}

/// The value at a key, or none (`load`): that of the first row that the query shows.
///
/// The table stays as it is. An `Err` is that of the query, or says that the row has no value of a cache: `TooBig` if it has more
/// bytes than a value may have, `InvalidColumnType` if it is no blob.
pub fn load<S: Alter>(conn: &mut Connection<S>, key: &Key) -> Result<Option<Value>, Error>
    ensures loads { HasCleanDisk (state S.Store conn.new) → Loads key.now (state S.Store conn.old) (state S.Store conn.new) result }
    ensures survives { Survives (state S.Store conn.old) (state S.Store conn.new)
        (CommitsShowing load_sql (key_row key.now) (state S.Store conn.old)) }
{
    let rows = rows_at(conn, key)?;
    first_value(rows.as_slice())
}

/// The rows at a key: one or none, since keys are unique.
fn rows_at<S: Alter>(conn: &mut Connection<S>, key: &Key) -> Result<Vec<Row>, Error>
    ensures rows { HasCleanDisk (state S.Store conn.new)
        → IfOk result (λ rows. Shown load_sql (key_row key.now) (state S.Store conn.old) (state S.Store conn.new) rows.items) }
    ensures cause { HasCleanDisk (state S.Store conn.new)
        → IfErr result (FailsToQuery load_sql (key_row key.now) (state S.Store conn.old) (state S.Store conn.new)) }
    ensures survives { Survives (state S.Store conn.old) (state S.Store conn.new)
        (CommitsShowing load_sql (key_row key.now) (state S.Store conn.old)) }
{
    conn.query_all(LOAD, params![key.bytes()])
}

/// The value in the first of these rows, or none if there is no row.
fn first_value(rows: &[Row]) -> Result<Option<Value>, Error>
    ensures { IsInFirst rows.now result }
{
    match rows.first() {
        Some(row) => Ok(Some(value_in(row)?)),
        None => Ok(None),
    }
}

/// Puts the values at these keys into the answers, by one [`load`] for each key, in their order. A key without an entry gets no
/// answer. The table stays as it is.
///
/// An `Err` is that of the first load that failed, and names its key. The answers then have the values of the keys before it.
pub fn load_all<S: Alter>(
    conn: &mut Connection<S>,
    keys: &[Key],
    answers: &mut Answers,
) -> Result<(), Failure>
    ensures loads { HasCleanDisk (state S.Store conn.new)
        → LoadsAll S.Store keys.now conn.old conn.new answers.old.by_key answers.new.by_key result }
    ensures room { answers.new.room ≡ answers.old.room }
    ensures named { IfErr result (λ failure. IsSomeAnd failure.key (Contains keys.now)) }
    ensures survives { Survives (state S.Store conn.old) (state S.Store conn.new)
        (CommitsLoading S.Store keys.now) }
{
    for key in keys {
        load_into(conn, key, answers)?;
    }
    Ok(())
}

/// Puts the value at a key into the answers, if there is one.
fn load_into<S: Alter>(
    conn: &mut Connection<S>,
    key: &Key,
    answers: &mut Answers,
) -> Result<(), Failure>
    ensures loads { HasCleanDisk (state S.Store conn.new)
        → LoadsInto key.now (state S.Store conn.old) (state S.Store conn.new) answers.old.by_key answers.new.by_key result }
    ensures room { answers.new.room ≡ answers.old.room }
    ensures named { IfErr result (λ failure. failure.key ≡ Some key.now) }
    ensures survives { Survives (state S.Store conn.old) (state S.Store conn.new)
        (CommitsShowing load_sql (key_row key.now) (state S.Store conn.old)) }
{
    match load(conn, key) {
        Ok(found) => {
            answers.put_found(key, &found);
            Ok(())
        }
        Err(error) => Err(Failure {
            key: Some(*key),
            error,
        }),
    }
}

/// The value in the one column of a row.
fn value_in(row: &Row) -> Result<Value, Error>
    ensures { ReadsValue row.now result }
{
    match Value::new(bytes_in(row)?) {
        Ok(value) => Ok(value),
        Err(_) => Err(NO_VALUE),
    }
}

/// The bytes in the one column of a row.
fn bytes_in(row: &Row) -> Result<&[u8], Error>
    ensures bytes { IfOk result (λ bytes. column row.now 0 ≡ Blob bytes.now) }
    ensures kind { OnErr result ((bytes : List ℕ) → column row.now 0 ≢ Blob bytes) }
    ensures cause { IfErr result (λ e. e ≡ row_error row.now) }
{
    match row.get_ref(0)? {
        ValueRef::Blob(bytes) => Ok(bytes),
        other => Err(Error::InvalidColumnType(0, Type::of(other))),
    }
}

/// Writes an entry by one statement: it inserts the entry, or replaces its value.
///
/// After an `Err`, if the connection is still open, the table is as it was, or the transaction that was open is rolled back.
pub fn write<S: Alter>(conn: &mut Connection<S>, key: &Key, value: &Value) -> Result<(), Error>
    ensures runs { HasCleanDisk (state S.Store conn.new)
        → ExecutesOnce write_sql (entry_row (key.now, value.now)) (state S.Store conn.old) (state S.Store conn.new) result }
    ensures survives { Survives (state S.Store conn.old) (state S.Store conn.new)
        (CommitsBy write_sql (entry_row (key.now, value.now)) (state S.Store conn.old)) }
{
    run_once(conn, WRITE, params![key.bytes(), value.bytes()])
}

/// Deletes the entry of a key by one statement, if there is one.
///
/// After an `Err`, if the connection is still open, the table is as it was, or the transaction that was open is rolled back.
pub fn delete<S: Alter>(conn: &mut Connection<S>, key: &Key) -> Result<(), Error>
    ensures runs { HasCleanDisk (state S.Store conn.new)
        → ExecutesOnce delete_sql (key_row key.now) (state S.Store conn.old) (state S.Store conn.new) result }
    ensures survives { Survives (state S.Store conn.old) (state S.Store conn.new)
        (CommitsBy delete_sql (key_row key.now) (state S.Store conn.old)) }
{
    run_once(conn, DELETE, params![key.bytes()])
}

/// Runs a statement that shows no rows.
fn run_once<S: Alter>(
    conn: &mut Connection<S>,
    sql: &str,
    given: &[ValueRef<'_>],
) -> Result<(), Error>
    ensures runs { HasCleanDisk (state S.Store conn.new)
        → ExecutesOnce sql.now (bound given.now) (state S.Store conn.old) (state S.Store conn.new) result }
    ensures survives { Survives (state S.Store conn.old) (state S.Store conn.new)
        (CommitsBy sql.now (bound given.now) (state S.Store conn.old)) }
{
    conn.execute(sql, given)?;
    Ok(())
}

/// Writes all entries in one transaction, or none (`writeAll`), and empties the collection once they are in the file.
///
/// After an `Ok` the collection is empty, and the statement ran for each entry, in their order. After an `Err` all entries are
/// left in it, and neither the table nor its last commit has changed, if the connection is still open. If a failure of the disk
/// shut the connection, or the machine stops at any moment, the file has the whole batch or nothing of it when it is opened
/// again.
///
/// An `Err` is that of a statement or of the commit, or `TransactionState` if a transaction was open before. Whatever the outcome,
/// a transaction is open afterwards only if one was open before.
pub fn write_all<S: Alter>(
    conn: &mut Connection<S>,
    entries: &mut IndexMap<Key, Value>,
) -> Result<(), Error>
    ensures written { OnOk result (entries.new.entries ≡ []) }
    ensures left { OnErr result (entries.new.entries ≡ entries.old.entries) }
    ensures batch { RunsAsOne S.Store write_sql (map entry_row entries.old.entries) conn.old conn.new result }
{
    batch::execute_entries(conn, WRITE, entries)?;
    entries.clear();
    Ok(())
}

/// Deletes the entries of all these keys in one transaction, or of none (`deleteAll`), and empties the collection once it is
/// done. The outcomes and the errors are those of [`write_all`].
pub fn delete_all<S: Alter>(conn: &mut Connection<S>, keys: &mut IndexSet<Key>) -> Result<(), Error>
    ensures deleted { OnOk result (keys.new.keys ≡ []) }
    ensures left { OnErr result (keys.new.keys ≡ keys.old.keys) }
    ensures batch { RunsAsOne S.Store delete_sql (map key_row keys.old.keys) conn.old conn.new result }
{
    batch::execute_keys(conn, DELETE, keys)?;
    keys.clear();
    Ok(())
}
