//! Batches: a statement for each entry, or for each key, in one transaction.
ghost use Rattle.std.specs.Prelude.{◌≡◌, map, IsTrue};
ghost use Rattle.sqlite.specs.State.{HasCleanDisk, Survives, ExecutesInside};
ghost use Rattle.sqlite.specs.Held.{state};
ghost use Rattle.jc_sqlite.specs.Batch.{RunsAsOne};
ghost use Rattle.jc_sqlite.specs.Statements.{entry_row, key_row};

use indexmap::{IndexMap, IndexSet};
use jc_types::{Key, Value};
use sqlite::{Alter, Connection, Error, ErrorCode, Transaction, params};

/// A transaction is open already. No function of this crate leaves one open.
const IN_TRANSACTION: Error = Error::SqliteFailure(ErrorCode::TransactionState);

/// Runs a statement with the key and the value of each entry, for all of them or for none.
pub(crate) fn execute_entries<S: Alter>(
    conn: &mut Connection<S>,
    sql: &str,
    entries: &IndexMap<Key, Value>,
) -> Result<(), Error>
    ensures { RunsAsOne S.Store sql.now (map entry_row entries.now.entries) conn.old conn.new result }
{
    if !conn.is_autocommit() {
        return Err(IN_TRANSACTION);
    }
    let mut transaction = conn.transaction();
    for (key, value) in entries.iter() {
        execute_entry(&mut transaction, sql, key, value)?;
    }
    transaction.commit()
}

/// Runs a statement with each key, for all of them or for none.
pub(crate) fn execute_keys<S: Alter>(
    conn: &mut Connection<S>,
    sql: &str,
    keys: &IndexSet<Key>,
) -> Result<(), Error>
    ensures { RunsAsOne S.Store sql.now (map key_row keys.now.keys) conn.old conn.new result }
{
    if !conn.is_autocommit() {
        return Err(IN_TRANSACTION);
    }
    let mut transaction = conn.transaction();
    for key in keys.iter() {
        execute_key(&mut transaction, sql, key)?;
    }
    transaction.commit()
}

/// Runs a statement with a key and a value inside a transaction.
fn execute_entry<S: Alter>(
    transaction: &mut Transaction<'_, S>,
    sql: &str,
    key: &Key,
    value: &Value,
) -> Result<usize, Error>
    ensures same { transaction.new.conn.ghost_name ≡ transaction.old.conn.ghost_name }
    ensures runs { HasCleanDisk (state S.Store transaction.new.conn.now) → IsTrue (state S.Store transaction.old.conn.now).in_transaction
        → ExecutesInside 0 sql.now (entry_row (key.now, value.now)) (state S.Store transaction.old.conn.now) (state S.Store transaction.new.conn.now) result }
    ensures survives { Survives (state S.Store transaction.old.conn.now) (state S.Store transaction.new.conn.now) (λ _. ⊥) }
{
    transaction.execute(sql, params![key.bytes(), value.bytes()])
}

/// Runs a statement with a key inside a transaction.
fn execute_key<S: Alter>(
    transaction: &mut Transaction<'_, S>,
    sql: &str,
    key: &Key,
) -> Result<usize, Error>
    ensures same { transaction.new.conn.ghost_name ≡ transaction.old.conn.ghost_name }
    ensures runs { HasCleanDisk (state S.Store transaction.new.conn.now) → IsTrue (state S.Store transaction.old.conn.now).in_transaction
        → ExecutesInside 0 sql.now (key_row key.now) (state S.Store transaction.old.conn.now) (state S.Store transaction.new.conn.now) result }
    ensures survives { Survives (state S.Store transaction.old.conn.now) (state S.Store transaction.new.conn.now) (λ _. ⊥) }
{
    transaction.execute(sql, params![key.bytes()])
}
