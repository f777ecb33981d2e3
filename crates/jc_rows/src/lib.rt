//! The operation table of JSR 107 read by operation: a row for each says whom it asks, what it leaves and what it replies. It is for
//! readers; no other crate uses it.
//!
//! `jc_model` has the table by column, since a phase needs a column: whom to ask, before anything is answered; the entry and the
//! reply, once it is. The law [`laws::table_is_rows`] says that both are the same.
#![tactic(auto)]

pub mod laws;
