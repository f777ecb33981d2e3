//! Each call that allocates, made once.
//!
//! Nothing here refuses an allocation. `tools/library_allocations` does, one in each run, and reads the output: before each
//! call a line `> CALL`, after it a line `=`, and then a line `< END`. If no allocation fails, each call ends in `done`.
use jc_types::{Config, Key, Value};
use std::alloc::Global;
use std::fmt::Debug;
use std::process::Abort;

mod owners;
mod parts;
mod sessions;

/// One stripe, without a store.
const SHAPE: Config = Config {
    stripes: 1,
    capacity: 128,
    history: 400,
    read_through: false,
    write_through: false,
};

fn is<T: Copy + Debug + PartialEq>(rt: &impl Abort, found: T, want: T) {
    assert_eq!(rt; found, want);
}

/// Prints a line.
fn say(rt: &(impl Abort + Print), text: &str) {
    rt.println(text).ok().expect(rt, "output");
}

/// Prints the end of a call that leaves all as it was if an allocation fails.
fn say_whole(rt: &(impl Abort + Print), is_done: bool) {
    say(rt, if is_done { "< done" } else { "< refused whole" });
}

/// Prints the end of a call that drops its arguments if an allocation fails.
fn say_dropped(rt: &(impl Abort + Print), is_done: bool) {
    let end = if is_done {
        "< done"
    } else {
        "< refused, what it took is dropped"
    };
    say(rt, end);
}

/// The key and the value of each put.
fn key(rt: &impl Abort) -> Key {
    Key::new(b"a").expect(rt, "a key")
}

fn value(rt: &impl Abort) -> Value {
    Value::new(b"1").expect(rt, "a value")
}
