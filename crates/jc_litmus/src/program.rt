//! Programs of threads, as read from text: the items of the threads, and the author's expectations of the outcomes.
ghost use Rattle.std.specs.Prelude.{◌≡◌};
ghost use Rattle.jc_litmus.specs.LineFaults.{line_fault_text};

use jc_explore::Program;
use jc_model::Reply;
use jc_text::fault::{Fault, text};
use jc_types::{Key, Value};

/// The most threads of a program.
pub const THREADS_MAX: usize = 8;

/// The most items of a program, of all its threads together.
pub const ITEMS_MAX: usize = 32;

/// A program, and its author's expectations of the outcomes.
#[derive(Drop)]
pub struct Litmus {
    /// The program.
    pub program: Program,
    /// The expectations, in the order of their lines.
    pub expectations: Vec<Expectation>,
}

/// The number of outcomes that an expectation is about.
#[derive(Clone, Copy, Debug, PartialEq, Eq)]
pub enum Quantifier {
    /// No outcome has all the atoms.
    Never,
    /// Some outcome has all the atoms.
    Sometimes,
    /// Each outcome has all the atoms.
    Always,
}

/// A statement about an outcome.
#[derive(Clone, Copy, Debug, PartialEq, Eq)]
pub enum Atom {
    /// A thread's call was answered with this reply.
    Replied {
        /// The thread, from 0.
        thread: usize,
        /// The place of the call among the thread's calls, from 0. Writes of another program and invalidations are items, and no
        /// calls.
        call: usize,
        /// The reply.
        reply: Reply,
    },
    /// The cache has this value, or none, at a key.
    Cached {
        /// The key.
        key: Key,
        /// Its value, or none if there is no entry.
        value: Option<Value>,
    },
    /// The store has this value, or none, at a key.
    Stored {
        /// The key.
        key: Key,
        /// Its value, or none if there is no entry.
        value: Option<Value>,
    },
    /// No key differs in the cache and the store.
    Coherent,
    /// Some key differs in the cache and the store.
    Differs,
}

/// An expectation of a program's author about the outcomes.
#[derive(Drop)]
pub struct Expectation {
    /// The number of outcomes that it is about.
    pub quantifier: Quantifier,
    /// The atoms: such an outcome has all of them.
    pub atoms: Vec<Atom>,
    /// The line as it was written.
    pub text: Vec<u8>,
}

/// Why a line of a program isn't read.
#[derive(Clone, Copy, Debug, PartialEq, Eq)]
pub enum LineFault {
    /// The line would be at fault in a script, too.
    Script(Fault),
    /// An item is above the first thread.
    NoThread,
    /// There are more threads than [`THREADS_MAX`].
    TooManyThreads,
    /// There are more items than [`ITEMS_MAX`].
    TooManyItems,
    /// A word that should be a reply is none.
    BadReply,
    /// An expectation names a call that isn't above it.
    NoSuchItem,
    /// The line may occur only in scripts.
    NotACall,
}

impl LineFault {
    /// The words of a fault.
    pub fn text(self) -> &'static str
        ensures { result.now ≡ line_fault_text self }
    {
        match self {
            LineFault::Script(fault) => text(fault),
            LineFault::NoThread => "no thread",
            LineFault::TooManyThreads => "too many threads",
            LineFault::TooManyItems => "too many items",
            LineFault::BadReply => "bad reply",
            LineFault::NoSuchItem => "no such item",
            LineFault::NotACall => "not a call",
        }
    }
}

/// Why a program isn't read.
#[derive(Clone, Copy, Debug, PartialEq, Eq)]
pub enum ProgramFault {
    /// An allocation failed.
    OutOfMemory,
    /// The line with this number is the first with a fault. The first line of a program is 1.
    Line(u64, LineFault),
}
