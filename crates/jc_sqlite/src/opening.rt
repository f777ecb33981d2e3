//! How a file is opened: with its table, and in several tries if it is locked.
ghost use Rattle.std.specs.Prelude.{IfOk, OnOk};
ghost use Rattle.sqlite.specs.State.{HasCleanDisk};
ghost use Rattle.sqlite.specs.Held.{state};
ghost use Rattle.jc_sqlite.specs.Opening.{HasOwn, HasOwnTable, OpensInTurns};

use crate::failure::OpenCause;
use crate::table;
use sqlite::{Alter, Connection, File, FileStore};
use std::thread;
use std::time::Duration;

/// Options for opening a file that another program may have open.
#[derive(Clone, Copy, Debug, PartialEq, Eq)]
pub struct OpenOptions {
    /// How often a locked file is tried again. With 0 the first answer is returned at once.
    pub retries: u32,
    /// How long it sleeps before each further try.
    pub pause: Duration,
}

impl OpenOptions {
    /// A file that is locked isn't tried again.
    pub const ONCE: OpenOptions = OpenOptions {
        retries: 0,
        pause: Duration::ZERO,
    };
}

/// A thing that is to be opened, and may be locked.
pub(crate) trait Opening {
    ghost use Rattle.std.specs.Prelude.{Result};
    ghost use Rattle.jc_sqlite.specs.declared.failure.OpenCause.{OpenCause as Cause};

    /// The type of the thing once it is open.
    type Opened;

    /// One try, and its answer.
    ghost opens: { Self → Result Self.Opened Cause → Self → Type 0 };

    /// One pause between two tries.
    ghost pauses: { Self → Self → Type 0 };

    /// Tries it once.
    fn open(&mut self) -> Result<Self::Opened, OpenCause>
        ensures { opens self.old result self.new };

    /// Lets some time go by.
    fn pause(&mut self)
        ensures { pauses self.old self.new };
}

/// Tries it until it isn't locked, at most `retries` times again, with a pause between two tries. It returns what the last try
/// does.
pub(crate) fn open_in_turns<O: Opening>(
    opening: &mut O,
    retries: u32,
) -> Result<O::Opened, OpenCause>
    ensures { OpensInTurns O.opens O.pauses retries opening.old result opening.new }
{
    for _ in 0..retries {
        match opening.open() {
            Ok(opened) => return Ok(opened),
            Err(OpenCause::Locked) => opening.pause(),
            Err(OpenCause::OtherTable) => return Err(OpenCause::OtherTable),
            Err(OpenCause::Failed(error)) => return Err(OpenCause::Failed(error)),
        }
    }
    opening.open()
}

/// A file with its table.
#[derive(Drop)]
struct FileOpening<'a> {
    rt: &'a HostRuntime,
    path: &'a str,
    pause: Duration,
}

impl Opening for FileOpening<'_> {
    ghost use Rattle.std.specs.Prelude.{IfOk};
    ghost use Rattle.jc_sqlite.specs.Opening.{HasOwnTable};

    type Opened = Connection<FileStore<File>>;

    ghost opens = { λ old answer new. IfOk answer HasOwnTable };

    ghost pauses = { λ old new. Unit {0} };

    fn open(&mut self) -> Result<Connection<FileStore<File>>, OpenCause> {
        open_once(self.rt, self.path)
    }

    fn pause(&mut self) {
        thread::sleep(self.rt, self.pause)
    }
}

/// Opens a file, or makes it, and makes the table if it isn't there.
pub(crate) fn open_file(
    rt: &HostRuntime,
    path: &str,
    options: &OpenOptions,
) -> Result<Connection<FileStore<File>>, OpenCause>
    ensures { IfOk result HasOwnTable }
{
    let mut opening = FileOpening {
        rt,
        path,
        pause: options.pause,
    };
    open_in_turns(&mut opening, options.retries)
}

fn open_once(rt: &HostRuntime, path: &str) -> Result<Connection<FileStore<File>>, OpenCause>
    ensures { IfOk result HasOwnTable }
{
    let mut connection = Connection::open(rt, path)?;
    match make_own(&mut connection) {
        Ok(()) => Ok(connection),
        Err(cause) => Err(cause),
    }
}

/// Makes the table if it isn't there, and tests whether it is its own.
fn make_own<S: Alter>(conn: &mut Connection<S>) -> Result<(), OpenCause>
    ensures { HasCleanDisk (state S.Store conn.new) → OnOk result (HasOwn S.Store conn.new) }
{
    table::create(conn)?;
    if table::is_own(conn)? {
        Ok(())
    } else {
        Err(OpenCause::OtherTable)
    }
}
