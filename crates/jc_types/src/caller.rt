//! Callers.
ghost use Rattle.std.specs.Prelude.{◌≡◌};
ghost use Rattle.jc_types.specs.Limits.{is_session};

use crate::limits::SESSIONS_MAX;

/// A caller: a session, and the number of its call.
#[derive(Clone, Copy, Debug, PartialEq, Eq)]
pub struct Caller {
    /// The session. In a script it is from 1 to [`SESSIONS_MAX`](crate::limits::SESSIONS_MAX).
    pub session: u32,
    /// The number of the call. A session's numbers rise from call to call; the keys of a bulk call share one.
    pub call: u64,
}

/// Whether a number is that of a session of a script: from 1 to [`SESSIONS_MAX`].
pub fn is_session(session: u32) -> bool
    ensures { result ≡ is_session session }
{
    1 <= session && session <= SESSIONS_MAX
}
