//! Call numbers that a session passes over.
ghost use Rattle.std.specs.Prelude.{◌≡◌, max};
ghost use Rattle.jc_session.specs.Counting.{one_more, call_before};
ghost use Rattle.jc_cache.specs.Sessions.{IsOf, MayCall};

use crate::cache::Cache;
use jc_session::Session;

impl Cache {
    /// Raises the number of the session's next call to `n`, as [`Session::skip_to`] does. The session is still of the cache, and
    /// may call it if it could before.
    ///
    /// Condition: the session is one of this cache's.
    pub fn skip_to(&self, session: &mut Session, n: u64)
        requires own { IsOf self.now session.old }
        ensures next { one_more session.new.agent.caller.call ≡ max (one_more session.old.agent.caller.call) n }
        ensures call { session.new ≡ record session.old {
          agent = record session.old.agent {
            caller = record session.old.agent.caller { call = call_before session.old.agent.caller.call n };
          };
        } }
        ensures own { IsOf self.now session.new }
        ensures may { MayCall self.now session.old → MayCall self.now session.new }
    {
        session.skip_to(n);
    }
}
