//! Sessions, a list at a time.
ghost use Rattle.std.specs.Prelude.{◌≡◌, IfOk, IfErr};
ghost use Rattle.jc_cache.specs.Enlisting.{AreGivenOut, IsNotEnlisted};

use crate::owner::CacheOwner;
use jc_outside::Outside;
use jc_session::Session;
use jc_types::Refusal;
use std::alloc::Global;

impl CacheOwner {
    /// Gives out a session for each of these, in their order, as [`CacheOwner::session`] does.
    ///
    /// An `Err` says why there is no further one: `TooManySessions`, `NoLoader`, `NoWriter` or `OutOfMemory`. Then the sessions
    /// that were made and all boxes are dropped, and only [`CacheOwner::end`] can end the cache.
    pub fn enlist_all(
        &mut self,
        alloc: Global,
        outside: Vec<Outside>,
    ) -> Result<Vec<Session>, Refusal>
        ensures cache { self.new.cache ≡ self.old.cache }
        ensures ok { IfOk result (λ s. AreGivenOut self.old self.new outside.items s.items) }
        ensures err { IfErr result (λ r. IsNotEnlisted self.old self.new outside.items r) }
    {
        let Ok(mut sessions) = Vec::with_capacity(alloc, outside.len()) else {
            return Err(Refusal::OutOfMemory);
        };
        for brought in outside {
            let Outside { loader, writer } = brought;
            match self.session(alloc, loader, writer) {
                Ok(session) => sessions.push_reserved(session),
                Err(fault) => return Err(fault.refusal),
            }
        }
        Ok(sessions)
    }
}
