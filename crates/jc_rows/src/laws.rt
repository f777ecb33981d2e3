//! The law of the rows. The function does nothing: its contract is the law.
ghost use Rattle.jc_rows.specs.Rows.{IsTable};

/// The four columns of `jc_model`'s table, for every operation, entry and outside answer, are those of the operation's row (JSR
/// 107, "Integration", and the Javadoc of `javax.cache.Cache`). A fault leaves the entry and is the reply.
pub fn table_is_rows()
    ensures { IsTable }
{}
