//! Laws about verdicts and records, for provers. None of these functions does anything.
ghost use Rattle.jc_check.specs.Laws.{ClosedNodesForesee, ClosedNodesRefute, LegalIsExplained, LegalIsRecorded, WholeIsExplained, WholeNodesExplain};

/// No order explains a record of which some nodes are closed.
pub fn closed_nodes_refute()
    ensures { ClosedNodesRefute }
{}

/// Turns that lead from the opening to a whole node explain a record.
pub fn whole_nodes_explain()
    ensures { WholeNodesExplain }
{}

/// What is recorded of a legal history at a key is explained, by the rules that judge the cache alone.
pub fn legal_is_explained()
    ensures { LegalIsExplained }
{}

/// What is recorded of a legal history over all stripes at a key is explained, too.
pub fn whole_is_explained()
    ensures { WholeIsExplained }
{}

/// A legal history has a record at each key, unless a processor whose load failed has an effect.
pub fn legal_is_recorded()
    ensures { LegalIsRecorded }
{}

/// What is there when it is a call's turn is among what is at the closed nodes at which it is.
pub fn closed_nodes_foresee()
    ensures { ClosedNodesForesee }
{}
