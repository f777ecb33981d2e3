//! The laws of a cache's generations. Each function is empty: its contract is the law.
ghost use Rattle.jc_cache.specs.Generations.{GenerationsFollow};

/// If [`end_generation`](crate::Cache::end_generation) has returned a number for one generation of a stripe and the next number
/// for another one, the second one's events follow the first one's in the stripe's whole history, with nothing between. So an
/// archive in which no number is missing has every event.
pub fn generations_follow()
    ensures { GenerationsFollow }
{}
