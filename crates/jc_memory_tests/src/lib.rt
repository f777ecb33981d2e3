//! Tests of calls in which an allocation is refused: calls of the parts of a cache, of worlds, owners, sessions and clients. The crate has
//! nothing but tests.
#![tactic(auto)]

#[cfg(test)]
mod tests;
