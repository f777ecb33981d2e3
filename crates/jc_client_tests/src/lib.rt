//! Tests of clients: each of their calls once, and clients on threads of their own. The crate has nothing but tests.
#![tactic(auto)]

#[cfg(test)]
mod tests;
