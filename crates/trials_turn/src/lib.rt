//! Trials of a turn, whose threads share a counter: each gets its turns, and a waiter sleeps.
#![tactic(auto)]

#[cfg(test)]
mod tests;
