//! Tests of the crates below the command, by their public calls, and no code: so each of these crates is proved once.
#![tactic(auto)]

#[cfg(test)]
mod tests;
