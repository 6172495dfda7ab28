//! Tests of the command of `pocket`, which need more than one crate, and no code: so pocket_cmd is proved once.
#![tactic(auto)]

#[cfg(test)]
mod tests;
