//! Each use of the crate `uses`, run.
#![tactic(auto)]

#[cfg(test)]
mod tests;
