//! Tests of the auditor of histories of calls, and of the reader of recordings.
#![tactic(auto)]

#[cfg(test)]
mod tests;
