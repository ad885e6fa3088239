//! Tests of the running rings. In one thread: complete calls of the two ends, and scripts whose ends are driven by single
//! steps. In two threads, relays: each test holds for every schedule, except the one that shows that the two sides run at the
//! same time.
#![tactic(auto)]

#[cfg(test)]
mod tests;
