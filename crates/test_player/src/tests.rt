//! Tests of `ring_player`, `ring_script` and `near_misses`.

mod misses;
mod play_growths;
mod play_scripts;
mod play_stores;
mod plays;
mod refusals;
mod script_growths;
mod script_words;
mod scripts;
