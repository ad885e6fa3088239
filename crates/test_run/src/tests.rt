//! Tests of the rings of two threads: `ring_seats`, `ring_ends`, `ring_held`, `ring_run`.

mod both_sides;
mod calls;
mod expects;
mod gates;
mod growths;
mod held;
mod limits;
mod observed;
mod oracles;
mod recordings;
mod relay_growths;
mod room;
mod scripts;
mod steps;
mod stops;
