//! A run: the parent, the processes, the links between them, and the journal of what was done. Each step is
//! one call of one side, and settling delivers all that waits. Promised upward is that a world stands for its
//! journal: what each side answers, and what waits, is what the model tells by looking back. Nothing here
//! judges a write or knows an epoch.
#![tactic(auto)]

mod deliver;
mod settle;
mod sides;
mod start;
mod step;
mod world;

pub use world::World;

fn crosses<T: Send>() {}

// A world may go to another thread.
fn world_crosses() {
    crosses::<World>();
}
