//! One process: the contexts that it holds, as they come and go, with their fields, and what it does with its
//! own actions and with the bundles that it takes. Each call gives what the rules of `protocol` give of the
//! answers before it. A process shows its write at once, and knows by epochs alone which field of a bundle is
//! older than its own write. Nothing here knows a journal or a link.
#![tactic(auto)]

mod acts;
mod content;
mod contexts;
mod held;
mod hold;
mod moved;
mod starts;
mod takes;

pub use content::Content;
pub use moved::Moved;

fn crosses<T: Send + Sync>() {}

// The types of this crate may go to another thread, and be shared.
fn types_cross() {
    crosses::<Content>();
    crosses::<Moved>();
}
