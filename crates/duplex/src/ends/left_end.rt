//! What the left end does while the ends are apart.
ghost use Rattle.std.specs.Prelude.{◌≡◌, ◌+◌, ◌-◌, ◌^◌, ◌<◌, ◌≤◌};
ghost use Rattle.std.specs.Prelude.{[], ◌∷◌, ◌++◌, length, IfSome, MatchOption, MatchResult};
ghost use Rattle.duplex.specs.Ends.{left_sent, left_taken_loads, left_taken_seen, left_cap};
ghost use Rattle.duplex.specs.Ends.{left_taken, left_sent_loads, left_sent_seen};
ghost use Rattle.duplex.specs.Ends.{IsSameLeft, LeftTookNothing, LeftSentNothing};

use super::{Full, Left};
use crate::lane::Stamped;
use crate::steps::{send_down, take_up};

impl<D: Stamped, U: Stamped> Left<D, U> {
    /// Sends an item behind those that were sent before. Where `cap` items wait by what the peer has taken,
    /// it comes back with that number, and nothing was sent. It loads the number once, and waits for nothing.
    pub fn send(&mut self, item: D) -> Result<(), Full<D>>
        requires { length (left_sent self.old) < 2 ^ 64 - 1 }
        ensures load { left_taken_loads self.new ≡ left_taken_loads self.old + 1 }
        ensures sent { MatchResult result
            (λ _. left_sent self.new ≡ left_sent self.old ++ item ∷ [])
            (λ full. (full.item ≡ item) × (left_sent self.new ≡ left_sent self.old)) }
        ensures full { MatchResult result
            (λ _. length (left_sent self.old) < left_taken_seen self.new + left_cap self.old)
            (λ full. (full.taken_seen ≡ left_taken_seen self.new)
            × (length (left_sent self.old) ≡ full.taken_seen + left_cap self.old)) }
        ensures same { IsSameLeft self.old self.new }
        ensures took { LeftTookNothing self.old self.new }
    {
        let result = send_down(
            &self.board.shared,
            &mut self.seat,
            self.cap,
            self.sent,
            item,
        );
        if result.is_ok() {
            self.sent += 1;
        }
        result
    }

    /// Takes the item that waited longest, or None where the peer has sent no more than this end has taken.
    /// It loads the number of those sent once, and waits for nothing.
    pub fn take(&mut self) -> Option<U>
        ensures load { left_sent_loads self.new ≡ left_sent_loads self.old + 1 }
        ensures taken { MatchOption result
            (left_taken self.new ≡ left_taken self.old)
            (λ item. left_taken self.new ≡ left_taken self.old ++ item ∷ []) }
        ensures none { MatchOption result
            (left_sent_seen self.new ≡ length (left_taken self.old))
            (λ _. length (left_taken self.old) < left_sent_seen self.new) }
        ensures stamp { IfSome result (λ item. U.stamp_of item ≤ length (left_sent self.old)) }
        ensures same { IsSameLeft self.old self.new }
        ensures sent { LeftSentNothing self.old self.new }
    {
        let result = take_up(&self.board.shared, &mut self.seat, self.cap, self.taken);
        if result.is_some() {
            self.taken += 1;
        }
        result
    }

    /// How many items this end has sent.
    pub fn sent(&self) -> u64
        ensures { result ≡ length (left_sent self.now) }
    {
        self.sent
    }

    /// How many items this end has taken.
    pub fn taken(&self) -> u64
        ensures { result ≡ length (left_taken self.now) }
    {
        self.taken
    }
}
