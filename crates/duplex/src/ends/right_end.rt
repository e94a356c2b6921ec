//! What the right end does while the ends are apart.
ghost use Rattle.std.specs.Prelude.{◌≡◌, ◌+◌, ◌-◌, ◌^◌, ◌<◌, ◌≤◌};
ghost use Rattle.std.specs.Prelude.{[], ◌∷◌, ◌++◌, length, IfSome, MatchOption, MatchResult};
ghost use Rattle.duplex.specs.Ends.{right_sent, right_taken_loads, right_taken_seen, right_cap};
ghost use Rattle.duplex.specs.Ends.{right_taken, right_sent_loads, right_sent_seen};
ghost use Rattle.duplex.specs.Ends.{IsSameRight, RightTookNothing, RightSentNothing};

use super::{Full, Right};
use crate::lane::Stamped;
use crate::steps::{send_up, take_down};

impl<D: Stamped, U: Stamped> Right<D, U> {
    /// Sends an item behind those that were sent before; its stamp is at most what this end has taken. Where
    /// `cap` items wait by what the peer has taken, it comes back with that number, and nothing was sent. It
    /// loads that number once, and waits for nothing.
    pub fn send(&mut self, item: U) -> Result<(), Full<U>>
        requires room { length (right_sent self.old) < 2 ^ 64 - 1 }
        requires stamp { U.stamp_of item ≤ length (right_taken self.old) }
        ensures load { right_taken_loads self.new ≡ right_taken_loads self.old + 1 }
        ensures sent { MatchResult result
            (λ _. right_sent self.new ≡ right_sent self.old ++ item ∷ [])
            (λ full. (full.item ≡ item) × (right_sent self.new ≡ right_sent self.old)) }
        ensures full { MatchResult result
            (λ _. length (right_sent self.old) < right_taken_seen self.new + right_cap self.old)
            (λ full. (full.taken_seen ≡ right_taken_seen self.new)
            × (length (right_sent self.old) ≡ full.taken_seen + right_cap self.old)) }
        ensures same { IsSameRight self.old self.new }
        ensures took { RightTookNothing self.old self.new }
    {
        let result = send_up(
            &self.board.shared,
            &mut self.seat,
            self.cap,
            self.sent,
            item,
        );
        if result.is_ok() {
            self.sent += 1;
        }
        result
    }

    /// Takes the item that waited longest, or None where the peer has sent no more than this end has taken.
    /// It loads the number of those sent once, and waits for nothing.
    pub fn take(&mut self) -> Option<D>
        ensures load { right_sent_loads self.new ≡ right_sent_loads self.old + 1 }
        ensures taken { MatchOption result
            (right_taken self.new ≡ right_taken self.old)
            (λ item. right_taken self.new ≡ right_taken self.old ++ item ∷ []) }
        ensures none { MatchOption result
            (right_sent_seen self.new ≡ length (right_taken self.old))
            (λ _. length (right_taken self.old) < right_sent_seen self.new) }
        ensures same { IsSameRight self.old self.new }
        ensures sent { RightSentNothing self.old self.new }
    {
        let result = take_down(&self.board.shared, &mut self.seat, self.cap, self.taken);
        if result.is_some() {
            self.taken += 1;
        }
        result
    }

    /// How many items this end has sent.
    pub fn sent(&self) -> u64
        ensures { result ≡ length (right_sent self.now) }
    {
        self.sent
    }

    /// How many items this end has taken.
    pub fn taken(&self) -> u64
        ensures { result ≡ length (right_taken self.now) }
    {
        self.taken
    }
}
