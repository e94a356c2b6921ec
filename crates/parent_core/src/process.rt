ghost use Rattle.std.specs.Prelude.{◌≡◌, ℕ, ◌+◌, ◌-◌, ◌^◌, ◌<◌, ◌==◌, ◌&&◌, length, nat_lt};
ghost use Rattle.parent_core.specs.Parent.{counted_of};
ghost use Rattle.parent_core.specs.Posts.{is_sent_to};
ghost use Rattle.parent_core.specs.Sending.{counted_after, heard_after};

use crate::posts::{Post, is_sent_to};
use epochs::Heard;
use fission_ids::{Epoch, ProcId};
use std::marker::Model;

/// What the parent counts of a process.
#[derive(Debug, Drop)]
pub(crate) struct Process {
    // The epoch of the last commit that was heard of it.
    heard: Heard,
    // How many bundles were sent to it.
    sent: u64,
}

impl Model for Process {
    ghost use Rattle.parent_core.specs.Parent.{Counted};
    ghost use Rattle.parent_core.specs.Codes.{counted_code};

    ghost Value = { Counted };

    ghost coded = { counted_code };

    ghost view = { λ p. record { heard = p.heard; sent = p.sent } };
}

impl Process {
    /// Nothing was heard or sent yet.
    pub(crate) fn new() -> Process
        ensures { result ≡ record { heard = 0; sent = 0 } }
    {
        Process {
            heard: Heard::new(),
            sent: 0,
        }
    }

    /// The epoch that was heard last.
    pub(crate) fn epoch(&self) -> Epoch
        ensures { result.0 ≡ self.now.heard }
    {
        self.heard.last()
    }

    /// How many bundles were sent to it.
    pub(crate) fn bundles_sent(&self) -> u64
        ensures { result ≡ self.now.sent }
    {
        self.sent
    }

    /// Records the epoch of a commit, which is the one that is due.
    pub(crate) fn hear(&mut self, e: Epoch)
        requires due { e.0 ≡ self.old.heard + 1 }
        requires count { self.old.heard < 2 ^ 64 - 1 }
        ensures { self.new ≡ record { heard = self.old.heard + 1; sent = self.old.sent } }
    {
        match self.heard.note(e, true) {
            Ok(()) => {}
            Err(_) => unreachable!(),
        }
    }

    // Counts a bundle, if it is sent.
    fn count_if(&mut self, told: bool)
        requires { self.old.sent < 2 ^ 64 - 1 }
        ensures { self.new ≡ counted_after told self.old }
    {
        if told {
            self.sent += 1;
        }
    }
}

/// Counts the bundle of each process that is sent one.
pub(crate) fn count_sent(posts: &[Post], processes: &mut [Process])
    requires few { length processes.old < 17 }
    requires counts { (p : ℕ) → (counted_of p processes.old).sent < 2 ^ 64 - 1 }
    ensures len { length processes.new ≡ length processes.old }
    ensures counts { (p : ℕ) → counted_of p processes.new ≡
        counted_after (nat_lt p (length processes.old) && is_sent_to posts.now p)
        (counted_of p processes.old) }
{
    for i in 0..processes.len() {
        processes[i].count_if(is_sent_to(posts, ProcId(i as u8)));
    }
}

/// Records the epoch of a commit of process p, which is the one that is due.
pub(crate) fn record_epoch(p: ProcId, e: Epoch, processes: &mut [Process])
    requires process { p.0 < length processes.old }
    requires due { e.0 ≡ (counted_of p.0 processes.old).heard + 1 }
    requires count { (counted_of p.0 processes.old).heard < 2 ^ 64 - 1 }
    ensures len { length processes.new ≡ length processes.old }
    ensures counts { (q : ℕ) →
        counted_of q processes.new ≡ heard_after (q == p.0) (counted_of q processes.old) }
{
    processes[p.0 as usize].hear(e);
}

/// The epoch that was heard last of process p.
pub(crate) fn epoch_heard(p: ProcId, processes: &[Process]) -> Epoch
    requires { p.0 < length processes.now }
    ensures { result.0 ≡ (counted_of p.0 processes.now).heard }
{
    processes[p.0 as usize].epoch()
}

/// How many bundles were sent to process p.
pub(crate) fn bundles_sent(p: ProcId, processes: &[Process]) -> u64
    requires { p.0 < length processes.now }
    ensures { result ≡ (counted_of p.0 processes.now).sent }
{
    processes[p.0 as usize].bundles_sent()
}
