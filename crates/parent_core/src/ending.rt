ghost use Rattle.std.specs.Prelude.{◌≡◌, ◌==◌};
ghost use Rattle.std.specs.Option.{option_map};
ghost use Rattle.parent_core.specs.Parent.{cause_of, owner_left, owner_without};

use fission_ids::ProcId;
use std::marker::Model;
use wire_msgs::EndCause;

/// A process that was ended, and why.
#[derive(Debug, Drop)]
pub(crate) struct ProcessEnd {
    process: ProcId,
    cause: EndCause,
}

impl Model for ProcessEnd {
    ghost use Rattle.parent_core.specs.Parent.{End};
    ghost use Rattle.parent_core.specs.Codes.{end_code};

    ghost Value = { End };

    ghost coded = { end_code };

    ghost view = { λ e. record { process = e.process.0; cause = e.cause } };
}

impl ProcessEnd {
    /// The end of a process.
    pub(crate) fn new(process: ProcId, cause: EndCause) -> ProcessEnd
        ensures { result ≡ record { process = process.0; cause = cause } }
    {
        ProcessEnd { process, cause }
    }

    // Whether it is the end of process p.
    fn is_of(&self, p: ProcId) -> bool
        ensures { result ≡ (p.0 == self.now.process) }
    {
        p == self.process
    }

    // Why it was ended.
    fn cause(&self) -> EndCause
        ensures { result ≡ self.now.cause }
    {
        self.cause
    }

    // An owner, unless it was ended.
    fn disown(&self, owner: Option<ProcId>) -> Option<ProcId>
        ensures { option_map (λ p. p.0) result
            ≡ owner_without self.now.process (option_map (λ p. p.0) owner) }
    {
        match owner {
            None => None,
            Some(p) => { if p == self.process { None } else { Some(p) } }
        }
    }
}

// The newest end comes first in each list.

/// Why a process was ended, if it was.
pub(crate) fn cause_of(p: ProcId, ends: &[ProcessEnd]) -> Option<EndCause>
    ensures { result ≡ cause_of p.0 ends.now }
{
    match ends {
        [] => None,
        [newest, older @ ..] => {
            if newest.is_of(p) {
                Some(newest.cause())
            } else {
                cause_of(p, older)
            }
        }
    }
}

/// An owner, if it wasn't ended.
pub(crate) fn owner_left(ends: &[ProcessEnd], owner: Option<ProcId>) -> Option<ProcId>
    ensures { option_map (λ p. p.0) result ≡ owner_left ends.now (option_map (λ p. p.0) owner) }
{
    match ends {
        [] => owner,
        [newest, older @ ..] => newest.disown(owner_left(older, owner)),
    }
}
