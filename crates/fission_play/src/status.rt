//! The exit status, as a number and as a line for a person.

ghost use Rattle.std.specs.Prelude.{◌≡◌, ◌<◌, ◌⊎◌, ◌↔◌, IsNone};
ghost use Rattle.fission_play.specs.Status.{code_of};

use crate::failure::Failure;

/// The exit status of what a run came to: 0 where the whole report was written.
pub fn code_of(outcome: Result<(), Failure>) -> u8
    ensures { result ≡ code_of outcome }
{
    match outcome {
        Ok(()) => 0,
        Err(Failure::Memory) => 1,
        Err(Failure::Words) => 2,
        Err(Failure::Unread) => 3,
        Err(Failure::Shape { .. }) => 4,
        Err(Failure::TooLarge) => 5,
        Err(Failure::ReadFault) => 6,
        Err(Failure::WriteFault) => 7,
    }
}

/// What a person is told of an exit status: what came, and what to do. Of 0 there is nothing to tell.
pub fn line_of(status: u8) -> Option<&'static str>
    ensures { IsNone result ↔ ((status ≡ 0) ⊎ (7 < status)) }
{
    match status {
        1 => Some("fission_play: memory ran out; give it more, or play a shorter scenario"),
        2 => Some("usage: fission_play play < scenario.json"),
        3 => Some(
            "fission_play: the input is no JSON; docs/FORMATS.md tells the format of a scenario",
        ),
        4 => Some(
            "fission_play: the JSON is no scenario; the line above tells where, docs/FORMATS.md the format",
        ),
        5 => Some("fission_play: the input has more than 4,194,304 bytes; play a shorter scenario"),
        6 => Some("fission_play: the input can't be read to its end; play it from a file"),
        7 => Some(
            "fission_play: the output can't be written, and may be cut off; send it elsewhere",
        ),
        _ => None,
    }
}
