ghost use Rattle.std.specs.Prelude.{◌≡◌, ◌+◌, ◌≤◌, ◌<◌, ◌^◌, is_some};
ghost use Rattle.edge.specs.Input.{HasCounted, HasRead, ReadAtMost};

use crate::failed::Failed as Fault;
use crate::source::Source;
use std::alloc::Global;

/// What reading a source to its end came to.
#[derive(Debug, Drop)]
pub enum Input {
    /// All the bytes that were left, and nothing is left now.
    Whole(Vec<u8>),
    /// More bytes than the limit were left: one more than the limit was read.
    TooLarge,
    /// The source failed, after at most as many bytes as the limit.
    Failed,
    /// No memory was found for the bytes, of which at most as many as the limit were read.
    OutOfMemory,
}

// The most bytes that one read asks for.
const PIECE: usize = 4096;

/// Reads a source to its end, and at most `limit + 1` bytes of it. The answer is `Failed` where a
/// read failed, and no read failed where it is another.
pub fn read_all<S: Source>(alloc: Global, source: &mut S, limit: u64) -> Input
    requires { limit < 2 ^ 32 }
    ensures read { HasRead (S.left source.old) (S.left source.new) limit result }
    ensures counted { HasCounted (S.faults source.old) (S.faults source.new) result }
    ensures within { ReadAtMost (S.left source.old) (S.left source.new) (limit + 1) }
    ensures later { S.faults source.old ≤ S.faults source.new }
    ensures tells { is_some (S.left source.new) ≡ is_some (S.left source.old) }
{
    let limit = limit as usize;
    let mut buffer = [0; PIECE];
    let mut bytes = Vec::new(alloc);
    'pieces: loop {
        let room = limit - bytes.len();
        let most = PIECE.min(room + 1);
        match source.read(&mut buffer[..most]) {
            Err(Fault) => return Input::Failed,
            Ok(0) => return Input::Whole(bytes),
            Ok(count) if count > room => return Input::TooLarge,
            Ok(count) => {
                if bytes.extend_from_slice(&buffer[..count]).is_err() {
                    return Input::OutOfMemory;
                }
            }
        }
    }
}
