ghost use Rattle.std.specs.Prelude.{◌≡◌, ◌<◌, ◌≤◌, length, position, IfSome};
ghost use Rattle.process_switch.specs.Choice.{choice, is_of};

use fission_ids::{ProcId, Text};

/// The least live process of a type. `live` has the remote type of each process from 0 on, None for one that
/// has ended, and has at most 16 items. None exactly where no live process has the type.
pub fn choose(live: &[Option<Text>], t: &str) -> Option<ProcId>
    requires { length live.now ≤ 16 }
    ensures { result ≡ choice live.now t.now }
{
    match least_of(live, t) {
        None => None,
        Some(p) => Some(ProcId(p as u8)),
    }
}

// The place of the first process of a type.
fn least_of(live: &[Option<Text>], t: &str) -> Option<usize>
    ensures place { result ≡ position (is_of t.now) live.now }
    ensures within { IfSome result (λ p. p < length live.now) }
{
    live.iter().position(|process| is_of(process, t))
}

// Whether this is the remote type of a process that is live.
pub(crate) fn is_of(process: &Option<Text>, t: &str) -> bool
    ensures { result ≡ is_of t.now process.now }
{
    match process {
        None => false,
        Some(own) => own.as_str() == t,
    }
}
