ghost use Rattle.std.specs.Prelude.{◌≡◌, ◌+◌, length, OnOk};
ghost use Rattle.world.specs.Sides.{delivered, links_with};

use channels::Link;
use fission_ids::{OutOfMemory, ProcId, Seq};
use wire_msgs::DownBundle;

/// Puts each bundle on the link to its destination.
pub(crate) fn deliver(
    sent: Seq<(ProcId, DownBundle)>,
    downs: &mut [Link<DownBundle>],
) -> Result<(), OutOfMemory>
    ensures { OnOk result (downs.new ≡ delivered sent downs.old) }
{
    for (to, bundle) in sent.into_vec() {
        send_down(to, bundle, downs)?;
    }
    Ok(())
}

// Puts a bundle on a link, if there is one to that process.
fn send_down(
    to: ProcId,
    bundle: DownBundle,
    downs: &mut [Link<DownBundle>],
) -> Result<(), OutOfMemory>
    ensures { OnOk result (downs.new ≡ links_with to.0 bundle downs.old) }
{
    if (to.0 as usize) < downs.len() {
        downs[to.0 as usize].send(bundle)?;
    }
    Ok(())
}
