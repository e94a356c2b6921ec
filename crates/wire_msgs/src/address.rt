ghost use Rattle.std.specs.Prelude.{◌≡◌, IfOk};

use fission_ids::OutOfMemory;
use url::Url;

/// An equal address.
pub fn copy_of(url: &Url) -> Result<Url, OutOfMemory>
    ensures { IfOk result (λ c. c ≡ url.now) }
{
    Ok(url.clone()?)
}
