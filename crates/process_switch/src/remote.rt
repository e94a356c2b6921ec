ghost use Rattle.std.specs.Prelude.{◌≡◌, None, Some, IfOk};
ghost use Rattle.process_switch.specs.Remote.{host_of, is_blank, is_web, isolated_text, isolated_type};
ghost use Rattle.process_switch.specs.Remote.{remote_type, shared_type};

use fission_ids::{OutOfMemory, Text};
use std::alloc::Global;
use url::Url;

/// The remote type that an address asks for: a process of the site's own for `http` and `https`, the present
/// type for `about:blank`, and one that is shared for all else.
pub fn remote_type(alloc: Global, url: &Url, present: &str) -> Result<Text, OutOfMemory>
    ensures { IfOk result (λ t. t ≡ remote_type url.now present.now) }
{
    if is_web(url) {
        return isolated_type(alloc, url);
    }
    if is_blank(url) {
        return Text::of(alloc, present);
    }
    Text::of(alloc, shared_type(url))
}

// The type of the processes that many addresses share.
fn shared_type(url: &Url) -> &'static str
    ensures { result.now ≡ shared_type url.now }
{
    match url.scheme() {
        "about" => "privilegedabout",
        "file" => "file",
        _ => "web",
    }
}

// Whether the scheme is one of the web's.
fn is_web(url: &Url) -> bool
    ensures { result ≡ is_web url.now }
{
    let scheme = url.scheme();
    scheme == "http" || scheme == "https"
}

// Whether this is the blank page, whatever its query and fragment are.
fn is_blank(url: &Url) -> bool
    ensures { result ≡ is_blank url.now }
{
    url.scheme() == "about" && url.path() == "blank"
}

// The type of the processes for the address's scheme, host and port alone.
fn isolated_type(alloc: Global, url: &Url) -> Result<Text, OutOfMemory>
    ensures { IfOk result (λ t. t ≡ isolated_type url.now) }
{
    match url.port() {
        None => type_without_port(alloc, url.scheme(), host_of(url)),
        Some(port) => type_with_port(alloc, url.scheme(), host_of(url), port),
    }
}

// The host as it is printed, or nothing.
fn host_of(url: &Url) -> &str
    ensures { result.now ≡ host_of url.now }
{
    match url.host_str() {
        None => "",
        Some(host) => host,
    }
}

fn type_without_port(alloc: Global, scheme: &str, host: &str) -> Result<Text, OutOfMemory>
    ensures { IfOk result (λ t. t ≡ isolated_text scheme.now host.now None) }
{
    let text = format!(in alloc; "webIsolated={scheme}://{host}")?;
    Text::of(alloc, text.as_str())
}

fn type_with_port(alloc: Global, scheme: &str, host: &str, port: u16) -> Result<Text, OutOfMemory>
    ensures { IfOk result (λ t. t ≡ isolated_text scheme.now host.now (Some port)) }
{
    let text = format!(in alloc; "webIsolated={scheme}://{host}:{port}")?;
    Text::of(alloc, text.as_str())
}
