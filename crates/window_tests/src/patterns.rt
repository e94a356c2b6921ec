ghost use Rattle.std.specs.Prelude.{◌<◌, ◌^◌, length};

use fission_ids::Duplicate;
use match_pattern::*;
use std::alloc::Global;
use std::test::Fail;
use url::Url;

// Whether an address matches a pattern, and a copy of it.
fn is_matched(alloc: Global, pattern: &Pattern, address: &str) -> Result<bool, Fail> {
    let address = Url::parse(alloc, address)?;
    Ok(pattern.matches(&address) && pattern.copy()?.matches(&address))
}

// For each of the addresses, with blanks between them, whether it matches the pattern that is read of a text.
fn matched(alloc: Global, pattern: &Pattern, addresses: &str) -> Result<String, Fail> {
    let mut answers = String::new(alloc);
    for address in addresses.split(' ') {
        answers.push(if is_matched(alloc, pattern, address)? {
            'y'
        } else {
            'n'
        })?;
    }
    Ok(answers)
}

// The fault of a text, or which addresses its pattern matches.
fn answer(alloc: Global, text: &str, addresses: &str) -> Result<String, Fail>
    requires { length text.now < 2 ^ 32 }
{
    match Pattern::read(alloc, text) {
        Ok(pattern) => matched(alloc, &pattern, addresses),
        Err(fault) => Ok(format!(in alloc; "{fault}")?),
    }
}

#[test]
fn patterns(rt: HostRuntime) -> Result<(), Fail> {
    for (text, addresses, want) in [
        (
            "https://*.example/*",
            "https://a.example/ https://example/ http://a.example/",
            "yyn",
        ),
        (
            "*://a.example/x*",
            "http://a.example/x?y=1 https://a.example:8443/x ftp://a.example/x",
            "yyn",
        ),
        ("<all_urls>", "file:///tmp/x about:blank", "yn"),
        ("a.example", "", "no scheme at 0"),
        ("https://", "", "bad host at 8"),
        ("https://*a/", "", "bad host at 9"),
        ("https://*.*/", "", "bad host at 10"),
        ("file://x/", "", "bad host at 7"),
        ("https://a.example", "", "bad path at 17"),
        ("https://a.example/ b", "", "bad path at 18"),
    ] {
        assert!(rt;
            answer(rt.alloc(), text, addresses)?.as_str() == want,
            "{text}"
        );
    }
    Ok(())
}

#[test]
fn the_text_is_kept(rt: HostRuntime) -> Result<(), Fail> {
    let pattern = Pattern::read(rt.alloc(), "*://*.example/*")?;
    assert_eq!(rt; pattern.text(), "*://*.example/*");
    Ok(())
}
