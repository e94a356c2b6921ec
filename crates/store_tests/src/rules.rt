ghost use Rattle.std.specs.Prelude.{◌≡◌};
ghost use Rattle.field_rules.specs.Bounds.{range, verdict_within};

use Verdict::{Allow, Deny, Revert};
use field_rules::*;
use field_table::{Field, Fields, Value, Verdict};
use fission_ids::{ContextId, ProcId};

const TAB: ContextId = ContextId {
    creator: 0,
    serial: 1,
};

const OTHER_TAB: ContextId = ContextId {
    creator: 0,
    serial: 2,
};

const PROCESS: ProcId = ProcId(3);

fn from_50_to_300(n: u64) -> Verdict
    ensures { result ≡ verdict_within (range 50 300) n }
{
    if (50..=300).contains(&n) {
        Allow
    } else {
        Revert
    }
}

fn from_100_on(n: u64) -> Verdict
    ensures { result ≡ verdict_within (range 100 1000) n }
{
    if (100..=1000).contains(&n) {
        Allow
    } else {
        Revert
    }
}

// For each field, with its initial value: what the parent may write, on a tab and on a frame, then the
// process that owns the context, then another one.
fn table() -> [(Field, [Verdict; 6]); 16] {
    let owner_else_revert = [Allow, Allow, Allow, Allow, Revert, Revert];
    let any = [Allow; 6];
    let parent_only = [Allow, Allow, Deny, Deny, Deny, Deny];
    let top_only = [Allow, Deny, Allow, Deny, Allow, Deny];
    [
        (Field::Name, owner_else_revert),
        (Field::Closed, any),
        (Field::ExplicitActive, parent_only),
        (Field::CurrentInnerWindowId, any),
        (Field::OpenerId, parent_only),
        (Field::FullZoom, top_only),
        (Field::TextZoom, [Allow, Deny, Allow, Deny, Revert, Deny]),
        (Field::Muted, parent_only),
        (Field::MessageManagerGroup, parent_only),
        (Field::UserAgentOverride, top_only),
        (Field::AllowContentRetargeting, owner_else_revert),
        (Field::SandboxFlags, owner_else_revert),
        (Field::IsInBFCache, parent_only),
        (Field::Loading, owner_else_revert),
        (Field::DefaultLoadFlags, owner_else_revert),
        (Field::DisplayMode, top_only),
    ]
}

#[test]
fn each_field(rt: HostRuntime) {
    let rules = Rules::new().with_custom(0, 50, 300, from_50_to_300);
    let fields = Fields::initial();
    for (field, verdicts) in table() {
        for (i, verdict) in verdicts.into_iter().enumerate() {
            let ask = Ask {
                field,
                value: fields.get(field),
                context: TAB,
                top: i % 2 == 0,
                window: None,
                from: if i < 2 { None } else { Some(PROCESS) },
                owner_is_sender: i / 2 == 1,
            };
            assert_eq!(rt; rules.judge(&ask), verdict, "{} {i}", field.name());
            assert_eq!(rt; denied(&ask), verdict == Deny, "{} {i}", field.name());
        }
    }
}

#[test]
#[tactic(auto, unfolding(field_table::specs::Field::row))]
fn windows(rt: HostRuntime) {
    let rules = Rules::new();
    let here = WindowFact {
        made_for: TAB,
        is_open: true,
    };
    let closed = WindowFact {
        is_open: false,
        ..here
    };
    let elsewhere = WindowFact {
        made_for: OTHER_TAB,
        ..here
    };
    for (number, window, from, owner_is_sender, verdict) in [
        (0, None, None, false, Allow),
        (1, Some(here), None, false, Deny),
        (0, None, Some(PROCESS), false, Allow),
        (1, None, Some(PROCESS), true, Deny),
        (1, Some(elsewhere), Some(PROCESS), true, Deny),
        (1, Some(closed), Some(PROCESS), true, Revert),
        (1, Some(here), Some(PROCESS), false, Revert),
        (1, Some(here), Some(PROCESS), true, Allow),
    ] {
        let value = Value::Number(number);
        let ask = Ask {
            field: Field::CurrentInnerWindowId,
            value: &value,
            context: TAB,
            top: false,
            window,
            from,
            owner_is_sender,
        };
        assert_eq!(rt; rules.judge(&ask), verdict, "{number} {window:?}");
    }
}

// What another process than the owner may make of a zoom.
#[tactic(auto, unfolding(field_table::specs::Field::row))]
fn zoom_of_other(rules: &Rules, zoom: Zoom, number: u64) -> Verdict {
    let value = Value::Number(number);
    let field = match zoom {
        Zoom::Full => Field::FullZoom,
        Zoom::Text => Field::TextZoom,
    };
    rules.judge(&Ask {
        field,
        value: &value,
        context: TAB,
        top: true,
        window: None,
        from: Some(PROCESS),
        owner_is_sender: false,
    })
}

#[test]
fn zooms(rt: HostRuntime) {
    let rules = Rules::new()
        .with_custom(0, 50, 300, from_50_to_300)
        .with_custom(1, 50, 300, from_50_to_300)
        .with_custom(1, 100, 1000, from_100_on);
    for (number, full, text) in [
        (29, Deny, Deny),
        (30, Revert, Revert),
        (50, Allow, Revert),
        (100, Allow, Allow),
        (300, Allow, Allow),
        (301, Revert, Allow),
        (500, Revert, Allow),
        (501, Deny, Deny),
    ] {
        assert_eq!(rt; zoom_of_other(&rules, Zoom::Full, number), full, "{number}");
        assert_eq!(rt; zoom_of_other(&rules, Zoom::Text, number), text, "{number}");
    }
}
