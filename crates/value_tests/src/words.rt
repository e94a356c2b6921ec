use field_table::{Field, FieldSet, Value};
use fission_ids::{AnyId, ContextId, Epoch, GroupId, OutOfMemory, ProcId, Seq, Text, WindowId};
use journal::Step;
use report_words::*;
use std::alloc::Global;
use std::test::Fail;
use wire_msgs::{
    Action, Answer, Counted, EndCause, FieldMark, FieldNote, LoadMark, Mark, ParentAction,
    PartNote, Refusal, UpBundle,
};

const CONTEXT: ContextId = ContextId {
    creator: 1,
    serial: 2,
};

const WINDOW: WindowId = WindowId {
    creator: 3,
    serial: 4,
};

fn answers(alloc: Global, answer: Answer, text: &str) -> Result<bool, OutOfMemory> {
    Ok(answer_words(alloc, &answer)?.as_str() == text)
}

#[test]
fn texts_of_answers(rt: HostRuntime) -> Result<(), Fail> {
    let fields = FieldSet::EMPTY.with(Field::Loading).with(Field::Closed);
    for (answer, text) in [
        (Answer::Done, "ok"),
        (Answer::Tab(GroupId(6), CONTEXT), "ok g6 c1.2"),
        (
            Answer::Refused(Refusal::Denied(fields)),
            "refused 5 Closed Loading",
        ),
        (
            Answer::Refused(Refusal::TooMany(Counted::Loads, 8192)),
            "refused 11 loads 8192",
        ),
        (
            Answer::Ended(EndCause::BadEpoch {
                said: Epoch(7),
                due: Epoch(6),
            }),
            "ended badepoch 7 6",
        ),
        (
            Answer::Ended(EndCause::BadId {
                id: AnyId::Window(WINDOW),
            }),
            "ended badid w3.4",
        ),
    ] {
        assert!(rt; answers(rt.alloc(), answer, text)?, "{text}");
    }
    Ok(())
}

#[test]
fn texts_of_notes(rt: HostRuntime) -> Result<(), Fail> {
    let alloc = rt.alloc();
    let fields = vec![in alloc;
        FieldNote {
            field: Field::Closed,
            mark: FieldMark::Applied
        },
        FieldNote {
            field: Field::Muted,
            mark: FieldMark::Obsolete
        },
    ]?;
    let notes = vec![in alloc;
        PartNote::Create(CONTEXT, Mark::Late),
        PartNote::Load(CONTEXT, LoadMark::Target(ProcId(1))),
        PartNote::Tell(WINDOW, Text::of(alloc, "Pip é")?, Mark::Ignored),
        PartNote::Commit(CONTEXT, Seq::from_vec(fields)),
    ]?;
    let answer = Answer::Parts(Seq::from_vec(notes));
    let text =
        "ok create c1.2 late load c1.2 p1 tell w3.4 Pip é ignored commit c1.2 Closed=a Muted=o";
    assert!(rt; answers(alloc, answer, text)?);
    Ok(())
}

#[test]
fn texts_of_steps(rt: HostRuntime) -> Result<(), Fail> {
    let alloc = rt.alloc();
    let p = ProcId(7);
    let own = Action::Close { window: WINDOW };
    let action = ParentAction::Discard { context: CONTEXT };
    let kill = ParentAction::Kill { process: p };
    let bundle = UpBundle {
        epoch: Epoch(1),
        seen: 0,
        parts: Seq::new(alloc),
    };
    for (step, text) in [
        (Step::Act { p, action: own }, "p7 close"),
        (Step::Take { p: ProcId(0) }, "p0 take"),
        (Step::Raw { p, bundle }, "p7 raw"),
        (Step::ParentAct { action }, "parent discard"),
        (Step::ParentAct { action: kill }, "parent kill"),
        (Step::Hear { p }, "parent hear p7"),
    ] {
        assert_eq!(rt; step_words(alloc, &step)?.as_str(), text);
    }
    assert_eq!(rt; process_words(alloc, p)?.as_str(), "p7");
    Ok(())
}

fn shows(alloc: Global, field: Field, value: Value, text: &str) -> Result<bool, OutOfMemory> {
    Ok(value_words(alloc, field, Some(&value))?.as_str() == text)
}

#[test]
fn texts_of_values(rt: HostRuntime) -> Result<(), Fail> {
    let alloc = rt.alloc();
    assert_eq!(rt; value_words(alloc, Field::Muted, None)?.as_str(), "-");
    for (field, value, text) in [
        (Field::Muted, Value::Flag(true), "true"),
        (Field::DisplayMode, Value::Number(1), "1"),
        (Field::OpenerId, Value::Number(0), "0"),
        (Field::OpenerId, Value::Number(CONTEXT.number()), "c1.2"),
        (
            Field::CurrentInnerWindowId,
            Value::Number(WINDOW.number()),
            "w3.4",
        ),
        // No creator is past 16.
        (
            Field::CurrentInnerWindowId,
            Value::Number(73_014_444_033),
            "73014444033",
        ),
        (
            Field::Name,
            Value::Words(Text::of(alloc, "say \"no\"\n\u{1f}é")?),
            "\"say \\\"no\\\"\\n\\u001fé\"",
        ),
    ] {
        assert!(rt; shows(alloc, field, value, text)?, "{text}");
    }
    Ok(())
}

#[test]
fn texts_of_views(rt: HostRuntime) -> Result<(), Fail> {
    let alloc = rt.alloc();
    let top = ContextId {
        creator: 0,
        serial: 1,
    };
    let whose = owner_words(alloc, None)?;
    let held = held_words(alloc, top, Some(GroupId(1)), None, whose.as_str())?;
    assert_eq!(rt; held.as_str(), "c0.1 g1 - -");
    let whose = owner_words(alloc, Some(ProcId(15)))?;
    let held = held_words(alloc, CONTEXT, Some(GroupId(64)), Some(top), whose.as_str())?;
    assert_eq!(rt; held.as_str(), "c1.2 g64 c0.1 p15");
    assert_eq!(rt; share_words(alloc, true)?.as_str(), "own");
    assert_eq!(rt; share_words(alloc, false)?.as_str(), "remote");
    let p = ProcId(3);
    let line = process_line_words(alloc, p, "web", None)?;
    assert_eq!(rt; line.as_str(), "p3 web running");
    let cause = EndCause::BadStamp { said: 9, sent: 0 };
    let line = process_line_words(alloc, p, "file", Some(cause))?;
    assert_eq!(rt; line.as_str(), "p3 file ended badstamp 9 0");
    assert_eq!(rt; run_words(alloc, "web", true)?.as_str(), "web running");
    assert_eq!(rt; run_words(alloc, "web", false)?.as_str(), "web stopped");
    Ok(())
}

// Whether a field is at its first value.
fn initial(field: Field, value: Value) -> bool {
    is_initial(field, &value)
}

#[test]
fn fields_at_their_first_values(rt: HostRuntime) -> Result<(), Fail> {
    let alloc = rt.alloc();
    for field in Field::ALL {
        assert!(rt; initial(field, field.initial()));
    }
    assert!(rt; initial(Field::Name, Value::Words(Text::of(alloc, "")?)));
    assert!(rt; !initial(Field::Name, Value::Words(Text::of(alloc, " ")?)));
    assert!(rt; !initial(Field::AllowContentRetargeting, Value::Flag(false)));
    assert!(rt; !initial(Field::FullZoom, Value::Number(0)));
    assert!(rt; !initial(Field::OpenerId, Value::Number(CONTEXT.number())));
    assert!(rt; !initial(Field::Muted, Value::Number(0)));
    let zoom = field_words(alloc, Field::FullZoom, Some(&Value::Number(120)))?;
    assert_eq!(rt; zoom.as_str(), "FullZoom 120");
    Ok(())
}
