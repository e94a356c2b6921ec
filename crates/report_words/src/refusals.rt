//! Why a step was refused.

ghost use Rattle.std.specs.Prelude.{◌≡◌, [], ◌∷◌, IfOk, codes, decimal, string_bytes};
ghost use Rattle.report_words.specs.Pieces.{text_of_pieces, after_blank, names_text};
ghost use Rattle.report_words.specs.Refusals.{refusal_number, why_text, counted_text, detail_text};
ghost use Rattle.report_words.specs.Refusals.{refusal_text};

use crate::items::push_names;
use field_table::FieldSet;
use fission_ids::{OutOfMemory, Why};
use std::alloc::Global;
use wire_msgs::{Counted, Refusal};

fn refusal_number(why: Refusal) -> u8
    ensures { result ≡ refusal_number why }
{
    match why {
        Refusal::NoProcess => 1,
        Refusal::Stopped => 2,
        Refusal::NoContext => 3,
        Refusal::NotMine => 4,
        Refusal::Denied(_) => 5,
        Refusal::NoWindow => 6,
        Refusal::NoActor(_) => 7,
        Refusal::NoQuery => 8,
        Refusal::Empty => 9,
        Refusal::NoGroup => 10,
        Refusal::TooMany(_, _) => 11,
        Refusal::NotTop => 12,
    }
}

#[tactic(auto, unfolding(crate::specs::Refusals::why_text))]
fn why_word(why: Why) -> &'static str
    ensures { result.now ≡ why_text why }
{
    match why {
        Why::Unregistered => "unregistered",
        Why::Subframe => "subframe",
        Why::RemoteType => "remotetype",
        Why::Group => "group",
        Why::Address => "address",
    }
}

#[tactic(auto, unfolding(crate::specs::Refusals::counted_text))]
fn counted_word(what: Counted) -> &'static str
    ensures { result.now ≡ counted_text what }
{
    match what {
        Counted::Groups => "groups",
        Counted::Contexts => "contexts",
        Counted::Loads => "loads",
    }
}

fn denied_detail(alloc: Global, fields: FieldSet) -> Result<String, OutOfMemory>
    ensures { IfOk result (λ s. string_bytes s ≡ names_text fields) }
{
    let mut names = String::new(alloc);
    push_names(&mut names, fields)?;
    Ok(names)
}

fn actor_detail(alloc: Global, why: Why) -> Result<String, OutOfMemory>
    ensures { IfOk result (λ s. string_bytes s ≡ after_blank (why_text why)) }
{
    let why = why_word(why);
    Ok(format!(in alloc; " {why}")?)
}

fn count_detail(alloc: Global, what: Counted, most: u32) -> Result<String, OutOfMemory>
    ensures { IfOk result (λ s. string_bytes s ≡
        text_of_pieces (codes " " ∷ counted_text what ∷ codes " " ∷ decimal most ∷ [])) }
{
    let what = counted_word(what);
    Ok(format!(in alloc; " {what} {most}")?)
}

// What stands behind the number.
#[tactic(auto, unfolding(crate::specs::Refusals::detail_text))]
fn detail_words(alloc: Global, why: Refusal) -> Result<String, OutOfMemory>
    ensures { IfOk result (λ s. string_bytes s ≡ detail_text why) }
{
    match why {
        Refusal::Denied(fields) => denied_detail(alloc, fields),
        Refusal::NoActor(why) => actor_detail(alloc, why),
        Refusal::TooMany(what, most) => count_detail(alloc, what, most),
        Refusal::NoProcess
        | Refusal::Stopped
        | Refusal::NoContext
        | Refusal::NotMine
        | Refusal::NoWindow
        | Refusal::NoQuery
        | Refusal::Empty
        | Refusal::NoGroup
        | Refusal::NotTop => Ok(String::new(alloc)),
    }
}

// The text of a refusal: `refused`, its number, and where the refusal has more to say, the denied fields by
// number, why no actor was admitted, or how many there are of what.
#[tactic(auto, unfolding(crate::specs::Refusals::refusal_text))]
pub(crate) fn refusal_words(alloc: Global, why: Refusal) -> Result<String, OutOfMemory>
    ensures { IfOk result (λ s. string_bytes s ≡ refusal_text why) }
{
    let number = refusal_number(why);
    let detail = detail_words(alloc, why)?;
    Ok(format!(in alloc; "refused {number}{detail}")?)
}
