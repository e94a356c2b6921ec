ghost use Rattle.std.specs.Prelude.{◌≡◌, ◌≢◌, ℕ, ◌^◌, ◌<◌, ◌≤◌, ◌∷◌, ◌++◌, ◌↔◌, List, IfOk, IfSome};
ghost use Rattle.std.specs.Prelude.{IsSomeAnd, IsTrue, MatchOption, Some, codes, decimal};
ghost use Rattle.fission_ids.specs.Ids.{AreInRange, IsPlain, numbers_text, id_number};

use crate::memory::OutOfMemory;
use crate::text::Text;
use std::alloc::Global;

const LAST_CREATOR: u32 = 16;

// How many serials a number of 32 bits can be, with 0, which is none.
const SERIALS: u64 = 4_294_967_296;

// Whether there is no sign in front, and no zero in front of other digits.
fn is_plain(digits: &str) -> bool
    ensures { IsTrue result ↔ IsPlain digits.now }
{
    match digits.as_bytes().first() {
        Some(b'+') => false,
        Some(b'0') => digits.len() == 1,
        _ => true,
    }
}

// A number as it is printed. `parse` takes a sign and zeros in front as well.
fn read_number(text: &str) -> Option<u32>
    ensures { MatchOption result ((n : ℕ) → n < 2 ^ 32 → text.now ≢ decimal n) (λ n. text.now ≡ decimal n) }
{
    let number = text.parse().ok()?;
    if is_plain(text) { Some(number) } else { None }
}

// The number of a creator.
fn read_creator(text: &str) -> Option<u8>
    ensures { MatchOption result ((n : ℕ) → n ≤ 16 → text.now ≢ decimal n)
        (λ n. (n ≤ 16) × (text.now ≡ decimal n)) }
{
    let creator = read_number(text)?;
    if creator <= LAST_CREATOR {
        Some(creator as u8)
    } else {
        None
    }
}

// A serial, or the number of a group: they count from 1.
pub(crate) fn read_serial(text: &str) -> Option<u32>
    ensures { MatchOption result ((n : ℕ) → 1 ≤ n → n ≤ 4294967295 → text.now ≢ decimal n)
        (λ n. (1 ≤ n) × (text.now ≡ decimal n)) }
{
    let serial = read_number(text)?;
    if serial == 0 { None } else { Some(serial) }
}

// What stands behind this letter.
pub(crate) fn after_letter(letter: char, text: &str) -> Option<&str>
    requires { letter < 128 }
    ensures { MatchOption result ((rest : List ℕ) → text.now ≢ letter ∷ rest)
        (λ rest. text.now ≡ letter ∷ rest.now) }
{
    text.strip_prefix(letter)
}

// What stands before the first dot, and what stands behind it.
fn split_at_dot(text: &str) -> Option<(&str, &str)>
    ensures found { IfSome result (λ parts. text.now ≡ parts.0.now ++ (codes "." ++ parts.1.now)) }
    ensures every { (creator serial : ℕ) → creator < 2 ^ 32 → text.now ≡ numbers_text creator serial →
        IsSomeAnd result (λ parts. (parts.0.now ≡ decimal creator) × (parts.1.now ≡ decimal serial)) }
{
    text.split_once('.')
}

// The creator and the serial in the text of an id that begins with this letter.
pub(crate) fn read_numbers(letter: char, text: &str) -> Option<(u8, u32)>
    requires { letter < 128 }
    ensures found { IfSome result (λ n. AreInRange n.0 n.1 × (text.now ≡ letter ∷ numbers_text n.0 n.1)) }
    ensures every { (creator serial : ℕ) → AreInRange creator serial →
        text.now ≡ letter ∷ numbers_text creator serial → result ≡ Some (creator, serial) }
{
    let (creator, serial) = split_at_dot(after_letter(letter, text)?)?;
    Some((read_creator(creator)?, read_serial(serial)?))
}

// The text of an id that begins with this letter.
pub(crate) fn print_numbers(
    alloc: Global,
    letter: char,
    creator: u8,
    serial: u32,
) -> Result<Text, OutOfMemory>
    requires { letter < 128 }
    ensures { IfOk result (λ t. t ≡ letter ∷ numbers_text creator serial) }
{
    Text::from_string(format!(in alloc; "{letter}{creator}.{serial}")?)
}

pub(crate) fn join_numbers(creator: u8, serial: u32) -> u64
    ensures { result ≡ id_number creator serial }
{
    u64::from(creator) * SERIALS + u64::from(serial)
}

// The creator and the serial that are joined in a number.
pub(crate) fn split_number(n: u64) -> Option<(u8, u32)>
    ensures found { IfSome result (λ p. AreInRange p.0 p.1 × (id_number p.0 p.1 ≡ n)) }
    ensures every { (creator serial : ℕ) → AreInRange creator serial → id_number creator serial ≡ n →
        result ≡ Some (creator, serial) }
{
    let (creator, serial) = (n / SERIALS, n % SERIALS);
    if creator > u64::from(LAST_CREATOR) || serial == 0 {
        return None;
    }
    Some((creator as u8, serial as u32))
}
