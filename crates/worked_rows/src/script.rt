//! Texts in which a piece may stand many times: `@20 times PIECE@` and, each behind its number from 1,
//! `@20 numbered PIECE@`. Where `@each of` stands, and lines up to the next `@`, there is a text for each line.

ghost use Rattle.std.specs.Prelude.{◌≡◌, ◌≢◌, ◌++◌, ℕ, List};
ghost use Rattle.std.specs.Prelude.{IfOk, IfSome, MatchOption, OnOk, codes, decimal, string_bytes};
ghost use Rattle.std.specs.List.{flat_map};
ghost use Rattle.std.specs.Str.{IsUtf8};
ghost use Rattle.worked_rows.specs.Script.{line_text, piece_text, mark_text, script_text};
ghost use Rattle.worked_rows.specs.Script.{count_of_texts, line_at, numbered, times, unfolded, unfolded_piece};

use anyhow::{Result, bail};
use std::alloc::Global;

/// A piece of a script.
#[derive(Debug, Drop)]
pub enum Piece {
    /// What stands there.
    Plain(String),
    /// A piece, so many times.
    Times(u32, String),
    /// A piece, so many times, each behind its number, which counts from 1.
    Numbered(u32, String),
    /// One of these lines in each text.
    Each(Vec<String>),
}

/// What stands before a mark and behind it.
pub fn cut<'a>(text: &'a str, mark: &str) -> Option<(&'a str, &'a str)>
    ensures found { MatchOption result
        ((front back : List ℕ) → text.now ≢ front ++ (mark.now ++ back))
        (λ parts. text.now ≡ parts.0.now ++ (mark.now ++ parts.1.now)) }
    ensures utf8 { IfSome result (λ parts. IsUtf8 parts.1.now) }
{
    text.split_once(mark)
}

// A count as it is printed.
fn count_in(alloc: Global, text: &str) -> Result<u32>
    ensures { IfOk result (λ n. text.now ≡ decimal n) }
{
    let count: u32 = text.parse()?;
    if format!(in alloc; "{count}")?.as_str() != text {
        bail!("a count isn't as it is printed");
    }
    Ok(count)
}

// The lines of a text.
fn lines_in(alloc: Global, text: &str) -> Result<Vec<String>>
    ensures { IfOk result (λ lines. flat_map line_text lines.items ≡ codes "\n" ++ text.now) }
{
    let mut lines = Vec::new(alloc);
    let mut rest = text;
    'more: while let Some((line, behind)) = cut(rest, "\n") {
        lines.push(String::from_str(alloc, line)?)?;
        rest = behind;
    }
    lines.push(String::from_str(alloc, rest)?)?;
    Ok(lines)
}

// Lines behind `each of`, which nothing stands before.
fn lines_behind(alloc: Global, front: &str, lines: &str) -> Result<Piece>
    ensures { IfOk result (λ piece. piece_text piece ≡ mark_text (front.now ++ (codes "each of\n" ++ lines.now))) }
{
    if !front.is_empty() {
        bail!("a mark doesn't begin with each of");
    }
    Ok(Piece::Each(lines_in(alloc, lines)?))
}

// The piece of what stands between two marks.
fn marked(alloc: Global, mark: &str) -> Result<Piece>
    ensures { IfOk result (λ piece. piece_text piece ≡ mark_text mark.now) }
{
    if let Some((front, lines)) = cut(mark, "each of\n") {
        return lines_behind(alloc, front, lines);
    }
    if let Some((count, piece)) = cut(mark, " times ") {
        return Ok(Piece::Times(count_in(alloc, count)?, String::from_str(alloc, piece)?));
    }
    let Some((count, piece)) = cut(mark, " numbered ") else {
        bail!("a mark says neither each of, nor how many times, nor numbered");
    };
    Ok(Piece::Numbered(count_in(alloc, count)?, String::from_str(alloc, piece)?))
}

/// The pieces of a script.
pub fn pieces_in(alloc: Global, text: &str) -> Result<Vec<Piece>>
    ensures { IfOk result (λ pieces. script_text pieces.items ≡ text.now) }
{
    let mut pieces = Vec::new(alloc);
    let mut rest = text;
    'more: while let Some((plain, behind)) = cut(rest, "@") {
        let Some((mark, behind)) = cut(behind, "@") else {
            bail!("a mark doesn't end");
        };
        pieces.push(Piece::Plain(String::from_str(alloc, plain)?))?;
        pieces.push(marked(alloc, mark)?)?;
        rest = behind;
    }
    pieces.push(Piece::Plain(String::from_str(alloc, rest)?))?;
    Ok(pieces)
}

fn push_times(text: &mut String, count: u32, piece: &str) -> Result<()>
    ensures { OnOk result (string_bytes text.new ≡ string_bytes text.old ++ times count piece.now) }
{
    for _k in 0..count {
        text.push_str(piece)?;
    }
    Ok(())
}

fn push_numbered(alloc: Global, text: &mut String, count: u32, piece: &str) -> Result<()>
    ensures { OnOk result (string_bytes text.new ≡ string_bytes text.old ++ numbered count piece.now) }
{
    for k in 0..count {
        let number = k + 1;
        text.push_str(format!(in alloc; "{number}")?.as_str())?;
        text.push_str(piece)?;
    }
    Ok(())
}

fn push_line(text: &mut String, lines: &[String], number: usize) -> Result<()>
    ensures { OnOk result (string_bytes text.new ≡ string_bytes text.old ++ line_at number lines.now) }
{
    match lines.get(number) {
        Some(line) => Ok(text.push_str(line.as_str())?),
        None => Ok(()),
    }
}

fn push_piece(alloc: Global, number: usize, text: &mut String, piece: &Piece) -> Result<()>
    ensures { OnOk result (string_bytes text.new ≡ string_bytes text.old ++ unfolded_piece number piece.now) }
{
    match piece {
        Piece::Plain(plain) => Ok(text.push_str(plain.as_str())?),
        Piece::Times(count, piece) => push_times(text, *count, piece.as_str()),
        Piece::Numbered(count, piece) => push_numbered(alloc, text, *count, piece.as_str()),
        Piece::Each(lines) => push_line(text, lines.as_slice(), number),
    }
}

/// How many texts a script stands for: one for each of its lines, where it has such, and else one.
pub fn count_texts(pieces: &[Piece]) -> usize
    ensures { result ≡ count_of_texts pieces.now }
{
    for piece in pieces {
        if let Piece::Each(lines) = piece {
            return lines.len();
        }
    }
    1
}

/// The text that a script stands for, of several the one with this number, from 0.
pub fn unfold(alloc: Global, number: usize, pieces: &[Piece]) -> Result<String>
    ensures { IfOk result (λ text. string_bytes text ≡ unfolded number pieces.now) }
{
    let mut text = String::new(alloc);
    for piece in pieces {
        push_piece(alloc, number, &mut text, piece)?;
    }
    Ok(text)
}
