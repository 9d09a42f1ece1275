//! What is read of the words of a line, field by field.
ghost use Rattle.std.specs.Prelude.{◌≡◌, IfOk, IfSome, length, take};
ghost use Rattle.std.specs.Str.{bytes_eq};
ghost use Rattle.bay_log.specs.Bodies.{limit_of, how_of, entry_of, head_in, hold_in, back_in, end_in, note_in, line_in, line_of};
ghost use Rattle.bay_log.specs.Lines.{Fits};

use crate::body::body;
use crate::digits::{hash_of, number_32, number_64, number_128};
use crate::how::How;
use crate::line::{Entry, Line};
use crate::text::{Text, is_text};
use std::alloc::{AllocError, Global};

/// The limit that a line says.
#[tactic(auto, unfolding(crate::specs::Bodies::limit_of))]
fn limit_of(text: &[u8]) -> Option<Option<u64>>
    ensures { result ≡ limit_of text.now }
{
    if text == b"----------------".as_slice() {
        return Some(None);
    }
    match number_64(text) {
        Some(limit) => Some(Some(limit)),
        None => None,
    }
}

/// What the word says.
#[tactic(auto, unfolding(crate::specs::Bodies::how_of))]
fn how_of(word: &[u8]) -> Option<How>
    ensures { result ≡ how_of word.now }
{
    if word == b"let_go".as_slice() {
        Some(How::LetGo)
    } else if word == b"left".as_slice() {
        Some(How::Left)
    } else if word == b"lapsed".as_slice() {
        Some(How::Lapsed)
    } else if word == b"not_written".as_slice() {
        Some(How::NotWritten)
    } else if word == b"limit".as_slice() {
        Some(How::Limit)
    } else if word == b"grace".as_slice() {
        Some(How::Grace)
    } else if word == b"taken_away".as_slice() {
        Some(How::TakenAway)
    } else if word == b"replaced".as_slice() {
        Some(How::Replaced)
    } else if word == b"stopped".as_slice() {
        Some(How::Stopped)
    } else {
        None
    }
}

/// What an ask holds, by these words.
#[tactic(auto, unfolding(crate::specs::Bodies::entry_of))]
fn entry_of(words: &[u8]) -> Option<Entry>
    requires { length words.now ≡ 126 }
    ensures { result ≡ entry_of words.now }
{
    let class = number_32(&words[0..8])?;
    let needs = number_64(&words[9..25])?;
    let owner = number_128(&words[26..58])?;
    let since = number_64(&words[59..75])?;
    let limit = limit_of(&words[76..92])?;
    let asked = number_64(&words[93..109])?;
    let token = number_64(&words[110..126])?;
    Some(Entry {
        class,
        needs,
        owner,
        since,
        limit,
        asked,
        token,
    })
}

/// The head that may have these words.
#[tactic(auto, unfolding(crate::specs::Bodies::head_in))]
fn head_in(words: &[u8]) -> Option<Line>
    ensures { result ≡ head_in words.now }
{
    if words.len() != 119 {
        return None;
    }
    let bay = hash_of(&words[4..68])?;
    let base = number_64(&words[69..85])?;
    let next = number_64(&words[86..102])?;
    let granted = number_64(&words[103..119])?;
    Some(Line::Head {
        bay,
        base,
        next,
        granted,
    })
}

/// The hold that may have these words.
#[tactic(auto, unfolding(crate::specs::Bodies::hold_in))]
fn hold_in(words: &[u8]) -> Option<Line>
    ensures { result ≡ hold_in words.now }
{
    if words.len() != 148 {
        return None;
    }
    let ask = number_64(&words[5..21])?;
    let entry = entry_of(&words[22..148])?;
    Some(Line::Hold { ask, entry })
}

/// The line `back` that may have these words.
#[tactic(auto, unfolding(crate::specs::Bodies::back_in))]
fn back_in(words: &[u8]) -> Option<Line>
    ensures { result ≡ back_in words.now }
{
    if words.len() != 38 {
        return None;
    }
    let from = number_64(&words[5..21])?;
    let to = number_64(&words[22..38])?;
    Some(Line::Back { from, to })
}

/// The end that may have these words.
#[tactic(auto, unfolding(crate::specs::Bodies::end_in))]
fn end_in(words: &[u8]) -> Option<Line>
    ensures { result ≡ end_in words.now }
{
    if words.len() < 38 {
        return None;
    }
    let ask = number_64(&words[4..20])?;
    let how = how_of(&words[21..words.len() - 17])?;
    let at = number_64(&words[words.len() - 16..])?;
    Some(Line::End { ask, how, at })
}

/// The note that may have these words.
#[tactic(auto, unfolding(crate::specs::Bodies::note_in))]
fn note_in(alloc: Global, words: &[u8]) -> Result<Option<Line>, AllocError>
    ensures { IfOk result (λ line. line ≡ note_in words.now) }
{
    if words.len() < 22 {
        return Ok(None);
    }
    let Some(ask) = number_64(&words[5..21]) else {
        return Ok(None);
    };
    let text = &words[22..];
    if !is_text(text) {
        return Ok(None);
    }
    let text = Text::new(alloc, text)?;
    Ok(Some(Line::Note { ask, text }))
}

/// Whether the words begin with this one.
fn begins_with(words: &[u8], word: &[u8]) -> bool
    ensures { result ≡ bytes_eq (take (length word.now) words.now) word.now }
{
    words.len() >= word.len() && &words[..word.len()] == word
}

/// The line that may have these words, by the first of them.
#[tactic(auto, unfolding(crate::specs::Bodies::line_in))]
fn line_in(alloc: Global, words: &[u8]) -> Result<Option<Line>, AllocError>
    ensures { IfOk result (λ line. line ≡ line_in words.now) }
{
    if begins_with(words, b"bay ") {
        Ok(head_in(words))
    } else if begins_with(words, b"hold ") {
        Ok(hold_in(words))
    } else if begins_with(words, b"back ") {
        Ok(back_in(words))
    } else if begins_with(words, b"end ") {
        Ok(end_in(words))
    } else if begins_with(words, b"note ") {
        note_in(alloc, words)
    } else {
        Ok(None)
    }
}

/// The line that has these words.
#[tactic(auto, unfolding(crate::specs::Bodies::line_of))]
pub(crate) fn line_of(alloc: Global, words: &[u8]) -> Result<Option<Line>, AllocError>
    ensures of { IfOk result (λ line. line ≡ line_of words.now) }
    ensures fits { IfOk result (λ line. IfSome line Fits) }
{
    let Some(line) = line_in(alloc, words)? else {
        return Ok(None);
    };
    let spelled = body(&line);
    if words == spelled.as_slice() {
        Ok(Some(line))
    } else {
        Ok(None)
    }
}
