//! The line that some words are.
ghost use Rattle.std.specs.Prelude.{◌≡◌, ◌<◌, ◌==◌, length, map, MatchOption, IfSome, None, Some};
ghost use Rattle.std.specs.List.{position};
ghost use Rattle.std.specs.Option.{option_map};
ghost use Rattle.report_reader.specs.Line.{Line};
ghost use Rattle.report_reader.specs.Read.{last_of, header_of, instrument_of, part_of, verb_of, read_of, entry_of, done_of};
ghost use Rattle.report_reader.specs.Read.{withdrawn_of, state_of, meals_of, job_of, head_of, middle_of, tail_of, short_line, line_of};
ghost use Rattle.report_reader.specs.Form.{line_text, head_text};

use crate::lines::{EntryLine, Form, JobLine};
use crate::number::number_of;
use bstr::ByteSlice;
use lab_plan::Verb;
use lab_plan::name::{is_name, is_same_name};

#[tactic(auto, unfolding(crate::specs::Read::last_of))]
fn last_of(word: &[u8]) -> Option<Form>
    ensures { MatchOption result (last_of word.now ≡ None) (λ form. last_of word.now ≡ Some (line_text form)) }
{
    if is_same_name(word, b"finished") {
        Some(Form::Last(true))
    } else if is_same_name(word, b"unfinished") {
        Some(Form::Last(false))
    } else {
        None
    }
}

#[tactic(auto, unfolding(crate::specs::Read::header_of))]
fn header_of<'a>(word: &[u8], version: &'a [u8]) -> Option<Form<'a>>
    ensures { MatchOption result (header_of word.now version.now ≡ None) (λ form. header_of word.now version.now ≡ Some (line_text form)) }
{
    if !is_same_name(word, b"lab") {
        return None;
    }
    if is_same_name(version, b"1") {
        Some(Form::Header(1))
    } else if is_same_name(version, b"2") {
        Some(Form::Header(2))
    } else {
        None
    }
}

#[tactic(auto, unfolding(crate::specs::Read::instrument_of))]
fn instrument_of<'a>(word: &[u8], name: &'a [u8], entries: &[u8]) -> Option<Form<'a>>
    ensures { MatchOption result (instrument_of word.now name.now entries.now ≡ None)
        (λ form. instrument_of word.now name.now entries.now ≡ Some (line_text form)) }
{
    if !is_same_name(word, b"instrument") || !is_name(name) {
        return None;
    }
    let entries = number_of(entries)?;
    Some(Form::Instrument(name, entries))
}

/// Where the stroke stands.
fn stroke_in(word: &[u8]) -> Option<usize>
    ensures stroke { result ≡ position (λ b. b == 47) word.now }
    ensures within { IfSome result (λ k. k < length word.now) }
{
    word.find_byte(b'/')
}

/// The place and the length of a part.
#[tactic(auto, unfolding(crate::specs::Read::part_of))]
fn part_of(word: &[u8]) -> Option<(u32, u32)>
    ensures { result ≡ part_of word.now }
{
    let stroke = stroke_in(word)?;
    let place = number_of(&word[..stroke])?;
    let length = number_of(&word[stroke + 1..])?;
    Some((place, length))
}

/// A verb with a number.
#[tactic(auto, unfolding(crate::specs::Read::verb_of))]
fn verb_of(word: &[u8], number: &[u8]) -> Option<Verb>
    ensures { result ≡ verb_of word.now number.now }
{
    if is_same_name(word, b"set") {
        let number = number_of(number)?;
        return Some(Verb::Set(number));
    }
    if is_same_name(word, b"add") {
        let number = number_of(number)?;
        return Some(Verb::Add(number));
    }
    None
}

/// The verb without a number.
#[tactic(auto, unfolding(crate::specs::Read::read_of))]
fn read_of(word: &[u8]) -> Option<Verb>
    ensures { result ≡ read_of word.now }
{
    if is_same_name(word, b"read") {
        Some(Verb::Read)
    } else {
        None
    }
}

#[tactic(auto, unfolding(crate::specs::Read::entry_of))]
fn entry_of<'a>(
    job: &'a [u8],
    session: &[u8],
    part: &[u8],
    verb: Option<Verb>,
    is: &[u8],
    value: &[u8],
) -> Option<Form<'a>>
    ensures { MatchOption result (entry_of job.now session.now part.now verb is.now value.now ≡ None)
        (λ form. entry_of job.now session.now part.now verb is.now value.now ≡ Some (line_text form)) }
{
    if !is_name(job) || !is_same_name(is, b"=") {
        return None;
    }
    let verb = verb?;
    let session = number_of(session)?;
    let (place, length) = part_of(part)?;
    let value = number_of(value)?;
    Some(Form::Entry(EntryLine {
        job,
        session,
        place,
        length,
        verb,
        value,
    }))
}

/// `job NAME sessions D of S`.
#[tactic(auto, unfolding(crate::specs::Read::done_of))]
fn done_of<'a>(
    job: &[u8],
    name: &'a [u8],
    word: &[u8],
    done: &[u8],
    of_word: &[u8],
    sessions: &[u8],
) -> Option<(&'a [u8], u32, u32)>
    ensures { option_map head_text result ≡ done_of job.now name.now word.now done.now of_word.now sessions.now }
{
    if !is_same_name(job, b"job") || !is_name(name) {
        return None;
    }
    if !is_same_name(word, b"sessions") || !is_same_name(of_word, b"of") {
        return None;
    }
    let done = number_of(done)?;
    let sessions = number_of(sessions)?;
    Some((name, done, sessions))
}

/// `withdrawn X`.
#[tactic(auto, unfolding(crate::specs::Read::withdrawn_of))]
fn withdrawn_of(word: &[u8], number: &[u8]) -> Option<Option<u32>>
    ensures { result ≡ withdrawn_of word.now number.now }
{
    if !is_same_name(word, b"withdrawn") {
        return None;
    }
    let withdrawn = number_of(number)?;
    Some(Some(withdrawn))
}

/// `retired` or `waiting`.
#[tactic(auto, unfolding(crate::specs::Read::state_of))]
fn state_of(word: &[u8]) -> Option<bool>
    ensures { result ≡ state_of word.now }
{
    if is_same_name(word, b"retired") {
        Some(true)
    } else if is_same_name(word, b"waiting") {
        Some(false)
    } else {
        None
    }
}

/// `meals M STATE`.
#[tactic(auto, unfolding(crate::specs::Read::meals_of))]
fn meals_of(word: &[u8], number: &[u8], state: &[u8]) -> Option<(u32, bool)>
    ensures { result ≡ meals_of word.now number.now state.now }
{
    if !is_same_name(word, b"meals") {
        return None;
    }
    let meals = number_of(number)?;
    let is_retired = state_of(state)?;
    Some((meals, is_retired))
}

#[tactic(auto, unfolding(crate::specs::Read::job_of))]
fn job_of<'a>(
    head: Option<(&'a [u8], u32, u32)>,
    withdrawn: Option<Option<u32>>,
    tail: Option<(u32, bool)>,
) -> Option<Form<'a>>
    ensures { MatchOption result (job_of (option_map head_text head.entry) withdrawn tail ≡ None)
        (λ form. job_of (option_map head_text head.entry) withdrawn tail ≡ Some (line_text form)) }
{
    let (name, done, sessions) = head?;
    let withdrawn = withdrawn?;
    let (meals, is_retired) = tail?;
    Some(Form::Job(JobLine {
        name,
        done,
        sessions,
        withdrawn,
        meals,
        is_retired,
    }))
}

/// `job NAME sessions D of S`, from its words.
#[tactic(auto, using(crate::proofs::Lengths::six), unfolding(crate::specs::Read::head_of))]
fn head_of<'a>(words: &[&'a [u8]]) -> Option<(&'a [u8], u32, u32)>
    requires { length words.now ≡ 6 }
    ensures { option_map head_text result ≡ head_of (map (λ word. word.now) words.now) }
{
    done_of(words[0], words[1], words[2], words[3], words[4], words[5])
}

/// `withdrawn X`, from its words.
#[tactic(auto, using(crate::proofs::Lengths::two), unfolding(crate::specs::Read::middle_of))]
fn middle_of(words: &[&[u8]]) -> Option<Option<u32>>
    requires { length words.now ≡ 2 }
    ensures { result ≡ middle_of (map (λ word. word.now) words.now) }
{
    withdrawn_of(words[0], words[1])
}

/// `meals M STATE`, from its words.
#[tactic(auto, using(crate::proofs::Lengths::three), unfolding(crate::specs::Read::tail_of))]
fn tail_of(words: &[&[u8]]) -> Option<(u32, bool)>
    requires { length words.now ≡ 3 }
    ensures { result ≡ tail_of (map (λ word. word.now) words.now) }
{
    meals_of(words[0], words[1], words[2])
}

/// The line with these words, if it is no job's.
#[tactic(auto, unfolding(crate::specs::Read::short_line), using(crate::proofs::Lengths::other_short))]
fn short_line<'a>(words: &[&'a [u8]]) -> Option<Form<'a>>
    ensures { MatchOption result (short_line (map (λ word. word.now) words.now) ≡ None)
        (λ form. short_line (map (λ word. word.now) words.now) ≡ Some (line_text form)) }
{
    match words {
        [word] => last_of(word),
        [word, version] => header_of(word, version),
        [word, name, entries] => instrument_of(word, name, entries),
        [job, session, part, verb, is, value] => {
            entry_of(job, session, part, read_of(verb), is, value)
        }
        [job, session, part, verb, number, is, value] => {
            entry_of(job, session, part, verb_of(verb, number), is, value)
        }
        [] => None,
        [_, _, _, _] => None,
        [_, _, _, _, _] => None,
        [_, _, _, _, _, _, _, _, ..] => None,
    }
}

/// The line with these words.
pub(crate) fn line_of<'a>(words: &[&'a [u8]]) -> Option<Form<'a>>
    ensures { MatchOption result (line_of (map (λ word. word.now) words.now) ≡ None)
        (λ form. line_of (map (λ word. word.now) words.now) ≡ Some (line_text form)) }
{
    if words.len() == 9 {
        let head = head_of(&words[..6]);
        return job_of(head, Some(None), tail_of(&words[6..]));
    }
    if words.len() == 11 {
        let head = head_of(&words[..6]);
        let withdrawn = middle_of(&words[6..8]);
        return job_of(head, withdrawn, tail_of(&words[8..]));
    }
    short_line(words)
}
