//! A script is cut into its head and a block of lines for each job. Comments directly above a job's line are the job's own.
ghost use Rattle.std.specs.Prelude.{◌≡◌, ◌≤◌, ◌<◌, ◌++◌, [], length, map, drop, slice_index_or, IfOk, MatchOption};
ghost use Rattle.std.specs.List.{All, flat_map, take_while};
ghost use Rattle.std.specs.Io.BufRead.{ends_with_byte};
ghost use Rattle.bstr.specs.Text.{lines_of};
ghost use Rattle.script_reader.specs.Fields.{is_gap};
ghost use Rattle.arranged_scripts.specs.Arranged.{with_line_end, HasOtherBlocks, MovesBlocks};
ghost use Rattle.arranged_scripts.specs.Blocks.{is_comment, is_job_line, BeginWithJob};
ghost use Rattle.arranged_scripts.specs.Cutting.{EndBefore, IsUpToJob, IsBehindJob, IsBlockLen, AreCutInto};

use bstr::ByteSlice;
use lab_plan::JobNo;
use std::alloc::{AllocError, Allocator};

/// How many spaces and tabs a line begins with.
fn gap_len(line: &[u8]) -> usize
    ensures value { result ≡ length (take_while is_gap line.now) }
    ensures most { result ≤ length line.now }
{
    line.iter()
        .take_while(|b| **b == b' ' || **b == b'\t')
        .count()
}

/// A line behind the spaces and tabs that it begins with.
#[tactic(auto, using(std::proofs::lemmas::List::take_rest))]
fn inked(line: &[u8]) -> &[u8]
    ensures { result.now ≡ drop (length (take_while is_gap line.now)) line.now }
{
    &line[gap_len(line)..]
}

fn is_comment(line: &[u8]) -> bool
    ensures { result ≡ is_comment line.now }
{
    inked(line).starts_with(b"#")
}

fn is_job_line(line: &[u8]) -> bool
    ensures { result ≡ is_job_line line.now }
{
    let ink = inked(line);
    ink.starts_with(b"job ") || ink.starts_with(b"job\t")
}

/// Where the block of the first job line begins, at the comments directly above it; or the end of the text.
fn up_to_job(text: &[u8]) -> usize
    ensures up { IsUpToJob (lines_of text.now) result }
    ensures most { result ≤ length text.now }
{
    let mut above = 0;
    let mut read = 0;
    for line in text.lines_with_terminator() {
        if is_job_line(line) {
            return above;
        }
        read += line.len();
        if !is_comment(line) {
            above = read;
        }
    }
    read
}

/// Where the line behind the first job line begins.
fn behind_job(text: &[u8]) -> usize
    requires { BeginWithJob (lines_of text.now) }
    ensures behind { IsBehindJob (lines_of text.now) result }
    ensures most { result ≤ length text.now }
{
    let mut read = 0;
    for line in text.lines_with_terminator() {
        read += line.len();
        if is_job_line(line) {
            return read;
        }
    }
    read
}

/// How long the block is that a text begins with.
fn block_len(text: &[u8]) -> usize
    requires { BeginWithJob (lines_of text.now) }
    ensures block { IsBlockLen (lines_of text.now) result }
    ensures some { 0 < result }
    ensures most { result ≤ length text.now }
{
    let own = behind_job(text);
    own + up_to_job(&text[own..])
}

/// The blocks of a text, one after another.
fn blocks_of<'a, A: Allocator>(alloc: A, text: &'a [u8]) -> Result<Vec<&'a [u8], A>, AllocError>
    requires { EndBefore [] (lines_of text.now) }
    ensures { IfOk result (λ blocks. AreCutInto (lines_of text.now) (map (λ block. block.now) blocks.items)) }
{
    let mut pieces = Vec::new(alloc);
    let mut rest = text;
    while !rest.is_empty() {
        let (block, more) = rest.split_at(block_len(rest));
        pieces.push(block)?;
        rest = more;
    }
    Ok(pieces)
}

/// The head, and the blocks of the jobs in this order.
fn joined<A: Allocator>(
    alloc: A,
    head: &[u8],
    blocks: &[&[u8]],
    order: &[JobNo],
) -> Result<Vec<u8, A>, AllocError>
    requires { All (λ job. job < length blocks.now) order.now }
    ensures { IfOk result (λ text. text.items ≡ head.now ++ flat_map (λ job. slice_index_or (map (λ block. block.now) blocks.now) job []) order.now) }
{
    let mut text = Vec::from_slice(alloc, head)?;
    for job in order {
        text.extend_from_slice(blocks[job.0 as usize])?;
    }
    Ok(text)
}

/// Whether the last line has its end.
fn has_line_end(text: &[u8]) -> bool
    ensures { result ≡ ends_with_byte 10 text.now }
{
    match text {
        [] => false,
        [.., last] => *last == b'\n',
    }
}

/// A text with an end for its last line.
#[tactic(auto, unfolding(crate::specs::Arranged::with_line_end))]
pub fn with_line_end<A: Allocator>(alloc: A, text: &[u8]) -> Result<Vec<u8, A>, AllocError>
    ensures { IfOk result (λ whole. whole.items ≡ with_line_end text.now) }
{
    let mut whole = Vec::from_slice(alloc, text)?;
    if !has_line_end(text) {
        whole.push(b'\n')?;
    }
    Ok(whole)
}

/// A text with the blocks of its jobs in this order, if it has one for each.
pub fn moved<A: Allocator + Copy>(
    alloc: A,
    text: &[u8],
    order: &[JobNo],
) -> Result<Option<Vec<u8, A>>, AllocError>
    requires { All (λ job. job < length order.now) order.now }
    ensures { IfOk result (λ made. MatchOption made (HasOtherBlocks text.now (length order.now)) (λ moved. MovesBlocks text.now order.now moved.items)) }
{
    let (head, rest) = text.split_at(up_to_job(text));
    let blocks = blocks_of(alloc, rest)?;
    if blocks.len() != order.len() {
        return Ok(None);
    }
    let made = joined(alloc, head, &blocks, order)?;
    Ok(Some(made))
}
