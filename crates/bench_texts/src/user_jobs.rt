//! Which jobs have a line `uses`.
ghost use Rattle.std.specs.Prelude.{◌≡◌, IfOk};
ghost use Rattle.bench_texts.specs.Forms.{view};
ghost use Rattle.bench_texts.specs.Texts.{jobs_in, users as users_of};

use crate::form::{Form, Place, form_of};
use crate::texts::is_for_bench;
use bstr::ByteSlice;
use std::alloc::{AllocError, Allocator};

fn jobs_in(form: &Form) -> usize
    ensures { result ≡ jobs_in (view form.now) }
{
    match form {
        Form::Job => 1,
        _ => 0,
    }
}

/// The numbers of the jobs that get a first session by a line `uses`, in order. A text that isn't for a bench has none.
pub fn users<A: Allocator>(alloc: A, text: &[u8]) -> Result<Vec<usize, A>, AllocError>
    ensures { IfOk result (λ all. all.items ≡ users_of text.now) }
{
    let mut all = Vec::new(alloc);
    if !is_for_bench(text) {
        return Ok(all);
    }
    let mut place = Place::Head;
    let mut jobs = 0usize;
    for line in text.lines_with_terminator() {
        let form = form_of(line);
        if place.gives_session(&form) {
            all.push(jobs.saturating_sub(1))?;
        }
        jobs += jobs_in(&form);
        place = place.behind(&form);
    }
    Ok(all)
}
