//! How a handle gets a bay, and how that goes.
ghost use Rattle.std.specs.Prelude.{◌≡◌, IfOk, IfErr};
ghost use Rattle.bay_c.specs.Calls.{IsOpenedFor, IsInsideFor, IsWhyNotOpened, Opens, IsResumedFor, IsInsideBack, IsWhyNotBackFor, read, ComesFrom, Frees};

use crate::handle::{Handle, claim, put, release, take};
use crate::inside::Inside;
use crate::statuses::{NO_MEMORY, not_back_number, not_back_status, not_opened_status};
use crate::told::{BayClass, BayTerms, classes_of, terms_of};
use bay::{Bay, NotBack};
use std::alloc::Global;

/// A bay, or the status that says why not.
fn bay_for(alloc: Global, classes: &[BayClass], terms: &BayTerms) -> Result<Bay, u32>
    ensures opened { IfOk result (λ x. IsOpenedFor classes.now terms.now x) }
    ensures refused { IfErr result (λ status. IsWhyNotOpened classes.now status) }
{
    let Ok(made) = classes_of(alloc, classes) else {
        return Err(NO_MEMORY);
    };
    let limit = terms.line as usize;
    match Bay::open(
        alloc,
        made,
        terms_of(terms),
        limit,
        terms.overtakes,
        terms.bay,
    ) {
        Ok(bay) => Ok(bay),
        Err(why) => Err(not_opened_status(why)),
    }
}

/// The same, in a box.
fn boxed(alloc: Global, classes: &[BayClass], terms: &BayTerms) -> Result<Box<Inside, Global>, u32>
    ensures opened { IfOk result (λ b. IsInsideFor classes.now terms.now b.value) }
    ensures refused { IfErr result (λ status. IsWhyNotOpened classes.now status) }
{
    let bay = bay_for(alloc, classes, terms)?;
    match Box::new(alloc, Inside::Open(bay)) {
        Ok(inside) => Ok(inside),
        Err(_) => Err(NO_MEMORY),
    }
}

/// Opens a bay in which nobody has asked. A handle that is in use stays as it is.
#[unsafe(no_mangle)]
pub extern "C" fn lab_bay_open(
    alloc: Global,
    classes: &[BayClass],
    terms: &BayTerms,
    bay: &mut Handle,
) -> u32
    ensures { Opens classes.now terms.now bay.old.slot.held bay.new.slot.held result }
{
    if let Err(status) = claim(&bay.slot, &mut bay.live) {
        return status;
    }
    match boxed(alloc, classes, terms) {
        Ok(inside) => {
            put(&mut bay.slot, &mut bay.live, inside);
            0
        }
        Err(status) => {
            release(&mut bay.live);
            status
        }
    }
}

/// The bay that the journal tells of, and how many bytes were read.
fn bay_from(
    alloc: Global,
    classes: &[BayClass],
    terms: &BayTerms,
    journal: &[u8],
    now: u64,
) -> Result<(Bay, usize), NotBack>
    ensures back { IfOk result (λ r. IsResumedFor classes.now terms.now journal.now now r.0 r.1) }
    ensures why { IfErr result (λ why. IsWhyNotBackFor classes.now terms.now journal.now why) }
{
    let Ok(made) = classes_of(alloc, classes) else {
        return Err(NotBack::NoMemory);
    };
    let limit = terms.line as usize;
    let rules = terms_of(terms);
    Bay::resume(
        alloc,
        made,
        rules,
        limit,
        terms.overtakes,
        terms.bay,
        journal,
        now,
    )
}

/// The same, in a box.
fn boxed_from(
    alloc: Global,
    classes: &[BayClass],
    terms: &BayTerms,
    journal: &[u8],
    now: u64,
) -> Result<(Box<Inside, Global>, usize), NotBack>
    ensures back { IfOk result (λ r. IsInsideBack classes.now terms.now journal.now now r.0.value r.1) }
    ensures why { IfErr result (λ why. IsWhyNotBackFor classes.now terms.now journal.now why) }
{
    let (bay, used) = bay_from(alloc, classes, terms, journal, now)?;
    match Box::new(alloc, Inside::Open(bay)) {
        Ok(inside) => Ok((inside, used)),
        Err(_) => Err(NotBack::NoMemory),
    }
}

/// Opens the bay that a journal tells of: those hold that held by its lines. A handle that is in use stays as it is.
#[unsafe(no_mangle)]
pub extern "C" fn lab_bay_resume(
    alloc: Global,
    classes: &[BayClass],
    terms: &BayTerms,
    journal: &[u8],
    now: u64,
    bay: &mut Handle,
    used: &mut usize,
    fault: &mut u64,
) -> u32
    ensures { ComesFrom classes.now terms.now journal.now now bay.old.slot.held bay.new.slot.held (read used.old fault.old) (read used.new fault.new) result }
{
    if let Err(status) = claim(&bay.slot, &mut bay.live) {
        return status;
    }
    match boxed_from(alloc, classes, terms, journal, now) {
        Ok((inside, length)) => {
            put(&mut bay.slot, &mut bay.live, inside);
            *used = length;
            0
        }
        Err(why) => {
            release(&mut bay.live);
            *fault = not_back_number(why);
            not_back_status(why)
        }
    }
}

/// Frees the bay. The handle has nothing then.
#[unsafe(no_mangle)]
pub extern "C" fn lab_bay_free(alloc: Global, bay: &mut Handle) -> u32
    ensures { Frees bay.old.slot.held bay.new.slot.held result }
{
    match take(&mut bay.slot, &mut bay.live, alloc) {
        Ok(_) => {
            release(&mut bay.live);
            0
        }
        Err(status) => status,
    }
}
