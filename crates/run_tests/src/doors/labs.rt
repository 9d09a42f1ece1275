//! Calls on a lab that C has in another form: a session that comes as its commands, and a journal that is taken at once.
use crate::rows::check;
use lab_journal::{open_kept, take_journal};
use lab_plan::{InstrumentNo, Verb};
use live_lab::{AddRefusal, Lab};
use std::alloc::Global;
use std::process::Abort;
use std::rt::HostRuntime;

/// The scale is at job a at first.
const SCRIPT: &[u8] =
    b"lab 2\njob a\nsession\nscale add 1\nend\njob b\nsession\nscale set 5\nend\n";

/// Job a looks, becomes thirsty and drinks. The sum was reckoned by another program.
const FIRST: &[u8] = b"#steps\nlook a b\nthirst a\ndrink a\n#sum 4604f7d28fdeb577\n";

fn takes(rt: &impl Abort, alloc: Global, lab: &mut Lab, wanted: &[u8]) {
    match take_journal(lab, alloc) {
        Ok(text) => check(rt, "journal", text.as_slice(), wanted),
        Err(_) => panic!(rt; "not taken"),
    }
}

/// A session of one command on the scale comes to the job, or why it doesn't.
fn comes(rt: &impl Abort, lab: &mut Lab, job: usize, wanted: Option<Result<(), AddRefusal>>) {
    let came = lab.add_session(job, Some(3), &[(InstrumentNo(0), Verb::Read)]);
    check(rt, job, came, wanted);
}

/// None comes to a job that isn't there, nor to one that has retired.
fn sessions_come(rt: &impl Abort, lab: &mut Lab) {
    comes(rt, lab, 2, None);
    comes(rt, lab, 1, Some(Ok(())));
    check(rt, "sessions", lab.session(1, 2).is_some(), true);
    check(rt, "no more", lab.session(1, 3).is_none(), true);
    let _ = lab.end(0);
    let _ = lab.retire(0, 9);
    comes(rt, lab, 0, Some(Err(AddRefusal::HasRetired)));
}

#[test]
fn take_and_come(rt: HostRuntime) {
    match open_kept(rt.alloc(), SCRIPT) {
        Ok(mut lab) => {
            let _ = lab.settle(1);
            takes(&rt, rt.alloc(), &mut lab, FIRST);
            takes(&rt, rt.alloc(), &mut lab, b"");
            sessions_come(&rt, &mut lab);
        }
        Err(_) => panic!(rt; "no lab"),
    }
}

/// Each session can be given up.
const PATIENT: &[u8] =
    b"lab 2\njob a\nsession patience 9\nscale add 1\nend\njob b\nsession patience 9\nscale set 5\nend\nsession patience 9\nscale read\nend\n";

/// The next session of a job outside is skipped, and the one behind it; none of a job that holds, or has none left.
fn skips(rt: &impl Abort, lab: &mut Lab) {
    lab.set_overtakes(4);
    check(rt, "a holds", lab.settle(1).holds, 1);
    check(rt, "b waits", lab.settle(2).none_left, 0);
    check(rt, "outside", lab.outside(1), Some(Some(0)));
    check(rt, "a skips", lab.skip(0), Some(false));
    check(rt, "b skips", lab.skip(1), Some(true));
    check(rt, "not outside", lab.outside(1), Some(None));
    check(rt, "b waits again", lab.settle(2).none_left, 0);
    check(rt, "outside again", lab.outside(1), Some(Some(0)));
    check(rt, "b skips again", lab.skip(1), Some(true));
    check(rt, "b has none", lab.skip(1), Some(false));
    check(rt, "c isn't there", lab.skip(2), None);
    let came = lab.settle(2);
    check(rt, "none left", came.none_left, 2);
    check(rt, "a holds on", came.holds, 1);
}

#[test]
fn skip(rt: HostRuntime) {
    match Lab::open(rt.alloc(), PATIENT) {
        Ok(mut lab) => skips(&rt, &mut lab),
        Err(_) => panic!(rt; "no lab"),
    }
}
