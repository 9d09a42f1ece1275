//! Boxes that are taken apart, words that are exchanged, and a handle that has nothing.
use crate::rows::check;
use bench_calls::{Handle, free};
use box_parts::{Parts, exchange};
use std::rt::HostRuntime;

#[test]
fn takes_a_box_apart(rt: HostRuntime) {
    let Ok(whole) = Box::new(rt.alloc(), 7u32) else {
        panic!(rt; "no box");
    };
    let again = Parts::of(whole).into_box();
    check(&rt, "box", *again, 7);
}

#[test]
fn a_word_is_exchanged(rt: HostRuntime) {
    let mut word = 5;
    check(&rt, 1, exchange(&mut word, 4, 9), 5);
    check(&rt, 2, word, 5);
    check(&rt, 3, exchange(&mut word, 5, 9), 5);
    check(&rt, 4, word, 9);
}

/// C makes such a handle of zeros.
#[test]
fn a_handle_has_nothing(rt: HostRuntime) {
    let mut bench = Handle::vacant();
    check(&rt, "free", free(rt.alloc(), &mut bench), 7);
}
