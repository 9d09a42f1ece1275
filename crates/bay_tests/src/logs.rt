//! The log: its lines as they are written and read. Their sums are those of another SHA-256.
ghost use Rattle.bay_log.specs.Reads.{IsSound};

use crate::rows::check;
use bay_log::{Entry, Fault, Found, Line, Log, Text, holders, is_text, read};
use std::alloc::Global;
use std::process::Abort;
use std::rt::HostRuntime;

/// The head of the bay whose hash is the bytes 0 to 31, and a hold of ask 5.
const HEAD: &[u8] =
    b"8eb4f416f9f7a970 bay 000102030405060708090a0b0c0d0e0f101112131415161718191a1b1c1d1e1f 0000000000000000 0000000000000000 0000000000000000\n";

const HOLD: &[u8] =
    b"ee5f183f5fb67013 hold 0000000000000005 00000000 0000000000000003 00000000000000070000000000000009 0000000000000004 0000000000000006 0000000000000002 0000000000000008\n";

/// A head as it was before there were tokens, with its own sum.
const OLDER_HEAD: &[u8] =
    b"d6e9de791de0e594 bay 000102030405060708090a0b0c0d0e0f101112131415161718191a1b1c1d1e1f 0000000000000000 0000000000000000\n";

/// Both, and a line that is torn.
pub(crate) const FILE: &[u8] =
    b"8eb4f416f9f7a970 bay 000102030405060708090a0b0c0d0e0f101112131415161718191a1b1c1d1e1f 0000000000000000 0000000000000000 0000000000000000\nee5f183f5fb67013 hold 0000000000000005 00000000 0000000000000003 00000000000000070000000000000009 0000000000000004 0000000000000006 0000000000000002 0000000000000008\n27fe3f";

pub(crate) const BAY: [u8; 32] = [
    0, 1, 2, 3, 4, 5, 6, 7, 8, 9, 10, 11, 12, 13, 14, 15, 16, 17, 18, 19, 20, 21, 22, 23, 24, 25,
    26, 27, 28, 29, 30, 31,
];

pub(crate) const OWNER: u128 = 0x7_0000_0000_0000_0009;

/// Instruments 0 and 1 in class 0, since 4, for 6, with token 8; it asked at 2.
const ENTRY: Entry = Entry {
    class: 0,
    needs: 3,
    owner: OWNER,
    since: 4,
    limit: Some(6),
    asked: 2,
    token: 8,
};

/// Head and hold are written one after the other; the hold is handed out again if its write fails.
fn write(rt: &impl Abort, log: &mut Log) {
    check(rt, "head", log.unsent(), HEAD);
    check(rt, "its end", log.position(), 137);
    log.send();
    check(
        rt,
        "hold",
        log.add(&Line::Hold {
            ask: 5,
            entry: ENTRY,
        })
        .is_ok(),
        true,
    );
    check(rt, "all", log.position(), 303);
    check(rt, "what is new", log.unsent(), HOLD);
    log.reach(137);
    check(rt, "durable", log.durable(), 137);
    log.send();
    check(rt, "nothing", log.unsent(), b"".as_slice());
    log.failed();
    check(rt, "again", log.unsent(), HOLD);
}

#[test]
fn write_lines(rt: HostRuntime) {
    match Log::begin(rt.alloc(), BAY, 0, 0, 0) {
        Ok(mut log) => write(&rt, &mut log),
        Err(_) => panic!(rt; "no log"),
    }
}

/// Whoever holds by the lines.
fn hold(rt: &impl Abort, alloc: Global, found: &Found)
    requires { IsSound found.now }
{
    check(rt, "used", found.used, 303);
    match holders(alloc, &found.lines) {
        Ok(held) => check(
            rt,
            "held",
            held.as_slice().first().map(|it| (it.ask, it.entry)),
            Some((5, ENTRY)),
        ),
        Err(_) => panic!(rt; "no memory"),
    }
    match Log::resume(alloc, found) {
        Some(log) => check(rt, "goes on", (log.position(), log.durable()), (303, 303)),
        None => panic!(rt; "no place"),
    }
}

/// What is torn isn't read; a hold alone is no file.
#[test]
fn read_lines(rt: HostRuntime) {
    match read(rt.alloc(), FILE) {
        Ok(found) => hold(&rt, rt.alloc(), &found),
        Err(_) => panic!(rt; "not read"),
    }
    let fault = read(rt.alloc(), HOLD).err();
    check(&rt, "no head", fault, Some(Fault::Wrong(1)));
}

/// A head that says no largest token is of an older labrun, and none.
#[test]
fn read_older_heads(rt: HostRuntime) {
    let fault = read(rt.alloc(), OLDER_HEAD).err();
    check(&rt, "no token", fault, Some(Fault::Wrong(1)));
}

#[test]
fn texts(rt: HostRuntime) {
    check(&rt, "plain", is_text(b"volts 3"), true);
    check(&rt, "two lines", is_text(b"a\nb"), false);
    if is_text(b"volts 3") {
        match Text::new(rt.alloc(), b"volts 3") {
            Ok(text) => check(&rt, "its bytes", text.as_bytes(), b"volts 3".as_slice()),
            Err(_) => panic!(rt; "no memory"),
        }
    }
}
