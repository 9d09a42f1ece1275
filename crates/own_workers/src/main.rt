//! An example to copy: four jobs, each with a thread that owns its desk, works while it holds its instruments, and serves its
//! neighbours meanwhile.
#![tactic(auto)]

mod lab;
mod shop;
mod work;

use desk_user::{Bell, on_threads, open};
use edge_rule::{Closed, Desk};
use lab::{INSTRUMENTS, JOBS, planned};
use lab_plan::{InstrumentNo, JobNo, Plan};
use shop::Shop;
use std::alloc::Global;
use std::io;
use std::sync::Wait;
use std::thread::Threads;
use work::Owners;

#[derive(Debug, Drop)]
enum Stopped {
    NoPlan,
    NoMemory,
    NotPrinted(io::Error),
}

fn name_at(names: &'static [&'static str], number: usize) -> &'static str {
    match names.get(number) {
        Some(name) => name,
        None => "?",
    }
}

/// How long each waited differs from run to run, so it goes to standard error.
fn tell_turns(rt: &impl Eprint, desks: &[Desk], shop: &Shop) -> io::Result<()> {
    for desk in desks {
        let job = desk.job();
        let name = name_at(&JOBS, usize::from(job.0));
        let turns = desk.turns();
        let waited = shop.turns_waited(job);
        eprintln!(rt; "{name}: {turns} turns, of which it waited {waited}")?;
    }
    Ok(())
}

fn print_jobs(rt: &impl Print, closed: &Closed) -> io::Result<()> {
    for number in 0..closed.plan().jobs() {
        let job = JobNo(number as u8);
        let name = name_at(&JOBS, number);
        let sessions = closed.sessions_done(job);
        let retired = closed.retired(job);
        println!(rt; "{name}: {sessions} sessions done, retired {retired}")?;
    }
    Ok(())
}

fn print_instruments(rt: &impl Print, closed: &Closed, shop: &Shop) -> io::Result<()> {
    for number in 0..closed.plan().instruments() {
        let name = name_at(&INSTRUMENTS, number);
        let held = shop.times_held(number);
        let clashes = shop.clashes(number);
        let dial = closed.log(InstrumentNo(number as u8)).value();
        println!(rt; "{name}: held {held} times, by two at once {clashes} times, dial {dial}")?;
    }
    Ok(())
}

fn print_all(rt: &impl Print, closed: &Closed, shop: &Shop) -> io::Result<()> {
    print_jobs(rt, closed)?;
    print_instruments(rt, closed, shop)
}

/// A bench at which each owner has worked, closed.
fn worked<'p, R: Threads + Wait + Sync + Eprint>(
    rt: &R,
    alloc: Global,
    plan: &'p Plan,
    shop: &Shop,
) -> Result<Closed<'p>, Stopped> {
    let (bench, mut desks) = open(alloc, plan).map_err(|_| Stopped::NoMemory)?;
    let bell = Bell::new();
    let owners = Owners {
        rt,
        shop,
        bell: &bell,
    };
    // Each desk is worked at by a thread of its own; all have ended when this returns.
    on_threads(rt, &bench, desks.as_mut_slice(), &owners);
    tell_turns(rt, desks.as_slice(), shop).map_err(Stopped::NotPrinted)?;
    match bench.close(alloc, desks) {
        Ok(closed) => Ok(closed),
        Err(_) => Err(Stopped::NoMemory),
    }
}

fn run<R: Threads + Wait + Sync + Print + Eprint>(rt: &R, alloc: Global) -> Result<(), Stopped> {
    let Some(plan) = planned(alloc) else {
        return Err(Stopped::NoPlan);
    };
    let shop = Shop::new();
    let closed = worked(rt, alloc, &plan, &shop)?;
    print_all(rt, &closed, &shop).map_err(Stopped::NotPrinted)
}

fn main(rt: HostRuntime) -> Result<(), Stopped> {
    run(&rt, rt.alloc())
}
