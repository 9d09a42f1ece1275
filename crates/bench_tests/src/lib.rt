//! Tests of the shared bench over public calls alone: words, single calls on desks, turns one after another, rounds, threads and their gates,
//! the bell; and that each law about them can be called.
#![tactic(auto)]

#[cfg(test)]
mod bells;
#[cfg(test)]
mod calls;
#[cfg(test)]
mod cases;
#[cfg(test)]
mod closes;
#[cfg(test)]
mod desks;
#[cfg(test)]
mod gates;
#[cfg(test)]
mod hurried_teams;
#[cfg(test)]
mod labs;
#[cfg(test)]
mod laws;
#[cfg(test)]
mod lines;
#[cfg(test)]
mod memory;
#[cfg(test)]
mod owners;
#[cfg(test)]
mod pairs;
#[cfg(test)]
mod rows;
#[cfg(test)]
mod seats;
#[cfg(test)]
mod sleepers;
#[cfg(test)]
mod sleeping_teams;
#[cfg(test)]
mod tables;
#[cfg(test)]
mod teams;
#[cfg(test)]
mod visits;
#[cfg(test)]
mod whole_turns;
#[cfg(test)]
mod words;
