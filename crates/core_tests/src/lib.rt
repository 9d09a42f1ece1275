//! Tests over public calls alone: of plans, logs, pairs of jobs, states and packed words; of the texts in which they are read and written; of
//! worlds that step, and of what a job that waits can count on.
#![tactic(auto)]

#[cfg(test)]
mod asked;
#[cfg(test)]
mod benches;
#[cfg(test)]
mod blocks;
#[cfg(test)]
mod faults;
#[cfg(test)]
mod heaps;
#[cfg(test)]
mod logs;
#[cfg(test)]
mod longer;
#[cfg(test)]
mod outside;
#[cfg(test)]
mod pairs;
#[cfg(test)]
mod plans;
#[cfg(test)]
mod rows;
#[cfg(test)]
mod settled;
#[cfg(test)]
mod states;
#[cfg(test)]
mod steps;
#[cfg(test)]
mod texts;
#[cfg(test)]
mod waits;
#[cfg(test)]
mod words;
