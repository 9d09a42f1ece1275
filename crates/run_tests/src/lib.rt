//! Tests of what no run of a built program and no call for C shows: readers and writers that fail, memory that is refused, threads that meet,
//! answers that no output has. What runs and calls show stands in `checks/cases` and `checks/door`.
#![tactic(auto)]

#[cfg(test)]
mod doors;
#[cfg(test)]
mod rows;
#[cfg(test)]
mod runs;
#[cfg(test)]
mod views;
