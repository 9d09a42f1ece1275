//! Tests over the public calls of the bay's crates: each call once with ample memory, by answers that were reckoned by hand. What comes of many calls is
//! tested through C (`checks/bay`), and so are the calls for C themselves.
#![tactic(auto)]

#[cfg(test)]
mod bays;
#[cfg(test)]
mod books;
#[cfg(test)]
mod lines;
#[cfg(test)]
mod logs;
#[cfg(test)]
mod rows;
#[cfg(test)]
mod turns;
