//! What the calls for C stand on, and don't show.

mod labs;
mod parts;
mod texts;
