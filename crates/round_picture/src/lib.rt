//! The picture over time of a run by rounds, as SVG: its text is a function of the plan and of what is known of the run. First where a
//! round stands in a picture, what is drawn there of a session and of a meal, and what a session's tooltip says of it and of its
//! keepers; then the picture.
#![tactic(auto)]

mod gantt;
mod keepers;
mod laws;
mod meals;
mod scale;
mod sessions;
mod shapes;

pub use gantt::add_gantt;
pub use laws::pictures_are_narrow;
