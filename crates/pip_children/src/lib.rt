//! Children of the root of an image, and how a command on them ends: an image with room for them is read, they are
//! built, and they are run by what a [`Scheduling`] decides.
//!
//! A schedule (specs/Children) is what is done from the world in which the children are built, and how many steps that
//! has. [`children`] is the command of any schedule, and what is due of it follows from the schedule alone
//! (`schedule_due`). `loading` judges the frames of the header before the rest is read (`LoadsNative`), and `showing`
//! builds the children and has the scheduling make their steps (`ShowsChildren`).
#![tactic(auto)]

mod command;
mod loading;
mod scheduling;
mod showing;
mod text;

pub use command::{MAX_CHILDREN, children};
pub use scheduling::Scheduling;
