//! The commands, one file each.
pub mod asm;
pub mod audit;
pub mod dis;
pub mod native;
pub mod run;
pub mod script;
pub mod soak;
