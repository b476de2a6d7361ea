//! The commands, one file each.
pub mod against;
pub mod apart;
pub mod every;
