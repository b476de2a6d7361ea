//! Tests of the commands on scripts, images and assembly texts, of loads, and of the words of the command line.
#![tactic(auto)]

#[cfg(test)]
mod asm;
#[cfg(test)]
mod audit;
#[cfg(test)]
mod dis;
#[cfg(test)]
mod ends;
#[cfg(test)]
mod native;
#[cfg(test)]
mod run;
#[cfg(test)]
mod script;
#[cfg(test)]
mod script_ends;
#[cfg(test)]
mod soak;
#[cfg(test)]
mod top;
