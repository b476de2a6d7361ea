//! Tests of the lab's commands and of its words; of certificates lines that are read, and merges of a few of them, too.
#![tactic(auto)]

#[cfg(test)]
mod against;
#[cfg(test)]
mod apart;
#[cfg(test)]
mod compare;
#[cfg(test)]
mod ends;
#[cfg(test)]
mod every;
#[cfg(test)]
mod lines;
#[cfg(test)]
mod merge;
#[cfg(test)]
mod merges;
#[cfg(test)]
mod part;
#[cfg(test)]
mod slots;
#[cfg(test)]
mod top;
