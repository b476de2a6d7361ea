//! Tests of the public calls of pip_base, pip_entry, pip_frames, pip_table, pip_config and pip_tlb, and of the rows of
//! pip_space; and worked examples of the model, each computed from its definitions by a lemma of proofs/.
#![tactic(auto)]

#[cfg(test)]
mod base;
#[cfg(test)]
mod compare;
#[cfg(test)]
mod config;
#[cfg(test)]
mod entry;
#[cfg(test)]
mod frames;
#[cfg(test)]
mod space;
#[cfg(test)]
mod table;
#[cfg(test)]
mod tlb;
