//! Tests of the public calls of pip_kern, pip_mmu, pip_birth, pip_grow, pip_lend and pip_switch, on memories and
//! machines that boot here; of pip_parent, on such machines, and of pip_audit, on such memories and on texts of
//! memories.
#![tactic(auto)]

#[cfg(test)]
mod birth;
#[cfg(test)]
mod compare;
#[cfg(test)]
mod family;
#[cfg(test)]
mod grow;
#[cfg(test)]
mod judging;
#[cfg(test)]
mod kern;
#[cfg(test)]
mod lend;
#[cfg(test)]
mod mmu;
#[cfg(test)]
mod parent;
#[cfg(test)]
mod switch;
#[cfg(test)]
mod words;
