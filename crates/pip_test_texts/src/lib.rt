//! Tests of the public calls of pip_io, pip_script, pip_isa, pip_image, pip_asm, pip_dump and pip_soak, and of those
//! of pip_audit that read a text.
#![tactic(auto)]

#[cfg(test)]
mod asm;
#[cfg(test)]
mod compare;
#[cfg(test)]
mod core_text;
#[cfg(test)]
mod dis;
#[cfg(test)]
mod dump;
#[cfg(test)]
mod image;
#[cfg(test)]
mod io;
#[cfg(test)]
mod isa;
#[cfg(test)]
mod line;
#[cfg(test)]
mod script;
#[cfg(test)]
mod soak;
