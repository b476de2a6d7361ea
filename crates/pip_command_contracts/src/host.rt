//! The words that the host has.
use std::alloc::Global;
use std::env;
use std::rt::Env;

/// The words after the program's name. The error is the status: 10 where the runtime can't give them, 5 where there is
/// no memory for them.
pub fn command_line(rt: &(impl Env + AllocGlobal), alloc: Global) -> Result<Vec<String>, u8> {
    let mut words = Vec::new(alloc);
    let Ok(mut args) = env::args(rt) else {
        return Err(10);
    };
    let _program = args.next();
    for word in args {
        if words.push(word).is_err() {
            return Err(5);
        }
    }
    Ok(words)
}
