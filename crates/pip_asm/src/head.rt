//! The head of an image.
ghost use Rattle.std.specs.Prelude.{◌≡◌, ◌≤◌, ◌++◌, ◌∷◌, [], length, OnOk};
ghost use Rattle.pip_model.specs.Images.{bytes_of, magic};
ghost use Rattle.pip_model.specs.Assembly.{plan_words};

use crate::words::push_word;
use pip_base::Plan;
use std::alloc::AllocError;

#[tactic(auto, using(crate::proofs::Emitting::three_words))]
fn push_plan(bytes: &mut Vec<u8>, plan: &Plan) -> Result<(), AllocError>
    ensures { OnOk result
        (bytes.new.items ≡ bytes.old.items ++ bytes_of (plan.now.line ∷ plan.now.first ∷ plan.now.period ∷ [])) }
{
    push_word(bytes, plan.line)?;
    push_word(bytes, plan.first)?;
    push_word(bytes, plan.period)
}

// The words of plans, of which there are 16 at most.
#[tactic(auto, using(crate::proofs::Emitting::plan_more))]
fn push_plans(bytes: &mut Vec<u8>, plans: &[Plan]) -> Result<(), AllocError>
    ensures { OnOk result (bytes.new.items ≡ bytes.old.items ++ bytes_of (plan_words plans.now)) }
{
    match plans {
        [] => Ok(()),
        [plan, rest @ ..] => {
            push_plan(bytes, plan)?;
            push_plans(bytes, rest)?;
            Ok(())
        }
    }
}

/// The magic and the fields before the pages, of which there are none so far.
pub fn push_head(
    bytes: &mut Vec<u8>,
    frames: u32,
    cpus: u32,
    plans: &[Plan],
) -> Result<(), AllocError>
    requires { length plans.now ≤ 16 }
    ensures { OnOk result
        (bytes.new.items ≡ bytes.old.items ++ (magic ++ bytes_of
        (frames ∷ cpus ∷ length plans.now ∷ 0 ∷ plan_words plans.now))) }
{
    bytes.extend_from_slice(b"PIPIMG2\n")?;
    push_four(bytes, frames, cpus, plans.len() as u32, 0)?;
    push_plans(bytes, plans)?;
    Ok(())
}

#[tactic(auto, using(crate::proofs::Emitting::four_words))]
fn push_four(bytes: &mut Vec<u8>, a: u32, b: u32, c: u32, d: u32) -> Result<(), AllocError>
    ensures { OnOk result (bytes.new.items ≡ bytes.old.items ++ bytes_of (a ∷ b ∷ c ∷ d ∷ [])) }
{
    push_word(bytes, a)?;
    push_word(bytes, b)?;
    push_word(bytes, c)?;
    push_word(bytes, d)
}
