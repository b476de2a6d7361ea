//! Laws of merging. They compute nothing: what each says is its contract.
ghost use Rattle.pip_certificates.specs.MergeLaw.{LinesOfPartsMerge, NoneIsLost};

use pip_search::System;

/// Where the lines of the texts of all parts, in any order, could be merged, and the merge is whole, the parts say all
/// that can happen, and what they count is what was merged.
pub fn law_merge<S: System>(_system: &S)
    ensures { LinesOfPartsMerge (S.model (S.base _system.now)) }
{}

/// Where lines of the texts of parts were lost, or others came, and a merge of what is there is whole, as many came as
/// were lost.
pub fn law_lost()
    ensures { NoneIsLost }
{}
