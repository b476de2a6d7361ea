//! The law on keys. It computes nothing: what it says is its contract.
ghost use Rattle.pip_every.specs.Laws.{KeysTellMoments, MomentsHaveOneKey};

/// Each moment has one key, and moments of one key are alike.
pub fn law_keys()
    ensures one { MomentsHaveOneKey }
    ensures alike { KeysTellMoments }
{}
