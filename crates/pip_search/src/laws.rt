//! Laws of searches. They compute nothing: what each says is its contract.
ghost use Rattle.pip_search.specs.Certificates.{CertificatesCountAll, CertificatesSayAll};
ghost use Rattle.pip_search.specs.Comes.{ComingIsNotAvoided};
ghost use Rattle.pip_search.specs.Merging.{ListsMerge};
ghost use Rattle.pip_search.specs.Summary.{SaysOnce};

use crate::system::System;

/// The system, the first state, the depth that is asked for and the limit determine what a search says.
pub fn law_once<S: System>(_system: &S)
    ensures { SaysOnce (S.model (S.base _system.now)) }
{}

/// Parts of the states that choices lead to, each checked by itself, say together all that can happen, and count it.
pub fn law_certificates<S: System>(_system: &S)
    ensures all { CertificatesSayAll (S.model (S.base _system.now)) }
    ensures count { CertificatesCountAll (S.model (S.base _system.now)) }
    ensures merge { ListsMerge }
{}

/// Where a label comes, no loop of choices that has one of each class avoids it.
pub fn law_comes<S: System>(_system: &S)
    ensures { ComingIsNotAvoided (S.model (S.base _system.now)) }
{}
