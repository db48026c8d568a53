//! What locks on files and leaves come to on each leaf.
ghost use Rattle.alp_files.specs.Holdings.{IsAgreementOfLeaves};

/// Locks that agree on each resource leave modes that agree on each leaf, where each lock on a leaf
/// has the intention beside it on its file.
///
/// That is why an intention is enough to keep two transactions apart of which one locks a file and
/// the other a leaf of it (Gray, Lorie, Putzolu and Traiger 1976).
pub fn agreeing_locks_agree_on_leaves()
    ensures { IsAgreementOfLeaves }
{}
