//! Laws of whose a LID is. The functions do nothing; their clauses are the theorems.

ghost use Rattle.audit_net.specs.OwnerLaws.{OwnersAreFound};

/// Whose a LID is a row says first, and if no row does the discovery, of a port to which no row gives another LID.
pub fn owners_are_found()
    ensures { OwnersAreFound }
{}
