// The worked bridges, on one contract.
ghost use Rattle.worked_bridges.specs.Bridges.{WorkedBridges};

/// Answers worked by hand are right by the definitions that the contracts of list and best cite. That no other least and no other
/// list is right follows from these definitions; which crowded interval is shown they leave open. Nothing is computed here: the
/// contract is the fact.
pub fn worked_bridges()
    ensures { WorkedBridges }
{}
