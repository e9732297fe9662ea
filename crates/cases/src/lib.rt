#![tactic(auto)]
// Worked cases, settled by the very definitions that the calls' contracts cite.
ghost use Rattle.cases.specs.Starred.{Starred};
ghost use Rattle.cases.specs.Exhibits.{Exhibits};

// The cases of the list hold.
pub fn starred()
    ensures { Starred }
{}

// There are calm chains that end, and chains that have a running head one calm round before each bound.
pub fn exhibits()
    ensures { Exhibits }
{}
