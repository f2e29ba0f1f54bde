// Cases worked by hand, and one by an independent program, as one list of theorems about the definitions.
#![tactic(auto)]

ghost use Rattle.worked.specs.Cases.{Worked};

pub fn worked_stands()
    ensures { Worked }
{}
