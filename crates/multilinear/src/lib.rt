// Sums, equality tables, multilinear values and packed tables of bits, over any level: definitions and the laws that join them.
// A theorem is the contract of a function that does nothing else.
#![tactic(auto)]

ghost use Rattle.std.specs.Prelude.{ℕ};
ghost use Rattle.level.specs.Laws.{Arithmetic, Laws};
ghost use Rattle.multilinear.specs.Factored.{Factored};

// The entries of an equality table factor.
pub fn tables_factor()
    ensures { (k : ℕ) (A : Arithmetic k) → Laws A → Factored A }
{}
