// Elements alone in the algebra.
ghost use Rattle.std.specs.Prelude.{ℕ};
ghost use Rattle.level.specs.Laws.{Arithmetic, Laws};
ghost use Rattle.tensor_algebra.specs.Legs.{Legs};

// One of the algebra is the element one alone, and an exterior product is either element alone, times the other on its own leg.
pub fn legs_stand()
    ensures { (k : ℕ) (A : Arithmetic k) → Laws A → Legs A }
{}
