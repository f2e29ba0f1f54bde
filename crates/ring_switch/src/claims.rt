ghost use Rattle.std.specs.Prelude.{ℕ, ◌≤◌, length};
ghost use Rattle.level.specs.Laws.{Arithmetic, Laws};
ghost use Rattle.ring_switch.specs.Opening.{Opening, named};
ghost use Rattle.ring_switch.specs.ClaimLaws.{Binary, IncomingIsMultilinear, SuccessorIsMultilinear};

// The columns of a table's tensor, against the equality table of the low coordinates, give the multilinear value of the table.
pub fn incoming_is_multilinear()
    ensures { (k : ℕ) (A : Arithmetic k) → Laws A → (bits : ℕ → ℕ) → Binary bits → (o : Opening k) → k ≤ length o.point → IncomingIsMultilinear A o bits }
{}

// The tensor, the carry and the last of a table give the multilinear value of the table one row on.
pub fn successor_is_multilinear()
    ensures { (k : ℕ) (A : Arithmetic k) → Laws A → (bits : ℕ → ℕ) → Binary bits → (o : Opening k)
        → k ≤ length o.point → named o.view ≤ length o.point → SuccessorIsMultilinear A o bits }
{}
