ghost use Rattle.std.specs.Prelude.{ℕ, ◌≤◌, length};
ghost use Rattle.level.specs.Laws.{Arithmetic, Laws};
ghost use Rattle.ring_switch.specs.Opening.{Opening, named};
ghost use Rattle.ring_switch.specs.Slots.{Slot, SteppedSlot};

// The slot of an opening has every packed element that the kept coordinates give a weight, and so the whole of the tensor.
pub fn slots_stand()
    ensures { (k : ℕ) (A : Arithmetic k) → Laws A → (o : Opening k) → Slot A o }
{}

// The slot has whole columns of the row variables that the packing keeps, and so the whole of the carry and of the last.
pub fn stepped_slots_stand()
    ensures { (k : ℕ) (A : Arithmetic k) → Laws A → (o : Opening k) → named o.view ≤ length o.point → SteppedSlot A o }
{}
