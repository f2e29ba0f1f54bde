// The laws of a job. Each is the contract of a function that does nothing else.
ghost use Rattle.std.specs.Prelude.{◌≡◌, ℕ, Some, None};
ghost use Rattle.job_rules.specs.Capacity.{capacity, CapacityIsLargest};
ghost use Rattle.job_rules.specs.Ledger.{CellsAreCounted};
ghost use Rattle.job_rules.specs.Fitting.{FittingStepsBatch};
ghost use Rattle.job_rules.specs.Lived.{AlwaysLived, WeightsAreTold};
ghost use Rattle.job_rules.specs.Reaching.{AllReached};
ghost use Rattle.job_rules.specs.Tensors.{AlwaysByTensors};

// The capacity is the largest number of coordinates whose budget so many elements meet, with figures of the tower byte.
pub fn capacities_stand()
    ensures largest { (k size : ℕ) → CapacityIsLargest k size }
    ensures full { capacity 3 12583832 ≡ Some 24 }
    ensures thirteen { capacity 3 7053 ≡ Some 13 }
    ensures twelve { capacity 3 7052 ≡ Some 12 }
    ensures three { capacity 3 905 ≡ Some 3 }
    ensures none { capacity 3 904 ≡ None }
{}

// The log of a number of cells is that of every power of two.
pub fn cells_are_counted()
    ensures { CellsAreCounted }
{}

// What holds of a job's ledger after every list of requests.
pub fn jobs_reach()
    ensures { AllReached }
{}

// The law of every run: what the replies to a list of requests tell.
pub fn jobs_live()
    ensures { AlwaysLived }
{}

// Steps that fit one another are not refused, and the ledger has what they wrote.
pub fn fitting_steps_batch()
    ensures { FittingStepsBatch }
{}

// The answers are also those that the reduction forms: claims from the columns of tensors, and batched rows.
pub fn answers_are_reduced()
    ensures { AlwaysByTensors }
{}

// After any list that ends batched, the questions for each weight have every weight told at that ledger.
pub fn weights_are_told()
    ensures { WeightsAreTold }
{}
