use crate::faults::JobFault;

// What a job answers to a call that it does not refuse: a step is done, a claim, a sum, a weight and a closing value are elements, and the
// weights are counted.
#[derive(Clone, Copy)]
pub enum Answer<L> {
    Done,
    Element(L),
    Count(usize),
}

// What a job answers to a call.
pub type Outcome<L> = Result<Answer<L>, JobFault>;
