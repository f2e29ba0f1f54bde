// A call on a job, with what it is given.
#[derive(Clone, Copy)]
pub enum Call<'a, L> {
    // The bytes of a table of bits.
    Pack(&'a [u8]),
    Open(&'a [L]),
    // The point, and how many row variables the view names.
    OpenWithSuccessor(&'a [L], usize),
    Work,
    Batch(&'a [L]),
    // The batching point, and the challenge.
    BatchWithSuccessor(&'a [L], L),
    IncomingClaim,
    SuccessorClaim,
    InitialSum,
    WeightCount,
    Weight(usize),
    ClosingValue(&'a [L]),
}
