// Sums of weights over the set coordinates of an element.
ghost use Rattle.tensor_algebra.specs.Subsets.{SubsetSumsAreLinear, SubsetSumsByBytes};

// The sum is linear in the element, and at a scaled element the sum of the weights of the scaled basis.
pub fn subset_sums_are_linear()
    ensures { SubsetSumsAreLinear }
{}

// The sum goes byte by byte, and a byte's sum extends that of the byte without its lowest set bit.
pub fn subset_sums_by_bytes()
    ensures { SubsetSumsByBytes }
{}
