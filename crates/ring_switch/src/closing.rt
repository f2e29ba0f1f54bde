// The closing value at the point where a slot's claim ends.
ghost use Rattle.ring_switch.specs.BatchingLaws.{ClosingElementsAreTensors, ClosingIsMultilinear};

// The closing elements are sums of exterior products over the slot's hypercube.
pub fn closing_elements_are_tensors()
    ensures { ClosingElementsAreTensors }
{}

// The closing value is the multilinear value of the slot's weights.
pub fn closing_is_multilinear()
    ensures { ClosingIsMultilinear }
{}
