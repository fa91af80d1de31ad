// Laws over the definitions of a file system, each as the contract of a function that does nothing.
ghost use Rattle.fs_state.specs.Laws.{CallsKeepWellFormed, ImagesAreWellFormed, ImagesAreSettled, EveryImageHasAPick};

/// Every call, whatever it answers, leaves a well-formed state well-formed.
pub fn calls_keep_well_formed()
    ensures { CallsKeepWellFormed }
{}

/// Every image of a well-formed state is well-formed.
pub fn images_are_well_formed()
    ensures { ImagesAreWellFormed }
{}

/// Every image is on the disk as it is now.
pub fn images_are_settled()
    ensures { ImagesAreSettled }
{}

/// Every image of a state is one that a pick names.
pub fn every_image_has_a_pick()
    ensures { EveryImageHasAPick }
{}
