// Laws over trees, each as the contract of a function that does nothing.
ghost use Rattle.fs_mem.specs.Laws.{FaultsComeInOrder, EntriesStand};

/// The fault of a list with one entry more is that of the list, or else that of the entry behind all of the list.
pub fn faults_come_in_order()
    ensures { FaultsComeInOrder }
{}

/// Where a list of entries was put in, the root and the paths of the entries stand, and no others.
pub fn entries_stand()
    ensures { EntriesStand }
{}
