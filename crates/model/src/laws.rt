//! Laws of the history machine, each the contract of a function that does nothing.
ghost use Rattle.model.specs.Laws.{MinutesCompose, DeadlineSuffices, EmptyRepresentsFirst, NoTwoActive, AtMostTwoFirings, InForceIsRouted, BroadcastsFitActions, DownloadsFitActions, VersionIsShown, RefusedByOwnTests, FirstRefusalIsLeast, CopyIsPublished, CopyIsInForce, CopyIsHanded, QueueIsPending, InForceIsListed, SubjectsAreDistinct, DonationKeepsService, AssignmentKeepsService, ReleaseKeepsService, NoPortUnderBlock};

/// States the laws of minutes that a register with deadlines relies on.
pub fn laws_of_minutes()
    ensures compose { MinutesCompose }
    ensures deadline { DeadlineSuffices }
    ensures first { EmptyRepresentsFirst }
{}

/// States that in every reachable state a subject has at most one version in force and at most one
/// open. Beside an open one, the version in force is active.
pub fn law_of_service()
    ensures { NoTwoActive }
{}

/// States that, from every reachable state, at most two minutes change a subject's record until the
/// next request.
pub fn law_of_firings()
    ensures { AtMostTwoFirings }
{}

/// States what has a routing in every reachable state. Each version in force has one. A broadcast,
/// and its download, has one if it is a create or a modify, and none if it is a delete.
pub fn law_of_routing()
    ensures in_force { InForceIsRouted }
    ensures broadcasts { BroadcastsFitActions }
    ensures downloads { DownloadsFitActions }
{}

/// States that an accepted request on a version, or one that makes one, is answered with that
/// version as it is afterwards.
pub fn law_of_answers()
    ensures { VersionIsShown }
{}

/// States that in every reachable state a command on a version is refused by its own tests and no
/// others. The refusal of any input has the least number whose test holds.
pub fn law_of_refusals()
    ensures own { RefusedByOwnTests }
    ensures least { FirstRefusalIsLeast }
{}

/// States what a registered carrier's copy is, in every reachable state. If no download about a
/// subject is pending for the carrier, its copy of the subject is what was last published to it. If
/// nothing is pending for it and no broadcast is open, its copy is the routings of what is in
/// force. It is the copy that starts with the rows of the registration and takes each download of
/// its queue that the carrier acknowledged, in order.
pub fn law_of_copies()
    ensures published { CopyIsPublished }
    ensures in_force { CopyIsInForce }
    ensures handed { CopyIsHanded }
{}

/// States that a carrier's queue is ordered by minute, id and attempt. It has exactly the downloads
/// of broadcasts that were sent to the carrier, are not withdrawn, and that it has not
/// acknowledged.
pub fn law_of_queues()
    ensures { QueueIsPending }
{}

/// States that the list of what is in force has exactly the versions in force, ascending by
/// subject, without duplicates. The subjects of a queue are listed ascending, without duplicates.
pub fn law_of_lists()
    ensures in_force { InForceIsListed }
    ensures once { SubjectsAreDistinct }
{}

/// States when commands on a block keep the service of a number. A donation does not change who
/// serves a number that it names as used or that has a version in force. An assignment or a release
/// does not change who serves a number that has a version in force or a protective open one. While
/// a block has a version in force, none of its numbers has a protective open version.
pub fn law_of_blocks()
    ensures donation { DonationKeepsService }
    ensures assignment { AssignmentKeepsService }
    ensures release { ReleaseKeepsService }
    ensures port { NoPortUnderBlock }
{}
