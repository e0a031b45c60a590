//! What holds of the runs of a listing. Each function does nothing: its contract is the law, which
//! a proof elsewhere can cite.

ghost use Rattle.sequence_scan.specs.Laws.{MembersFollow, EachInOneRun, MembersByFirst, FirstStays, OnePredecessor};

/// A run's first member begins it, and each other member is the one whose predecessor is the member
/// before.
pub fn members_follow()
    ensures { MembersFollow }
{}

/// Each frame is in exactly one run.
pub fn each_in_one_run()
    ensures { EachInOneRun }
{}

/// A run has the frames whose first place is the run's.
pub fn members_by_first()
    ensures { MembersByFirst }
{}

/// What is listed after a frame doesn't change where its run begins.
pub fn first_stays()
    ensures { FirstStays }
{}

/// A name has at most one predecessor.
pub fn one_predecessor()
    ensures { OnePredecessor }
{}
