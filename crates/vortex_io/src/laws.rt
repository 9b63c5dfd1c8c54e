// What callers of sources need of the definitions, each law the contract of a function that does nothing.
ghost use Rattle.vortex_io.specs.Laws.{HoldsOfTaken, HonestAnswers, HonestInParts, OneFewer, RoseInWhole, TargetsAdded, TargetsKept, TargetsOfOthers, TargetsReleased, TargetsStay, TargetsTaken};

use super::payload::Payload;

/// What is honest over a call is honest at each of its parts.
pub fn honest_in_parts()
    ensures { HonestInParts }
{}

/// A count that rose in a part of a call, or stood at its last number there, did so in the call.
pub fn rose_in_whole()
    ensures { RoseInWhole }
{}

/// An honest completion takes one outstanding fetch of its owner and number, and answers its target.
pub fn honest_answers<C: Payload>()
    ensures { HonestAnswers C.means }
{}

/// One fewer is outstanding once one was taken.
pub fn one_fewer()
    ensures { OneFewer }
{}

/// What holds of all outstanding fetches holds of the one that was taken, and of the others.
pub fn holds_of_taken()
    ensures { HoldsOfTaken }
{}

/// The targets of a number behind which others are added stand before these.
pub fn targets_added()
    ensures { TargetsAdded }
{}

/// Another owner's batch adds no target.
pub fn targets_of_others()
    ensures { TargetsOfOthers }
{}

/// A fetch that is taken takes its target from its number.
pub fn targets_taken()
    ensures { TargetsTaken }
{}

/// A fetch that is taken leaves the targets of every other number.
pub fn targets_stay()
    ensures { TargetsStay }
{}

/// What an owner gives up takes all its targets.
pub fn targets_released()
    ensures { TargetsReleased }
{}

/// What an owner gives up leaves the targets of the others.
pub fn targets_kept()
    ensures { TargetsKept }
{}
