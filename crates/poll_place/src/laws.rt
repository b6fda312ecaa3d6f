//! The laws of placed polls, without code.

ghost use Rattle.poll_place.specs.AtPoints.{PollsStandAtPoints};
ghost use Rattle.poll_place.specs.Ready.{SourcesAreReady};

/// A function without unreached blocks has its polls exactly at its poll points.
pub fn polls_stand_at_points()
    ensures { PollsStandAtPoints }
{}

/// A source module has room for its polls, and with them each of its functions is one that bases can be put into.
pub fn sources_are_ready()
    ensures { SourcesAreReady }
{}
