//! Each world of a transcript is one that a run of events reaches, so the laws over runs speak of it.
ghost use Rattle.jc_script.specs.ReachedWorlds.{LinesStayReached, TranscriptsStayReached};

use jc_world::headline::starts_open;

/// From a world that a run of events has reached, a line without a fault leads to one that a longer run reaches: the line's events,
/// each of which fits, and what they show are appended. The line prints what is printed of them, and beside it at most that a world is
/// open, an audit, or that a load failed.
///
/// The first line without a fault, but for comments, opens such a world. So of each world in a transcript the laws over runs are true:
/// since the last opening the order is one legal history, each shown reply is that of a step of it, and the others.
pub fn lines_stay_reached()
    ensures { LinesStayReached }
{
    starts_open();
}

/// In each transcript so, from the first line on: the lines before that at which the script ends lead on one after another, each by
/// its own events.
pub fn transcripts_stay_reached()
    ensures { TranscriptsStayReached }
{
    starts_open();
}
