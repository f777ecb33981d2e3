//! Laws of snapshots. Each function does nothing: its contract is the law.
ghost use Rattle.jc_snapshot.specs.Laws.{SnapshotsTell, SnapshotsStay, HasOneSnapshot};

use crate::seen::Seen;

/// Equal snapshots over one state of the tables are of one essence.
pub fn snapshots_tell()
    ensures { SnapshotsTell }
{}

/// A snapshot stays one of its essence while the tables grow.
pub fn snapshots_stay()
    ensures { SnapshotsStay }
{}

/// Over these tables an essence has one snapshot, so that there are as many snapshots as essences.
pub fn has_one_snapshot(seen: &Seen)
    ensures { HasOneSnapshot seen.now }
{
    seen.are_tables();
}
