//! A script has one transcript, unless an allocation for a new entry fails; and then the transcript says so.
ghost use Rattle.jc_script.specs.Determinism.{TranscriptsAreDetermined, MemoryIsPrinted, PrintedMemoryDetermines, RunsWriteTheSame};

use jc_world::determinism::runs_are_determined;

/// Two transcripts of one script have the same bytes, and end in the same way, if in both no new entry was evicted at once because an
/// allocation for it failed: audits, openings anew, lines with a fault and all.
pub fn transcripts_are_determined()
    ensures { TranscriptsAreDetermined }
{
    runs_are_determined();
}

/// Each such eviction is printed: `evict K memory at S.P` is in the transcript.
pub fn memory_is_printed()
    ensures { MemoryIsPrinted }
{}

/// So two transcripts of one script have the same bytes, and end in the same way, if `evict K memory at S.P` is in neither.
pub fn printed_memory_determines()
    ensures { PrintedMemoryDetermines }
{
    runs_are_determined();
}

/// And two runs that read the same bytes write the same, whoever reads and writes for them: as long as what the reader gives is known.
pub fn runs_write_the_same()
    ensures { RunsWriteTheSame }
{
    runs_are_determined();
}
