//! A law of every session.
ghost use Rattle.jc_shell.specs.Sessions.{TranscriptsAreShown};

/// Whatever is typed, the answers to the accepted lines are the transcript of the script that these lines make.
pub fn transcripts_are_shown()
    ensures { TranscriptsAreShown }
{}
