//! The exit statuses of the program.

/// The script was played to its end, or a shell ended well, or each expectation holds, or each key is explained, or the text that
/// was asked for was shown.
pub(crate) const STATUS_CLEAN: u8 = 0;
/// The transcript ends with a line's fault, or a line of the program of threads or of the record has one.
pub(crate) const STATUS_LINE_FAULT: u8 = 1;
/// The command line is not one of this program's, or asks for too much work.
pub(crate) const STATUS_USAGE: u8 = 2;
/// Standard input or output failed, or the input is too long.
pub(crate) const STATUS_STREAMS: u8 = 3;
/// An allocation failed.
pub(crate) const STATUS_MEMORY: u8 = 4;
/// The count on threads isn't the plan's, or an expectation fails, or a key isn't explained.
pub(crate) const STATUS_UNEXPECTED: u8 = 5;
/// Not all outcomes are known, and no expectation fails; or the search of a key gave up, and no key is known not to be explained.
pub(crate) const STATUS_OPEN: u8 = 6;
