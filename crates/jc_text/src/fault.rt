//! Why a script ends at a line.
ghost use Rattle.std.specs.Prelude.{◌≡◌};
ghost use Rattle.jc_text.specs.FaultTexts.{text_of};
ghost use Rattle.jc_text.specs.declared.fault.ReadError.TheVariants as errors;

use jc_types::Field;
use std::alloc::AllocError;

/// Why a script ends at a line.
#[derive(Clone, Copy, Debug, PartialEq, Eq)]
pub enum Fault {
    /// The input ends within the line.
    CutLine,
    /// The line has too many bytes.
    LineTooLong,
    /// The line has a byte that is no printable letter of ASCII.
    BadByte,
    /// The line has no known shape.
    BadLine,
    /// A word that is to be a number is none, or it is over the limit.
    BadNumber,
    /// A word that is to be a session is none.
    BadCaller,
    /// A word that is to be a key is none.
    BadKey,
    /// A word that is to be a value is none.
    BadValue,
    /// The line names a key twice, where once is allowed.
    RepeatedKey,
    /// No world was opened yet.
    NotOpen,
    /// A world was opened already.
    OpenTwice,
    /// A number of the world's shape is out of its limits.
    BadConfig(Field),
    /// A call has begun, or somebody else has written the store.
    SetTooLate,
    /// The call's number is not above all before it.
    NotRising,
    /// The caller has a call under way.
    CallerBusy,
    /// No call with this number is under way.
    NoSuchCall,
    /// The call doesn't wait for this.
    NotNow,
}

/// The words of a fault.
pub fn text(fault: Fault) -> &'static str
    ensures { result.now ≡ text_of fault }
{
    match fault {
        Fault::CutLine => "cut line",
        Fault::LineTooLong => "line too long",
        Fault::BadByte => "bad byte",
        Fault::BadLine => "bad line",
        Fault::BadNumber => "bad number",
        Fault::BadCaller => "bad caller",
        Fault::BadKey => "bad key",
        Fault::BadValue => "bad value",
        Fault::RepeatedKey => "repeated key",
        Fault::NotOpen => "not open",
        Fault::OpenTwice => "open twice",
        Fault::BadConfig(Field::Stripes) => "bad config stripes",
        Fault::BadConfig(Field::Capacity) => "bad config capacity",
        Fault::BadConfig(Field::History) => "bad config history",
        Fault::SetTooLate => "set too late",
        Fault::NotRising => "number not rising",
        Fault::CallerBusy => "caller busy",
        Fault::NoSuchCall => "no such call",
        Fault::NotNow => "not now",
    }
}

/// Why a line was not read.
#[derive(Clone, Copy, Debug)]
pub enum ReadError {
    /// An allocation failed.
    Memory,
    /// It has this fault.
    Fault(Fault),
}

impl From<AllocError> for ReadError {
    ghost from_gives = { λ _ e. e ≡ errors.Memory };

    fn from(_error: AllocError) -> ReadError {
        ReadError::Memory
    }
}

impl From<Fault> for ReadError {
    ghost from_gives = { λ fault e. e ≡ errors.Fault fault };

    fn from(fault: Fault) -> ReadError {
        ReadError::Fault(fault)
    }
}
