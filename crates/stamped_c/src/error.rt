//! What is wrong with the numbers that a C program gives.
ghost use Rattle.std.specs.Prelude.{◌≡◌};
ghost use Rattle.stamped_c.specs.Codes.{error_code};

/// What is wrong with the numbers that a C program gives. Where several fit, the first in this
/// order is told.
#[derive(Clone, Copy, Debug, PartialEq, Eq)]
pub enum CError {
    /// 1: the number names no layout.
    UnknownLayout,
    /// 2: no reader, or more readers or write acquisitions than the layout has room for.
    LimitsOutOfRange,
    /// 3: no lock of the layout has a word of this number.
    NoWord,
    /// 4: it is a word of the layout, with more readers or write acquisitions than the limits allow.
    BeyondLimits,
    /// 5: the number names no call.
    UnknownCall,
}

impl CError {
    /// Its number in C.
    pub(crate) fn code(self) -> u32
        ensures { result ≡ error_code self }
    {
        match self {
            CError::UnknownLayout => 1,
            CError::LimitsOutOfRange => 2,
            CError::NoWord => 3,
            CError::BeyondLimits => 4,
            CError::UnknownCall => 5,
        }
    }
}
