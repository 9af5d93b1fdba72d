//! Why a text is not a tel URI.

/// Why a text is not a tel URI that is answered here. The order of tests is `TooLong`, `NotTel`,
/// then `LocalNumber` or `BadNumber`, `BadParameter`, and `ParameterTwice`.
#[derive(Clone, Copy, Debug, PartialEq, Eq)]
pub enum TelFault {
    /// The text does not begin with `tel:`, in either case.
    NotTel = 1,
    /// The number part is neither a global number nor a local one.
    BadNumber = 2,
    /// A parameter's name or value is malformed, a required value is missing, or `npdi` has one.
    BadParameter = 3,
    /// A parameter name occurs twice, ignoring case.
    ParameterTwice = 4,
    /// The number part is a local number (RFC 3966, section 5.1.5), which is not answered.
    LocalNumber = 5,
    /// The text has more than 2,048 bytes.
    TooLong = 6,
}

impl TelFault {
    ghost use Rattle.std.specs.Prelude.{◌≡◌};
    ghost use Rattle.telnp.specs.Faults.{fault_name};

    /// Returns the fault's name, in lower case.
    pub fn name(self) -> &'static str
        ensures { result.now ≡ fault_name self }
    {
        match self {
            TelFault::NotTel => "not_tel",
            TelFault::BadNumber => "bad_number",
            TelFault::BadParameter => "bad_parameter",
            TelFault::ParameterTwice => "parameter_twice",
            TelFault::LocalNumber => "local_number",
            TelFault::TooLong => "too_long",
        }
    }
}
