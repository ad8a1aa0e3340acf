//! The two ways to write a record.
ghost use Rattle.std.specs.Prelude.{◌≡◌};
ghost use Rattle.record_text.specs.Spelling.{IsVersion, version_number};

/// Which of the two texts a record has.
#[derive(Clone, Copy, Debug, PartialEq, Eq)]
pub enum Version {
    One,
    Two,
}

impl Version {
    /// The version of this number.
    pub fn of(number: u32) -> Version
        requires { IsVersion number }
        ensures { version_number result ≡ number }
    {
        if number == 2 {
            Version::Two
        } else {
            Version::One
        }
    }

    /// The number by which records name it.
    pub fn number(self) -> u32
        ensures { result ≡ version_number self }
    {
        match self {
            Version::One => 1,
            Version::Two => 2,
        }
    }
}
