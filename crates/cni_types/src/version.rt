ghost use Rattle.std.specs.Prelude.{◌≡◌};

/// A version of CNI that is supported.
#[derive(Clone, Copy)]
pub enum Version {
    /// CNI 0.3.0.
    V0_3_0,
    /// CNI 0.3.1.
    V0_3_1,
    /// CNI 0.4.0, which adds CHECK.
    V0_4_0,
    /// CNI 1.0.0, whose results no longer have the family beside an address.
    V1_0_0,
    /// CNI 1.1.0, which adds GC and STATUS.
    V1_1_0,
}

impl Version {
    ghost use Rattle.cni_types.specs.Version.{version_text, version_of, says_family};

    /// The version's text, as `1.0.0`.
    pub fn text(self) -> &'static str
        ensures text { result.now ≡ version_text self }
        ensures reads_back { version_of (version_text self) ≡ Some self }
    {
        match self {
            Version::V0_3_0 => "0.3.0",
            Version::V0_3_1 => "0.3.1",
            Version::V0_4_0 => "0.4.0",
            Version::V1_0_0 => "1.0.0",
            Version::V1_1_0 => "1.1.0",
        }
    }

    /// The version whose text this is.
    pub fn of(text: &str) -> Option<Version>
        ensures { result ≡ version_of text.now }
    {
        match text {
            "0.3.0" => Some(Version::V0_3_0),
            "0.3.1" => Some(Version::V0_3_1),
            "0.4.0" => Some(Version::V0_4_0),
            "1.0.0" => Some(Version::V1_0_0),
            "1.1.0" => Some(Version::V1_1_0),
            _ => None,
        }
    }

    /// Whether each address of a result has its family beside it, as up to 0.4.0.
    pub fn says_family(self) -> bool
        ensures { result ≡ says_family self }
    {
        match self {
            Version::V0_3_0 | Version::V0_3_1 | Version::V0_4_0 => true,
            Version::V1_0_0 | Version::V1_1_0 => false,
        }
    }
}
