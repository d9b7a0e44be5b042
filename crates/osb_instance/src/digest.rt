//! The digest of the attributes of an instance.
ghost use Rattle.std.specs.Prelude.{◌≡◌};
ghost use Rattle.osb_instance.specs.Begin.{is_same_digest};

/// A digest of 256 bits of what a Provision asks for besides service and plan (this project's choice). What goes into
/// it is the caller's choice. `osb_wire` has the digest of `parameters`.
#[derive(Clone, Copy, Debug, PartialEq, Eq, Hash)]
pub struct Digest {
    /// The 32 bytes, all of them zero if there are no attributes.
    pub bytes: [u8; 32],
}

impl Digest {
    /// The digest of no attributes.
    pub const NONE: Digest = Digest { bytes: [0; 32] };

    // Whether both are the same.
    pub(crate) fn is_same(self, other: Digest) -> bool
        ensures same { result ≡ is_same_digest self other }
    {
        self == other
    }
}
