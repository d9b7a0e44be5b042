//! The version of the library.
ghost use Rattle.std.specs.Prelude.{◌≡◌};

/// The version of the library, as a number: 10,000 times the major version, plus 100 times the minor, plus
/// the patch. A program that is linked to a shared library compares it with the header's.
#[unsafe(no_mangle)]
pub extern "C" fn osb_version() -> u32
    ensures version { result ≡ 300 }
{
    300
}
