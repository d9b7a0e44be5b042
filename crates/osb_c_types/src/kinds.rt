//! The numbers that stand for the kinds of requests.
ghost use Rattle.std.specs.Prelude.{◌≡◌, Some};
ghost use Rattle.osb_c_types.specs.Kinds.{kind_code, kind_of, out_of};

use osb_message::Kind;

/// The number of a kind.
pub fn kind_out(kind: Kind) -> u8
    ensures code { result ≡ kind_code kind }
{
    match kind {
        Kind::Provision => 0,
        Kind::Poll => 1,
        Kind::Deprovision => 2,
    }
}

/// The kind that a number stands for.
pub fn kind_from(code: u8) -> Option<Kind>
    ensures kind { result ≡ kind_of code }
{
    match code {
        0 => Some(Kind::Provision),
        1 => Some(Kind::Poll),
        2 => Some(Kind::Deprovision),
        _ => None,
    }
}

/// The number of the request that is out, or of none.
pub fn out_out(out: Option<Kind>) -> u8
    ensures out { out_of result ≡ Some out }
{
    match out {
        Some(kind) => kind_out(kind),
        None => 255,
    }
}

/// The request that is out, none at 255, if the number stands for something.
pub fn out_from(code: u8) -> Option<Option<Kind>>
    ensures out { result ≡ out_of code }
{
    match code {
        0 => Some(Some(Kind::Provision)),
        1 => Some(Some(Kind::Poll)),
        2 => Some(Some(Kind::Deprovision)),
        255 => Some(None),
        _ => None,
    }
}
