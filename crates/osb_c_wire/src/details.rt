//! What the body of an answer says besides the answer, and what stands under a name.
ghost use Rattle.std.specs.Prelude.{◌≡◌, ◌≢◌, ◌↔◌, [], ◌∷◌, Some, None, IfOk, IsTrue, IsSomeAnd, drop};
ghost use Rattle.std.specs.Prelude.{string_bytes};
ghost use Rattle.std.specs.Str.{IsUtf8};
ghost use Rattle.osb_wire.specs.JsonTexts.{member_text};
ghost use Rattle.osb_c_types.specs.Status.{code, is_one_of};
ghost use Rattle.osb_c_wire.specs.Details as said;
ghost use Rattle.osb_c_wire.specs.Texts as texts;

use crate::texts::{length_if, push_if};
use osb_c_types::{Status, write_text};
use osb_message::Memory;
use osb_wire::Details;
use std::alloc::{AllocError, Global};

/// What the body of an answer says besides the answer: which texts of it stand in a buffer, how long each is, 0 where it
/// isn't there, and its flags, `false` where one isn't there. The texts stand one after the other, in the order of the
/// lengths.
#[repr(C)]
#[derive(Clone, Copy)]
pub struct OsbDetails {
    /// Whether it has a description (`description`).
    pub has_description: bool,
    /// Whether it has the word of an error (`error`).
    pub has_error: bool,
    /// Whether it says where the instance is managed (`dashboard_url`).
    pub has_dashboard_url: bool,
    /// Whether it names the broker's operation (`operation`).
    pub has_operation: bool,
    /// Whether it has `metadata`.
    pub has_metadata: bool,
    /// Whether it says if the instance can be used.
    pub has_instance_usable: bool,
    /// Whether the instance can be used after an update or a deletion that failed (`instance_usable`).
    pub instance_usable: bool,
    /// Whether it says if the update may be sent again.
    pub has_update_repeatable: bool,
    /// Whether an update that failed may be sent again (`update_repeatable`).
    pub update_repeatable: bool,
    /// The length of the description.
    pub description: usize,
    /// The length of the word of the error.
    pub error: usize,
    /// The length of the dashboard's URL.
    pub dashboard_url: usize,
    /// The length of the operation.
    pub operation: usize,
    /// The length of `metadata`.
    pub metadata: usize,
}

// What a body says besides the answer, as one value.
fn read_said(alloc: Global, body: &[u8]) -> Result<Details, Memory>
    ensures details { IfOk result (λ it. said.details_of it ≡ said.details_in body.now) }
{
    osb_wire::read_details(alloc, body)
}

// The texts, one after the other.
#[tactic(auto, using(std::proofs::Common::append_assoc))]
fn joined(alloc: Global, it: &Details) -> Result<String, AllocError>
    ensures text { IfOk result (λ text. string_bytes text ≡ said.joined (said.details_of it.now)) }
{
    let mut all = String::new(alloc);
    push_if(&mut all, &it.description)?;
    push_if(&mut all, &it.error)?;
    push_if(&mut all, &it.dashboard_url)?;
    push_if(&mut all, &it.operation)?;
    push_if(&mut all, &it.metadata)?;
    Ok(all)
}

// Which texts there are, how long each is, and the flags.
fn measured(it: &Details) -> OsbDetails
    ensures measured { said.AreMeasured result (said.details_of it.now) }
{
    OsbDetails {
        has_description: it.description.is_some(),
        has_error: it.error.is_some(),
        has_dashboard_url: it.dashboard_url.is_some(),
        has_operation: it.operation.is_some(),
        has_metadata: it.metadata.is_some(),
        has_instance_usable: it.instance_usable.is_some(),
        instance_usable: it.instance_usable.unwrap_or(false),
        has_update_repeatable: it.update_repeatable.is_some(),
        update_repeatable: it.update_repeatable.unwrap_or(false),
        description: length_if(&it.description),
        error: length_if(&it.error),
        dashboard_url: length_if(&it.dashboard_url),
        operation: length_if(&it.operation),
        metadata: length_if(&it.metadata),
    }
}

/// Reads what the body of an answer says besides the answer, to any request and with any status: a string, a boolean or
/// a value under each of the names, where it has one of that type; none of a body that is no object. The texts go to the
/// front of `buffer`, one after the other, and the length of all to `needed`; the rest of the buffer is as before. They
/// stand in this order: `description`, `error`, `dashboard_url`, `operation`, which has at most 10,000 characters, and
/// `metadata`, with no spaces (sections Provisioning, Polling Last Operation for Service Instances, Deprovisioning and
/// Service Broker Errors).
///
/// It returns `Done`; `TooSmall` where the buffer is shorter than `needed` bytes, a number that is written all the same;
/// or, in place of either, `Memory` where an allocation failed. Where it isn't `Done`, the details and the buffer are as
/// before, and where it is `Memory`, `needed` too.
#[unsafe(no_mangle)]
pub extern "C" fn osb_read_details(
    alloc: Global,
    body: &[u8],
    details: &mut OsbDetails,
    buffer: &mut [u8],
    needed: &mut usize,
) -> u32
    ensures texts { result ≡ code Status.Done
        → texts.IsWritten (said.joined (said.details_in body.now)) needed.new buffer.new }
    ensures measured { result ≡ code Status.Done → said.AreMeasured details.new (said.details_in body.now) }
    ensures rest { result ≡ code Status.Done → drop needed.new buffer.new ≡ drop needed.new buffer.old }

    ensures too_small { result ≡ code Status.TooSmall
        → texts.IsTooLong (said.joined (said.details_in body.now)) needed.new buffer.old }
    ensures statuses { IsTrue (is_one_of (Status.Done ∷ Status.TooSmall ∷ Status.Memory ∷ []) result) }
    ensures unwritten { result ≢ code Status.Done → (buffer.new ≡ buffer.old) × (details.new ≡ details.old) }
    ensures unmeasured { result ≡ code Status.Memory → needed.new ≡ needed.old }
{
    let Ok(it) = read_said(alloc, body) else {
        return Status::Memory.code();
    };
    let Ok(text) = joined(alloc, &it) else {
        return Status::Memory.code();
    };
    match write_text(text.as_str(), buffer, needed) {
        Status::Done => {
            *details = measured(&it);
            Status::Done.code()
        }
        _ => Status::TooSmall.code(),
    }
}

/// Writes the text of what stands under a name in the object that a body is to the front of `buffer`, and its length to
/// `needed`; the rest of the buffer is as before. It has no spaces, numbers as they are written, and members in their
/// order; of a name that stands twice the last counts. What stands inside is not judged (this project's choice).
///
/// It returns `Done`; `NotUtf8` exactly where the name isn't UTF-8; `NoMember` where the body is no object of JSON, or has
/// no such member; `TooSmall` where the buffer is shorter than `needed` bytes, a number that is written all the same; or,
/// in place of any of these but `NotUtf8`, `Memory` where an allocation failed. Where it isn't `Done`, the buffer is as
/// before, and where it is neither that nor `TooSmall`, `needed` too.
#[unsafe(no_mangle)]
pub extern "C" fn osb_member_text(
    alloc: Global,
    body: &[u8],
    name: &[u8],
    buffer: &mut [u8],
    needed: &mut usize,
) -> u32
    ensures text { result ≡ code Status.Done → IsSomeAnd (member_text name.now body.now) (λ text.
        texts.IsWritten text needed.new buffer.new) }
    ensures rest { result ≡ code Status.Done → drop needed.new buffer.new ≡ drop needed.new buffer.old }

    ensures not_utf8 { (result ≡ code Status.NotUtf8) ↔ ¬ (IsUtf8 name.now) }
    ensures no_member { result ≡ code Status.NoMember → member_text name.now body.now ≡ None }
    ensures too_small { result ≡ code Status.TooSmall → IsSomeAnd (member_text name.now body.now) (λ text.
        texts.IsTooLong text needed.new buffer.old) }
    ensures statuses { IsTrue (is_one_of (Status.Done ∷ Status.NotUtf8 ∷ Status.NoMember ∷ Status.TooSmall
        ∷ Status.Memory ∷ []) result) }
    ensures unwritten { result ≢ code Status.Done → buffer.new ≡ buffer.old }
    ensures unmeasured { result ≢ code Status.Done → result ≢ code Status.TooSmall → needed.new ≡ needed.old }
{
    let Ok(name) = std::str::from_utf8(name) else {
        return Status::NotUtf8.code();
    };
    match osb_wire::member_text(alloc, body, name) {
        Ok(Some(text)) => write_text(text.as_str(), buffer, needed).code(),
        Ok(None) => Status::NoMember.code(),
        Err(Memory) => Status::Memory.code(),
    }
}
