//! What a catalogue says of updates, and whether it lets one be done.
ghost use Rattle.std.specs.Prelude.{◌≡◌, ◌≢◌, ◌↔◌, [], ◌∷◌, Some, None, IfOk, IsNone, IsSome, IsSomeAnd, IsTrue, drop};
ghost use Rattle.std.specs.Prelude.{◌==◌, not, Option, option_map};
ghost use Rattle.osb_update_wire.specs.Catalogues.{IsSaidIf, IsSaidOf, Sold, numbers_updates_in, served_text, sold_in};
ghost use Rattle.osb_update_wire.specs.Catalogues.{allowed as allowed_by_said};
ghost use Rattle.osb_update_wire.specs.Flags.{are_flags_sound};
ghost use Rattle.osb_c_types.specs.Ids.{number_of};
ghost use Rattle.osb_c_types.specs.Status.{code, is_one_of};
ghost use Rattle.osb_c_update.specs.Outcomes.{way_of};
ghost use Rattle.osb_c_update.specs.Requests.{allowed_of};
ghost use Rattle.osb_c_wire.specs.Texts as texts;
ghost use Rattle.osb_c_update_wire.specs.Catalogues as crossed;

use osb_c_types::{OsbId, Status, id_from, mode_from, write_text};
use osb_c_wire::{length_if, text_if};
use osb_instance::Rejection;
use osb_message::{Memory, Mode, PlanId, ServiceId};
use osb_update::Allowed;
use osb_update_wire::{PlanUpdates, plan_updates};
use std::alloc::Global;

/// What a catalogue says of a plan's updates, and how long the text of the version in a buffer is. What isn't there is
/// `false` or 0.
#[repr(C)]
#[derive(Clone, Copy)]
pub struct OsbPlanUpdates {
    /// Whether the catalogue sells the plan.
    pub is_sold: bool,
    /// Whether an instance of the plan can be changed to another plan (`plan_updateable`).
    pub updateable: bool,
    /// Whether instances of the service can be fetched (`instances_retrievable`).
    pub retrievable: bool,
    /// Whether the plan says how updates to it work.
    pub has_asynchronous: bool,
    /// Whether updates to the plan are asynchronous (`x-osb-asynchronous-updates`).
    pub asynchronous: bool,
    /// Whether the plan has a version (`maintenance_info`).
    pub has_version: bool,
    /// Whether the plan has a longest time of polling.
    pub has_longest_poll: bool,
    /// The longest time of polling in seconds (`maximum_polling_duration`).
    pub longest_poll: u64,
    /// The length of the version.
    pub version: usize,
}

// What is said of a plan that is sold.
fn said_out(of: &PlanUpdates) -> OsbPlanUpdates
    ensures said { (sold : Sold) → IsSaidOf of.now sold → crossed.IsSaidOf result sold }
{
    OsbPlanUpdates {
        is_sold: true,
        updateable: of.updateable,
        retrievable: of.retrievable,
        has_asynchronous: of.asynchronous.is_some(),
        asynchronous: of.asynchronous.unwrap_or(false),
        has_version: of.version.is_some(),
        has_longest_poll: of.longest_poll.is_some(),
        longest_poll: of.longest_poll.unwrap_or(0),
        version: length_if(&of.version),
    }
}

// What is said of a plan that may be sold.
#[tactic(auto, using(crate::proofs::Sold::nothing_of, crate::proofs::Sold::said_of))]
fn said_if(found: &Option<PlanUpdates>) -> OsbPlanUpdates
    ensures said { (sold : Option Sold) → IsSaidIf found.now sold → crossed.IsSaidIf result sold }
{
    match found {
        Some(of) => said_out(of),
        None => OsbPlanUpdates {
            is_sold: false,
            updateable: false,
            retrievable: false,
            has_asynchronous: false,
            asynchronous: false,
            has_version: false,
            has_longest_poll: false,
            longest_poll: 0,
            version: 0,
        },
    }
}

// The text of the version, or nothing.
fn version_of(found: &Option<PlanUpdates>) -> &str
    ensures version { result.now ≡ texts.or_nothing (crossed.version_read found.now) }
{
    match found {
        Some(
            PlanUpdates {
                version: Some(text),
                ..
            },
        ) => text.as_str(),
        _ => "",
    }
}

/// Reads what a catalogue's document says of the updates of a plan of a service. The text of the version goes to the
/// front of `buffer`, and its length, or 0, to `needed`; the rest of the buffer is as before. A flag of another type than
/// `true` and `false` counts as missing, as does a duration that is no integer below 2^64. Of a service or a plan that
/// stands twice the first counts (section Catalog Management; `x-osb-asynchronous-updates` is this project's choice).
///
/// It returns `Done`, also if the document doesn't sell the plan; `TooSmall` if the buffer is shorter than `needed` bytes,
/// a number that is written all the same; or, in place of either, `Memory` if an allocation failed. If it isn't `Done`,
/// what is said and the buffer are as before, and if it is `Memory`, `needed` too.
#[tactic(auto, using(crate::proofs::Sold::version_of))]
#[unsafe(no_mangle)]
pub extern "C" fn osb_plan_updates(
    alloc: Global,
    document: &[u8],
    service: OsbId,
    plan: OsbId,
    updates: &mut OsbPlanUpdates,
    buffer: &mut [u8],
    needed: &mut usize,
) -> u32
    ensures said { result ≡ code Status.Done
        → crossed.IsSaidIf updates.new (sold_in (number_of service) (number_of plan) document.now) }
    ensures version { result ≡ code Status.Done → texts.IsWritten (texts.or_nothing (crossed.version_sold
        (sold_in (number_of service) (number_of plan) document.now))) needed.new buffer.new }
    ensures rest { result ≡ code Status.Done → drop needed.new buffer.new ≡ drop needed.new buffer.old }

    ensures too_small { result ≡ code Status.TooSmall → texts.IsTooLong (texts.or_nothing (crossed.version_sold
        (sold_in (number_of service) (number_of plan) document.now))) needed.new buffer.old }
    ensures statuses { IsTrue (is_one_of (Status.Done ∷ Status.TooSmall ∷ Status.Memory ∷ []) result) }
    ensures unwritten { result ≢ code Status.Done → (buffer.new ≡ buffer.old) × (updates.new ≡ updates.old) }
    ensures unmeasured { result ≡ code Status.Memory → needed.new ≡ needed.old }
{
    let Ok(found) = plan_updates(alloc, document, id_from(service), id_from(plan)) else {
        return Status::Memory.code();
    };
    match write_text(version_of(&found), buffer, needed) {
        Status::Done => {
            *updates = said_if(&found);
            Status::Done.code()
        }
        _ => Status::TooSmall.code(),
    }
}

/// Reads whether a catalogue's document says by `x-osb-updates` that its broker orders Updates by their numbers: false if
/// it doesn't say so. To such a broker a platform sends numbers (section Catalog Management; the member is this project's
/// choice).
///
/// It returns `Done`; or `Memory` if an allocation failed, and `numbers` is then as before.
#[unsafe(no_mangle)]
pub extern "C" fn osb_numbers_updates(alloc: Global, document: &[u8], numbers: &mut bool) -> u32
    ensures says { result ≡ code Status.Done → numbers.new ≡ numbers_updates_in document.now }

    ensures statuses { IsTrue (is_one_of (Status.Done ∷ Status.Memory ∷ []) result) }
    ensures unwritten { result ≢ code Status.Done → numbers.new ≡ numbers.old }
{
    match osb_update_wire::numbers_updates(alloc, document) {
        Ok(says) => {
            *numbers = says;
            Status::Done.code()
        }
        Err(Memory) => Status::Memory.code(),
    }
}

/// Judges whether what a catalogue's document says of updates has the types that it must have: `x-osb-updates`, and of
/// each plan `x-osb-asynchronous-updates`, is `true` or `false`, and `maximum_polling_duration` of each plan is an integer
/// from 0 to 2^64 - 1, each if it is there. A broker doesn't start with a document that fails it: `osb_plan_updates` takes
/// such a member for one that is missing. `osb_catalogue_check` judges the standard's flags (section Catalog Management;
/// the members that begin with `x-osb-` are this project's choice).
///
/// It returns `Done`; or `Memory` if an allocation failed, and `sound` is then as before.
#[unsafe(no_mangle)]
pub extern "C" fn osb_update_flags_are_sound(
    alloc: Global,
    document: &[u8],
    sound: &mut bool,
) -> u32
    ensures sound { result ≡ code Status.Done → sound.new ≡ are_flags_sound document.now }

    ensures statuses { IsTrue (is_one_of (Status.Done ∷ Status.Memory ∷ []) result) }
    ensures unwritten { result ≢ code Status.Done → sound.new ≡ sound.old }
{
    match osb_update_wire::update_flags_are_sound(alloc, document) {
        Ok(says) => {
            *sound = says;
            Status::Done.code()
        }
        Err(Memory) => Status::Memory.code(),
    }
}

/// Writes the document that a broker serves which orders Updates by their numbers to the front of `buffer`, and its length
/// to `needed`; the rest of the buffer is as before. It is the object that is given, with no spaces and the member
/// `x-osb-updates`, which is `true`, in place of any other of this name. Give it what `osb_served_catalogue` wrote (section
/// Catalog Management; the member is this project's choice).
///
/// It returns `Done`; `NotAnObject` if the document isn't UTF-8, isn't JSON or is no object; `TooSmall` if the buffer is
/// shorter than `needed` bytes, a number that is written all the same; or, in place of any of these, `Memory` if an
/// allocation failed. If it isn't `Done`, the buffer is as before, and if it is neither that nor `TooSmall`, `needed`
/// too.
#[unsafe(no_mangle)]
pub extern "C" fn osb_served_updates(
    alloc: Global,
    document: &[u8],
    buffer: &mut [u8],
    needed: &mut usize,
) -> u32
    ensures text { result ≡ code Status.Done → IsSomeAnd (served_text document.now) (λ text.
        texts.IsWritten text needed.new buffer.new) }
    ensures rest { result ≡ code Status.Done → drop needed.new buffer.new ≡ drop needed.new buffer.old }

    ensures not_an_object { result ≡ code Status.NotAnObject → served_text document.now ≡ None }
    ensures too_small { result ≡ code Status.TooSmall → IsSomeAnd (served_text document.now) (λ text.
        texts.IsTooLong text needed.new buffer.old) }
    ensures statuses { IsTrue (is_one_of (Status.Done ∷ Status.NotAnObject ∷ Status.TooSmall ∷ Status.Memory
        ∷ []) result) }
    ensures unwritten { result ≢ code Status.Done → buffer.new ≡ buffer.old }
    ensures unmeasured { result ≢ code Status.Done → result ≢ code Status.TooSmall → needed.new ≡ needed.old }
{
    match osb_update_wire::served_updates(alloc, document) {
        Ok(Some(text)) => write_text(text.as_str(), buffer, needed).code(),
        Ok(None) => Status::NotAnObject.code(),
        Err(Memory) => Status::Memory.code(),
    }
}

// The mode that a number stands for, of a plan that is on sale.
fn way_from(code: u8) -> Option<Mode>
    ensures way { result ≡ way_of code }
{
    match mode_from(code) {
        Some(Some(mode)) => Some(mode),
        _ => None,
    }
}

// The number of what a catalogue allows.
fn allowed_out(allowed: Allowed) -> u8
    ensures allowed { allowed_of result ≡ Some allowed }
{
    match allowed {
        Allowed::Mode(Mode::Sync) => 0,
        Allowed::Mode(Mode::Async) => 1,
        Allowed::Rejected(Rejection::BadRequest) => 2,
        Allowed::Rejected(Rejection::UnprocessableEntity) => 3,
        Allowed::MaintenanceInfoConflict => 4,
    }
}

// What is allowed by what was read of the plan that is held and of the one that is asked for.
fn judged(
    held: &Option<PlanUpdates>,
    asked: &Option<PlanUpdates>,
    leaves: bool,
    version: Option<&str>,
    otherwise: Mode,
) -> Allowed
    ensures allowed { result ≡ allowed_by_said held.now asked.now leaves
        (option_map (λ text. text.now) version.entry) otherwise }
{
    osb_update_wire::update_allowed(held.as_ref(), asked.as_ref(), leaves, version, otherwise)
}

// What a document allows of an Update.
fn allowed_in(
    alloc: Global,
    document: &[u8],
    service: ServiceId,
    held: PlanId,
    asked: PlanId,
    version: Option<&str>,
    otherwise: Mode,
) -> Result<Allowed, Memory>
    ensures allowed { IfOk result (λ allowed. allowed ≡ crossed.allowed_by
        (sold_in service held document.now) (sold_in service asked document.now) (not (held == asked))
        (option_map (λ text. text.now) version.entry) otherwise) }
{
    let before = plan_updates(alloc, document, service, held)?;
    let after = plan_updates(alloc, document, service, asked)?;
    let leaves = held != asked;
    Ok(judged(&before, &after, leaves, version, otherwise))
}

/// Gives whether a catalogue's document lets an Update be done, an `enum osb_allowed`, as `osb_update_begin` takes it: of
/// an instance of the service that has the plan `held`, and that is asked to have the plan `asked`, which is the same if
/// the Update names none. The version that the Update names counts if `has_version` is true. `otherwise` is the mode of
/// the plan that is asked for (sections Updating a Service Instance and Maintenance Info Object). The first of these that
/// fits: the plan that is asked for isn't sold, and it is rejected with 400; the plan changes, and the one that is held
/// isn't `plan_updateable` or isn't sold any more, and it is rejected with 422; the plan that is asked for has a version,
/// and the Update names another; else the mode that `x-osb-asynchronous-updates` of the plan says, or else `otherwise`.
///
/// It returns `Done`; `NotUtf8` exactly if the version counts and isn't UTF-8; else `BadMode` exactly if the number stands
/// for no mode of a plan that is on sale; or, in place of `Done`, `Memory` if an allocation failed. If it isn't `Done`,
/// `allowed` is as before.
#[unsafe(no_mangle)]
pub extern "C" fn osb_update_allowed(
    alloc: Global,
    document: &[u8],
    service: OsbId,
    held: OsbId,
    asked: OsbId,
    has_version: bool,
    version: &[u8],
    otherwise: u8,
    allowed: &mut u8,
) -> u32
    ensures allowed { result ≡ code Status.Done → IsSomeAnd (way_of otherwise) (λ mode. allowed_of allowed.new
        ≡ Some (crossed.allowed_in document.now service held asked (texts.text_if has_version version.now) mode)) }

    ensures not_utf8 { (result ≡ code Status.NotUtf8) ↔ ¬ (texts.IsUtf8If has_version version.now) }
    ensures bad_mode { (result ≡ code Status.BadMode)
        ↔ (texts.IsUtf8If has_version version.now × IsNone (way_of otherwise)) }
    ensures statuses { IsTrue (is_one_of (Status.Done ∷ Status.NotUtf8 ∷ Status.BadMode ∷ Status.Memory
        ∷ []) result) }
    ensures unwritten { result ≢ code Status.Done → allowed.new ≡ allowed.old }
{
    let Some(version) = text_if(has_version, version) else {
        return Status::NotUtf8.code();
    };
    let Some(mode) = way_from(otherwise) else {
        return Status::BadMode.code();
    };
    let service: ServiceId = id_from(service);
    match allowed_in(
        alloc,
        document,
        service,
        id_from(held),
        id_from(asked),
        version,
        mode,
    ) {
        Ok(found) => {
            *allowed = allowed_out(found);
            Status::Done.code()
        }
        Err(Memory) => Status::Memory.code(),
    }
}
