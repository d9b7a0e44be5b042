//! What a transaction reads, as it crosses.
ghost use Rattle.std.specs.Prelude.{◌≡◌};
ghost use Rattle.osb_c_platform_driver.specs.Readings.{clean_up_code, clean_up_of, is_owner, reading_of, some_recorded_of};

use crate::drivers::OsbPlatformDriver;
use osb_binding_platform_driver::PlatformReading;
use osb_c_instance::{OsbRecord, recorded_from};
use osb_c_types::{OsbId, id_from};
use osb_instance::Record;
use osb_platform_driver::{CleanUp, Wishes};

/// What a transaction is given: what the program has read and locked in it, and what it wishes.
#[repr(C)]
#[derive(Clone, Copy)]
pub struct OsbPlatformReading {
    /// The record of the row, if `has_record` is true.
    pub record: OsbRecord,
    /// The record of a binding's instance, if `has_instance` is true.
    pub instance: OsbRecord,
    /// The key of the row: the id of the instance, or that of the binding.
    pub id: OsbId,
    /// The service with which an instance is created.
    pub service: OsbId,
    /// The plan with which an instance is created.
    pub plan: OsbId,
    /// The number of the row: that of the driver that last claimed it, or zeroes.
    pub number: [u8; 16],
    /// The number of the wish to clean up. A number that stands for none is no wish.
    pub clean_up: u8,
    /// Whether the row has a record.
    pub has_record: bool,
    /// Of a binding: whether its instance has a record.
    pub has_instance: bool,
    /// Of an instance: whether each binding of it that is recorded is gone.
    pub all_gone: bool,
    /// The wish to create it, if it isn't recorded.
    pub create: bool,
    /// The wish to send the request that is due.
    pub send: bool,
    /// Whether an asynchronous creation is accepted.
    pub accepts_incomplete: bool,
    /// Of a binding: whether the broker serves its Fetch.
    pub retrievable: bool,
}

// The wish to clean up that a number stands for, or none.
fn clean_up_from(code: u8) -> Option<CleanUp>
    ensures wish { result ≡ clean_up_of code }
{
    match code {
        1 => Some(CleanUp::Expire),
        2 => Some(CleanUp::Retry),
        3 => Some(CleanUp::Remove),
        _ => None,
    }
}

// The number of a cleaning up.
pub(crate) fn clean_up_out(wish: Option<CleanUp>) -> u8
    ensures code { result ≡ clean_up_code wish }
{
    match wish {
        None => 0,
        Some(CleanUp::Expire) => 1,
        Some(CleanUp::Retry) => 2,
        Some(CleanUp::Remove) => 3,
    }
}

// The record that crossed, if there is one and a call gives such a one.
fn some_recorded_from(has_record: bool, kept: &OsbRecord) -> Option<Option<Record>>
    ensures recorded { result ≡ some_recorded_of has_record kept.now }
{
    if !has_record {
        return Some(None);
    }
    let recorded = recorded_from(kept)?;
    Some(Some(recorded))
}

// Whether the row has the driver's number.
pub(crate) fn is_owner(driver: &OsbPlatformDriver, number: &[u8; 16]) -> bool
    ensures owner { result ≡ is_owner driver.now number.now }
{
    driver.number == *number
}

/// What crossed, if both records are such as a call gives. It takes no memory.
pub fn reading_from(reading: &OsbPlatformReading, is_owner: bool) -> Option<PlatformReading>
    ensures reading { result ≡ reading_of is_owner reading.now }
{
    let recorded = some_recorded_from(reading.has_record, &reading.record)?;
    let instance = some_recorded_from(reading.has_instance, &reading.instance)?;
    Some(PlatformReading {
        recorded,
        is_owner,
        instance,
        all_gone: reading.all_gone,
        wishes: Wishes {
            create: reading.create,
            clean_up: clean_up_from(reading.clean_up),
            send: reading.send,
        },
        id: id_from(reading.id),
        service: id_from(reading.service),
        plan: id_from(reading.plan),
        accepts: reading.accepts_incomplete,
        retrievable: reading.retrievable,
    })
}
