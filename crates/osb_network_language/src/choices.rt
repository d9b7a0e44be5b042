//! The words that are choices.
ghost use Rattle.std.specs.Prelude.{◌≡◌, List, ℕ, Result};
ghost use Rattle.osb_language.specs.Fields.{choice};
ghost use Rattle.osb_network_language.specs.Choices as spec;

use osb_binding_network::Rules;
use osb_instance::{Rejection, WorkOutcome};
use osb_language::{Field, LineFault};
use osb_message::Mode;
use osb_network::{Event, Resource};

// How a plan works, or none if it isn't on sale: `sync`, `async` or `none`.
#[derive(Clone, Copy)]
pub struct PlanMode(pub Option<Mode>);

impl Field for PlanMode {
    ghost field = { choice spec.plan_modes };

    fn read(word: &[u8]) -> Result<PlanMode, LineFault> {
        if word == b"sync".as_slice() {
            Ok(PlanMode(Some(Mode::Sync)))
        } else if word == b"async".as_slice() {
            Ok(PlanMode(Some(Mode::Async)))
        } else if word == b"none".as_slice() {
            Ok(PlanMode(None))
        } else {
            Err(LineFault::BadChoice)
        }
    }
}

// Whether the broker has the rule of the first Poll: `first-poll` or `at-once`.
#[derive(Clone, Copy)]
pub struct FirstPoll(pub bool);

impl Field for FirstPoll {
    ghost field = { choice spec.first_polls };

    fn read(word: &[u8]) -> Result<FirstPoll, LineFault> {
        if word == b"first-poll".as_slice() {
            Ok(FirstPoll(true))
        } else if word == b"at-once".as_slice() {
            Ok(FirstPoll(false))
        } else {
            Err(LineFault::BadChoice)
        }
    }
}

// Whether the broker serves a Fetch of a binding: `fetch` or `no-fetch`.
#[derive(Clone, Copy)]
pub struct Retrievable(pub bool);

impl Field for Retrievable {
    ghost field = { choice spec.fetches };

    fn read(word: &[u8]) -> Result<Retrievable, LineFault> {
        if word == b"fetch".as_slice() {
            Ok(Retrievable(true))
        } else if word == b"no-fetch".as_slice() {
            Ok(Retrievable(false))
        } else {
            Err(LineFault::BadChoice)
        }
    }
}

// Which side keeps the rules that tie a binding to its instance: `both`, `platform`, `broker` or `none`.
#[derive(Clone, Copy)]
pub struct Kept(pub Rules);

// The rules that these sides keep.
fn kept_by(platform: bool, broker: bool) -> Result<Kept, LineFault>
    ensures kept { result ≡ spec.kept_by platform broker }
{
    Ok(Kept(Rules { platform, broker }))
}

impl Field for Kept {
    ghost field = { choice spec.rules };

    fn read(word: &[u8]) -> Result<Kept, LineFault> {
        if word == b"both".as_slice() {
            kept_by(true, true)
        } else if word == b"platform".as_slice() {
            kept_by(true, false)
        } else if word == b"broker".as_slice() {
            kept_by(false, true)
        } else if word == b"none".as_slice() {
            kept_by(false, false)
        } else {
            Err(LineFault::BadChoice)
        }
    }
}

// What there is of the resource then: `absent`, `part` or `whole`.
#[derive(Clone, Copy)]
pub struct Becomes(pub Resource);

impl Field for Becomes {
    ghost field = { choice spec.resources };

    fn read(word: &[u8]) -> Result<Becomes, LineFault> {
        if word == b"absent".as_slice() {
            Ok(Becomes(Resource::Absent))
        } else if word == b"part".as_slice() {
            Ok(Becomes(Resource::Part))
        } else if word == b"whole".as_slice() {
            Ok(Becomes(Resource::Whole))
        } else {
            Err(LineFault::BadChoice)
        }
    }
}

// How the pending work ends, as the event.
#[derive(Clone, Copy)]
pub struct Ends(pub Event);

// The work ends so.
fn ends_with(outcome: WorkOutcome) -> Result<Ends, LineFault>
    ensures ends { result ≡ spec.ends_as outcome }
{
    Ok(Ends(Event::End { outcome }))
}

impl Field for Ends {
    ghost field = { choice spec.endings };

    fn read(word: &[u8]) -> Result<Ends, LineFault> {
        if word == b"done".as_slice() {
            ends_with(WorkOutcome::Done)
        } else if word == b"before".as_slice() {
            ends_with(WorkOutcome::Before)
        } else if word == b"after".as_slice() {
            ends_with(WorkOutcome::After)
        } else if word == b"refused-400".as_slice() {
            ends_with(WorkOutcome::Refused(Rejection::BadRequest))
        } else if word == b"refused-422".as_slice() {
            ends_with(WorkOutcome::Refused(Rejection::UnprocessableEntity))
        } else if word == b"unknown".as_slice() {
            Ok(Ends(Event::EndUnknown))
        } else {
            Err(LineFault::BadChoice)
        }
    }
}

// Which side crashes, as the event: `broker` or `platform`.
#[derive(Clone, Copy)]
pub struct Crashes(pub Event);

impl Field for Crashes {
    ghost field = { choice spec.crashes };

    fn read(word: &[u8]) -> Result<Crashes, LineFault> {
        if word == b"broker".as_slice() {
            Ok(Crashes(Event::CrashBroker))
        } else if word == b"platform".as_slice() {
            Ok(Crashes(Event::CrashPlatform))
        } else {
            Err(LineFault::BadChoice)
        }
    }
}
