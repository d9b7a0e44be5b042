//! What a broker holds of the updates of one instance, as it crosses.
ghost use Rattle.std.specs.Prelude.{◌≡◌, ◌↔◌, Some, false, true, IfSome, IsTrue};
ghost use Rattle.osb_update.specs.Begun.{is_under_way};
ghost use Rattle.osb_c_update.specs.Holdings.{IsPlain, has_goal, holding_of, phase_code, phase_of};
ghost use Rattle.osb_c_update.specs.Settings.{settings_of, zero_settings};

use crate::settings::{OsbSettings, no_settings, settings_from, settings_out};
use osb_update::{Settings, UpdateHolding, UpdatePhase};

/// What a broker holds of the updates of one instance.
#[repr(C)]
#[derive(Clone, Copy)]
pub struct OsbUpdateHolding {
    /// The settings: those of the Provision, or of the last update that has succeeded.
    pub settings: OsbSettings,
    /// The settings to which the pending work or the operation leads. They count in `pending`, `updating` and
    /// `mending`.
    pub to: OsbSettings,
    /// The greatest number of an Update that was judged, or 0.
    pub number: u64,
    /// The number of the phase.
    pub phase: u8,
}

// The phase that a number stands for, with the settings to which it leads.
fn phase_from(code: u8, to: Settings) -> Option<UpdatePhase>
    ensures phase { result ≡ phase_of code to }
{
    match code {
        0 => Some(UpdatePhase::Settled),
        1 => Some(UpdatePhase::Pending(to)),
        2 => Some(UpdatePhase::Updating(to)),
        3 => Some(UpdatePhase::Failed),
        4 => Some(UpdatePhase::Mending(to)),
        _ => None,
    }
}

// The number of a phase.
fn phase_out(phase: &UpdatePhase) -> u8
    ensures code { result ≡ phase_code phase.now }
{
    match phase {
        UpdatePhase::Settled => 0,
        UpdatePhase::Pending(_) => 1,
        UpdatePhase::Updating(_) => 2,
        UpdatePhase::Failed => 3,
        UpdatePhase::Mending(_) => 4,
    }
}

// The settings to which a phase leads as they cross, or zeroes.
fn goal_out(phase: &UpdatePhase) -> OsbSettings
    ensures goal { phase_of (phase_code phase.now) (settings_of result) ≡ Some phase.now }
    ensures plain { has_goal (phase_code phase.now) ≡ false → result ≡ zero_settings }
{
    match phase {
        UpdatePhase::Settled | UpdatePhase::Failed => no_settings(),
        UpdatePhase::Pending(to) | UpdatePhase::Updating(to) | UpdatePhase::Mending(to) => {
            settings_out(to)
        }
    }
}

/// The holding of updates that crossed, if its number stands for a phase. It takes no memory.
pub fn holding_from(holding: &OsbUpdateHolding) -> Option<UpdateHolding>
    ensures holding { result ≡ holding_of holding.now }
    ensures number { IfSome result (λ held. held.number ≡ holding.now.number) }
{
    let phase = phase_from(holding.phase, settings_from(&holding.to))?;
    Some(UpdateHolding {
        settings: settings_from(&holding.settings),
        number: holding.number,
        phase,
    })
}

/// The holding of updates as it crosses. It takes no memory.
pub fn holding_out(held: &UpdateHolding) -> OsbUpdateHolding
    ensures holding { holding_of result ≡ Some held.now }
    ensures number { result.number ≡ held.now.number }
    ensures plain { IsPlain result }
{
    OsbUpdateHolding {
        settings: settings_out(&held.settings),
        to: goal_out(&held.phase),
        number: held.number,
        phase: phase_out(&held.phase),
    }
}

/// The holding of an instance of which no Update was judged, with the settings of its Provision. It takes no memory.
#[unsafe(no_mangle)]
pub extern "C" fn osb_update_new(settings: &OsbSettings, holding: &mut OsbUpdateHolding)
    ensures settled { holding_of holding.new
        ≡ Some (record { settings = settings_of settings.now; number = 0; phase = UpdatePhase.Settled }) }
    ensures plain { IsPlain holding.new }
{
    *holding = holding_out(&UpdateHolding::new(settings_from(settings)));
}

/// Whether the work of an Update is pending, or its operation runs. True also if the holding is none that a call gives,
/// so that a program which asks lets nothing begin then. No deletion of the instance begins while an update is under
/// way, which `osb_update_begin_instance` asks itself. It takes no memory.
#[unsafe(no_mangle)]
pub extern "C" fn osb_update_is_under_way(holding: &OsbUpdateHolding) -> bool
    ensures under_way { IsTrue result ↔ IfSome (holding_of holding.now) (λ held.
        is_under_way held.phase ≡ true) }
{
    match holding_from(holding) {
        Some(held) => held.is_under_way(),
        None => true,
    }
}
