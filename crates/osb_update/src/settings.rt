//! What an Update changes.
ghost use Rattle.std.specs.Prelude.{◌≡◌, ◌↔◌, true, IsTrue};
ghost use Rattle.osb_instance.specs.Begin.{is_same_digest};
ghost use Rattle.osb_update.specs.Settings.{chosen_digest, chosen_plan, is_same_settings, with_change};
ghost use Rattle.osb_update.specs.Settings.{named_digest, named_parts, named_plan};
ghost use Rattle.osb_update.specs.declared.settings.Settings.{Settings};

use osb_instance::Digest;
use osb_message::PlanId;

/// What an instance is set to, and what an Update changes (section Updating a Service Instance). What goes into the
/// digests is the caller's choice.
#[derive(Clone, Copy, Debug, PartialEq, Eq, Hash)]
pub struct Settings {
    /// The plan (`plan_id`).
    pub plan: PlanId,
    /// The digest of the parameters (`parameters`).
    pub parameters: Digest,
    /// The digest of the version of the maintenance (`maintenance_info`).
    pub version: Digest,
}

/// The settings that an Update names. What it doesn't name stays (section Updating a Service Instance).
#[derive(Clone, Copy, Debug, PartialEq, Eq, Hash)]
pub struct Change {
    /// The plan, if it is named.
    pub plan: Option<PlanId>,
    /// The digest of the parameters, if they are named.
    pub parameters: Option<Digest>,
    /// The digest of the version of the maintenance, if it is named.
    pub version: Option<Digest>,
}

// The plan that is named, or that of before.
fn chosen_plan(named: Option<PlanId>, before: PlanId) -> PlanId
    ensures chosen { result ≡ chosen_plan named before }
{
    match named {
        None => before,
        Some(plan) => plan,
    }
}

// The digest that is named, or that of before.
fn chosen_digest(named: Option<Digest>, before: Digest) -> Digest
    ensures chosen { result ≡ chosen_digest named before }
{
    match named {
        None => before,
        Some(digest) => digest,
    }
}

// Whether both are the same.
fn is_same_digest(one: &Digest, other: &Digest) -> bool
    ensures same { result ≡ is_same_digest one.now other.now }
{
    *one == *other
}

// The plan, unless it is that of before and needn't be named.
fn named_plan(before: PlanId, to: PlanId, all: bool) -> Option<PlanId>
    ensures named { result ≡ named_plan before to all }
{
    if all || before != to { Some(to) } else { None }
}

// The digest, unless it is that of before and needn't be named.
fn named_digest(before: &Digest, to: &Digest, all: bool) -> Option<Digest>
    ensures named { result ≡ named_digest before.now to.now all }
{
    if all || !is_same_digest(before, to) {
        Some(*to)
    } else {
        None
    }
}

impl Settings {
    /// The settings that an Update asks for which comes for an instance with these. It takes no memory.
    pub fn with(&self, change: &Change) -> Settings
        ensures changed { result ≡ with_change self.now change.now }
    {
        Settings {
            plan: chosen_plan(change.plan, self.plan),
            parameters: chosen_digest(change.parameters, self.parameters),
            version: chosen_digest(change.version, self.version),
        }
    }

    /// Whether both are the same. It takes no memory.
    #[tactic(auto, using(crate::proofs::Same::same_settings))]
    pub fn is_same(&self, other: &Settings) -> bool
        ensures same { result ≡ is_same_settings self.now other.now }
        ensures equal { IsTrue result ↔ (self.now ≡ other.now) }
    {
        self.plan == other.plan
            && is_same_digest(&self.parameters, &other.parameters)
            && is_same_digest(&self.version, &other.version)
    }

    /// What an Update names that asks for `to`: each part that differs from these settings, and all three if `all`
    /// (this project's choice). So an instance with these settings is asked for `to`, and any instance if `all`. It takes
    /// no memory.
    #[tactic(auto, using(crate::proofs::Same::named_asks, crate::proofs::Same::all_asks))]
    pub fn change_to(&self, to: &Settings, all: bool) -> Change
        ensures named { result ≡ named_parts self.now to.now all }
        ensures asks { with_change self.now result ≡ to.now }
        ensures all { (all ≡ true) → (before : Settings) → with_change before result ≡ to.now }
    {
        Change {
            plan: named_plan(self.plan, to.plan, all),
            parameters: named_digest(&self.parameters, &to.parameters, all),
            version: named_digest(&self.version, &to.version, all),
        }
    }
}
