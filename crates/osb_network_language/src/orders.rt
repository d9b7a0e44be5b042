//! The lines that take an instance or a binding in.
ghost use Rattle.std.specs.Prelude.{◌≡◌, ◌≢◌, ◌∷◌, [], length, MatchOption};
ghost use Rattle.osb_language.specs.Words.{words_in};
ghost use Rattle.osb_network_language.specs.Orders as spec;

use crate::choices::{FirstPoll, Kept, PlanMode, Retrievable};
use crate::event::NetworkEvent;
use crate::life::Bound;
use osb_binding_network::{BindingOrder, ServiceEvent};
use osb_instance::Digest;
use osb_language::{Accepts, Field, LineFault, four_words, split_word};
use osb_message::{InstanceId, PlanId, ServiceId};
use osb_network::Order;

// The seven words after `instance`, each as bytes.
#[derive(Clone, Copy)]
struct InstanceWords<'a> {
    id: &'a [u8],
    service: &'a [u8],
    plan: &'a [u8],
    choices: (&'a [u8], &'a [u8], &'a [u8], &'a [u8]),
}

// The first three words of a line, and the four that follow, or none where it has more or fewer.
fn seven_words(line: &[u8]) -> Option<InstanceWords<'_>>
    ensures words { MatchOption result (length (words_in line.now) ≢ 7) (λ w. words_in line.now
        ≡ w.id.now ∷ w.service.now ∷ w.plan.now ∷ w.choices.0.now ∷ w.choices.1.now ∷ w.choices.2.now
        ∷ w.choices.3.now ∷ []) }
{
    let (id, rest) = split_word(line)?;
    let (service, rest) = split_word(rest)?;
    let (plan, rest) = split_word(rest)?;
    let choices = four_words(rest)?;
    Some(InstanceWords {
        id,
        service,
        plan,
        choices,
    })
}

// What the seven words say.
fn order_of(words: &InstanceWords<'_>) -> Result<NetworkEvent, LineFault>
    ensures order { result ≡ spec.instance_of words.now.id.now words.now.service.now words.now.plan.now
        words.now.choices.0.now words.now.choices.1.now words.now.choices.2.now words.now.choices.3.now }
{
    let id = InstanceId::read(words.id)?;
    let service = ServiceId::read(words.service)?;
    let plan = PlanId::read(words.plan)?;
    let (mode, accepts, poll, rules) = words.choices;
    let PlanMode(mode) = PlanMode::read(mode)?;
    let Accepts(accepts) = Accepts::read(accepts)?;
    let FirstPoll(first_poll) = FirstPoll::read(poll)?;
    let Kept(rules) = Kept::read(rules)?;
    let order = Order {
        id,
        service,
        plan,
        mode,
        accepts,
        first_poll,
        attributes: Digest::NONE,
    };
    Ok(NetworkEvent::Instance { order, rules })
}

// The line `instance ID SERVICE PLAN MODE ACCEPTS POLL RULES`, after its first word.
pub fn read_instance(words: &[u8]) -> Result<NetworkEvent, LineFault>
    ensures order { result ≡ spec.instance_as (words_in words.now) }
{
    let Some(words) = seven_words(words) else {
        return Err(LineFault::WordCount);
    };
    order_of(&words)
}

// The first word of a line and the four that follow, or none where it has more or fewer.
fn five_words(line: &[u8]) -> Option<(&[u8], (&[u8], &[u8], &[u8], &[u8]))>
    ensures words { MatchOption result (length (words_in line.now) ≢ 5) (λ w. words_in line.now
        ≡ w.0.now ∷ w.1.0.now ∷ w.1.1.now ∷ w.1.2.now ∷ w.1.3.now ∷ []) }
{
    let (first, rest) = split_word(line)?;
    let others = four_words(rest)?;
    Some((first, others))
}

// The line `binding ID/BINDING MODE ACCEPTS POLL FETCH`, after its first word.
pub fn read_binding(words: &[u8]) -> Result<NetworkEvent, LineFault>
    ensures order { result ≡ spec.binding_as (words_in words.now) }
{
    let Some((bound, (mode, accepts, poll, fetch))) = five_words(words) else {
        return Err(LineFault::WordCount);
    };
    let bound = Bound::read(bound)?;
    let PlanMode(mode) = PlanMode::read(mode)?;
    let Accepts(accepts) = Accepts::read(accepts)?;
    let FirstPoll(first_poll) = FirstPoll::read(poll)?;
    let Retrievable(retrievable) = Retrievable::read(fetch)?;
    let order = BindingOrder {
        id: bound.id,
        mode,
        accepts,
        first_poll,
        attributes: Digest::NONE,
        retrievable,
    };
    Ok(NetworkEvent::Happening {
        id: bound.instance,
        event: ServiceEvent::Order(order),
    })
}
