//! The broker, with its database: a row of the instance, and a row of each binding. A program makes each call that
//! writes a row a transaction. All that the broker knows is in these rows, so a broker that was killed goes on with
//! them.
use crate::backend::Backend;
use crate::words::{Answered, Of, tell_holding};
use anyhow::{Context, Result, ensure};
use osb_binding::{BindingHolding, BindingId, BindingRequest, begin_instance};
use osb_instance::{Begun, Digest, Holding, WorkOutcome};
use osb_message::{Answer, Kind, Mode, Request};
use std::alloc::Global;
use std::collections::BTreeMap;

// How the plan's instances and bindings work, as the catalogue has it.
const MODE: Option<Mode> = Some(Mode::Sync);

const FIRST_POLL: bool = false;

#[derive(Drop)]
struct Row {
    holding: String,
    held: bool,
    credentials: Option<u64>,
}

#[derive(Drop)]
pub(crate) struct Broker {
    alloc: Global,
    instance: String,
    bindings: BTreeMap<BindingId, Row>,
}

// The answer to a request of a binding: a 200 or 201 to a Bind has the credentials of the row.
fn answered(kind: Kind, answer: Answer, stored: Option<u64>) -> Answered {
    let gives = kind == Kind::Provision && (answer.status == 200 || answer.status == 201);
    Answered {
        answer,
        credentials: if gives { stored } else { None },
    }
}

impl Broker {
    pub(crate) fn new(alloc: Global) -> Result<Broker> {
        Ok(Broker {
            alloc,
            instance: Holding::NONE.to_text(alloc)?,
            bindings: BTreeMap::new(alloc),
        })
    }

    fn write(&mut self, rt: &impl Print, holding: Holding) -> Result<()> {
        self.instance = holding.to_text(self.alloc)?;
        tell_holding(rt, Of::Instance, holding, None)
    }

    fn holding(&self) -> Result<Holding> {
        Ok(Holding::from_text(self.alloc, self.instance.as_str())?)
    }

    fn write_binding(
        &mut self,
        rt: &impl Print,
        id: BindingId,
        holding: BindingHolding,
        credentials: Option<u64>,
    ) -> Result<()> {
        let life = holding.as_holding();
        let row = Row {
            holding: holding.to_text(self.alloc)?,
            held: holding.is_held(),
            credentials,
        };
        self.bindings.insert(id, row)?;
        tell_holding(rt, Of::Binding(id), life, credentials)
    }

    // What is held of a binding, and the credentials beside it.
    fn binding(&self, id: BindingId) -> Result<(BindingHolding, Option<u64>)> {
        let Some(row) = self.bindings.get(&id) else {
            return Ok((BindingHolding::NONE, None));
        };
        let holding = BindingHolding::from_text(self.alloc, row.holding.as_str())?;
        Ok((holding, row.credentials))
    }

    fn any_held(&self) -> bool {
        for row in self.bindings.values() {
            if row.held {
                return true;
            }
        }
        false
    }

    // ---- the instance

    // A request arrives: the answer, or none if its work is due, which is pending then.
    pub(crate) fn arrive(&mut self, rt: &impl Print, request: &Request) -> Result<Option<Answer>> {
        let any_held = self.any_held();
        let (holding, begun) = begin_instance(
            self.holding()?,
            MODE,
            FIRST_POLL,
            request,
            Digest::NONE,
            any_held,
        );
        self.write(rt, holding)?;
        match begun {
            Begun::Answered(answer) => Ok(Some(answer)),
            Begun::Work(_) => Ok(None),
        }
    }

    // The pending work is done, and ends.
    pub(crate) fn work(&mut self, rt: &impl Print, backend: &Backend) -> Result<Answer> {
        let holding = self.holding()?;
        ensure!(holding.fits(MODE), "the holding doesn't fit its plan");
        let request = holding.work().context("no work is pending")?;
        match request.kind {
            Kind::Provision => backend.create(rt)?,
            Kind::Deprovision => backend.delete(rt)?,
            Kind::Poll => anyhow::bail!("a Poll is no work"),
        }
        let (holding, answer) = holding.end(MODE, WorkOutcome::Done)?;
        self.write(rt, holding)?;
        Ok(answer)
    }

    // ---- a binding

    // A request arrives: the answer, or none if its work is due, which is pending then. If nothing has changed, nothing
    // is written: of a binding whose row was deleted, no row comes back.
    pub(crate) fn arrive_binding(
        &mut self,
        rt: &impl Print,
        request: &BindingRequest,
    ) -> Result<Option<Answered>> {
        let instance = self.holding()?;
        let (before, credentials) = self.binding(request.binding)?;
        let (holding, begun) = before.begin(instance, MODE, FIRST_POLL, request, Digest::NONE);
        if holding == before {
            let of = Of::Binding(request.binding);
            tell_holding(rt, of, holding.as_holding(), credentials)?;
        } else {
            self.write_binding(rt, request.binding, holding, credentials)?;
        }
        match begun {
            Begun::Answered(answer) => Ok(Some(answered(request.kind, answer, credentials))),
            Begun::Work(_) => Ok(None),
        }
    }

    // The pending work is done, and ends. If the broker was killed in the middle of the work, the resource exists
    // already, and its credentials are those that the backend has. So `Done` is the truth in each case.
    pub(crate) fn work_binding(
        &mut self,
        rt: &impl Print,
        backend: &mut Backend,
        id: BindingId,
    ) -> Result<Answered> {
        let (holding, _) = self.binding(id)?;
        ensure!(holding.fits(MODE), "the holding doesn't fit its plan");
        let request = holding.work().context("no work is pending")?;
        let credentials = match request.kind {
            Kind::Provision => Some(backend.role(rt, id)?),
            Kind::Deprovision => {
                backend.delete_role(rt, id)?;
                None
            }
            Kind::Poll => anyhow::bail!("a Poll is no work"),
        };
        let (holding, answer) = holding.end(MODE, WorkOutcome::Done)?;
        self.write_binding(rt, id, holding, credentials)?;
        Ok(answered(request.kind, answer, credentials))
    }

    // A broker starts: the first binding whose work is pending.
    pub(crate) fn pending(&self) -> Result<Option<BindingId>> {
        for (id, row) in self.bindings.iter() {
            let holding = BindingHolding::from_text(self.alloc, row.holding.as_str())?;
            if holding.work().is_some() {
                return Ok(Some(*id));
            }
        }
        Ok(None)
    }

    // Deletes the rows of the bindings, which have ended, once the instance has.
    pub(crate) fn forget(&mut self) -> Result<()> {
        ensure!(self.holding()?.has_tombstone(), "the instance hasn't ended");
        ensure!(!self.any_held(), "a binding is held");
        self.bindings = BTreeMap::new(self.alloc);
        Ok(())
    }
}
