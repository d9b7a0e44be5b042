//! The platform, with its database: a row of the instance, and a row of each binding. A program makes each call that
//! writes a row a transaction, and sends a request after that.
use crate::ids::{instance_id, plan_id, service_id};
use crate::words::{Answered, Of, bare, begin, tell_answer, tell_record, tell_request};
use anyhow::{Context, Result};
use osb_binding::{BindingId, BindingRecord, BindingSent, remove_instance};
use osb_instance::{Record, Sent};
use osb_message::Answer;
use std::alloc::Global;
use std::collections::BTreeMap;

// Whether the broker serves the Fetch of a binding.
const RETRIEVABLE: bool = true;

#[derive(Drop)]
struct Row {
    record: String,
    credentials: Option<u64>,
}

#[derive(Drop)]
pub(crate) struct Platform {
    alloc: Global,
    instance: String,
    bindings: BTreeMap<BindingId, Row>,
}

impl Platform {
    pub(crate) fn new(alloc: Global) -> Platform {
        Platform {
            alloc,
            instance: String::new(alloc),
            bindings: BTreeMap::new(alloc),
        }
    }

    fn write(&mut self, rt: &impl Print, record: Record) -> Result<()> {
        self.instance = record.to_text(self.alloc)?;
        tell_record(rt, Of::Instance, record, None)
    }

    fn record(&self) -> Result<Record> {
        Ok(Record::from_text(self.alloc, self.instance.as_str())?)
    }

    // The credentials are kept only beside a record that is `ready`.
    fn write_binding(
        &mut self,
        rt: &impl Print,
        id: BindingId,
        record: BindingRecord,
        credentials: Option<u64>,
    ) -> Result<()> {
        let life = record.as_record();
        let credentials = if record.is_ready() { credentials } else { None };
        let record = record.to_text(self.alloc)?;
        self.bindings.insert(
            id,
            Row {
                record,
                credentials,
            },
        )?;
        tell_record(rt, Of::Binding(id), life, credentials)
    }

    fn binding(&self, id: BindingId) -> Result<BindingRecord> {
        let row = self.bindings.get(&id).context("no such binding")?;
        Ok(BindingRecord::from_text(self.alloc, row.record.as_str())?)
    }

    // Whether each recorded binding is `gone`.
    fn all_gone(&self) -> Result<bool> {
        for row in self.bindings.values() {
            let record = BindingRecord::from_text(self.alloc, row.record.as_str())?;
            if !record.is_gone() {
                return Ok(false);
            }
        }
        Ok(true)
    }

    // ---- the instance

    pub(crate) fn create(&mut self, rt: &impl Print) -> Result<Sent> {
        let (record, sent) = Record::create(instance_id(), service_id(), plan_id(), false);
        self.write(rt, record)?;
        tell_request(rt, Of::Instance, sent.request.kind, sent.attempt)?;
        Ok(sent)
    }

    pub(crate) fn send(&mut self, rt: &impl Print) -> Result<Sent> {
        let (record, sent) = self.record()?.send(instance_id())?;
        self.write(rt, record)?;
        tell_request(rt, Of::Instance, sent.request.kind, sent.attempt)?;
        Ok(sent)
    }

    pub(crate) fn take(&mut self, rt: &impl Print, attempt: u64, answer: Answer) -> Result<()> {
        tell_answer(rt, Of::Instance, Some(attempt), bare(answer))?;
        let record = self.record()?.answer(attempt, answer)?;
        self.write(rt, record)
    }

    // An operator removes the instance.
    pub(crate) fn remove(&mut self, rt: &impl Print) -> Result<()> {
        match remove_instance(self.record()?, self.all_gone()?) {
            Ok(record) => self.write(rt, record),
            Err(fault) => {
                begin(rt, "platform", &Of::Instance)?;
                Ok(println!(rt; "{fault}")?)
            }
        }
    }

    // ---- a binding

    pub(crate) fn create_binding(&mut self, rt: &impl Print, id: BindingId) -> Result<BindingSent> {
        let (record, sent) = BindingRecord::create(self.record()?, instance_id(), id, false)?;
        self.write_binding(rt, id, record, None)?;
        tell_request(rt, Of::Binding(id), sent.request.kind, sent.attempt)?;
        Ok(sent)
    }

    pub(crate) fn send_binding(&mut self, rt: &impl Print, id: BindingId) -> Result<BindingSent> {
        let (record, sent) = self.binding(id)?.send(instance_id(), id)?;
        self.write_binding(rt, id, record, None)?;
        tell_request(rt, Of::Binding(id), sent.request.kind, sent.attempt)?;
        Ok(sent)
    }

    pub(crate) fn time_out(&mut self, rt: &impl Print, id: BindingId, attempt: u64) -> Result<()> {
        let record = self.binding(id)?.timeout(attempt)?;
        self.write_binding(rt, id, record, None)
    }

    // Takes an answer to the request that is out, and drops any other.
    pub(crate) fn take_binding(
        &mut self,
        rt: &impl Print,
        id: BindingId,
        attempt: u64,
        answered: Answered,
    ) -> Result<()> {
        tell_answer(rt, Of::Binding(id), Some(attempt), answered)?;
        let taken = self
            .binding(id)?
            .answer(attempt, answered.answer, RETRIEVABLE);
        match taken {
            Ok(record) => self.write_binding(rt, id, record, answered.credentials),
            Err(not_out) => {
                begin(rt, "platform", &Of::Binding(id))?;
                Ok(println!(rt; "{not_out}")?)
            }
        }
    }

    // An operator removes a binding.
    pub(crate) fn remove_binding(&mut self, rt: &impl Print, id: BindingId) -> Result<()> {
        let record = self.binding(id)?.remove()?;
        self.write_binding(rt, id, record, None)
    }
}
