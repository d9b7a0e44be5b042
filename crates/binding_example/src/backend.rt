//! The backend: a database, and a role in it for each binding. It chooses the credentials of a role when it creates the
//! role, and returns them whenever it is asked.
use crate::words::{Of, begin, end};
use anyhow::Result;
use osb_binding::BindingId;
use std::alloc::Global;
use std::collections::BTreeMap;

#[derive(Drop)]
pub(crate) struct Backend {
    roles: BTreeMap<BindingId, u64>,
    chosen: u64,
}

impl Backend {
    pub(crate) fn new(alloc: Global) -> Backend {
        Backend {
            roles: BTreeMap::new(alloc),
            chosen: 0,
        }
    }

    // Creates the database.
    pub(crate) fn create(&self, rt: &impl Print) -> Result<()> {
        begin(rt, "backend ", &Of::Instance)?;
        Ok(println!(rt; "created")?)
    }

    // Deletes the database.
    pub(crate) fn delete(&self, rt: &impl Print) -> Result<()> {
        begin(rt, "backend ", &Of::Instance)?;
        Ok(println!(rt; "deleted")?)
    }

    // The credentials of a role, which is created unless it exists.
    pub(crate) fn role(&mut self, rt: &impl Print, id: BindingId) -> Result<u64> {
        begin(rt, "backend ", &Of::Binding(id))?;
        if let Some(credentials) = self.roles.get(&id).copied() {
            print!(rt; "exists")?;
            end(rt, Some(credentials))?;
            return Ok(credentials);
        }
        self.chosen = self.chosen.wrapping_add(1);
        self.roles.insert(id, self.chosen)?;
        print!(rt; "created")?;
        end(rt, Some(self.chosen))?;
        Ok(self.chosen)
    }

    // Deletes a role, if it exists.
    pub(crate) fn delete_role(&mut self, rt: &impl Print, id: BindingId) -> Result<()> {
        self.roles.remove(&id);
        begin(rt, "backend ", &Of::Binding(id))?;
        Ok(println!(rt; "deleted")?)
    }
}
