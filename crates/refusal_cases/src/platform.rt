//! A platform is loaded.
use crate::instances::first;
use crate::telling::{Case, Returned, tell};
use anyhow::Result;
use osb_platform::{LoadFault, Platform};
use std::alloc::Global;

// A saved record of format 1 with one ready instance.
const FORMAT_1: &str = "{\"00000000-0000-0000-0000-000000000001\":\
    {\"plan\":\"00000000-0000-0000-0000-0000000000b1\",\
    \"service\":\"00000000-0000-0000-0000-0000000000a0\",\
    \"state\":\"ready\"}}";

#[derive(Drop)]
struct Loading {
    platform: Platform,
    alloc: Global,
}

impl Case for Loading {
    fn state(&self, alloc: Global) -> Result<String> {
        let state = self.platform.row(first()).map(|row| row.state);
        Ok(format!(in alloc; "{state:?}")?)
    }

    fn call(&mut self) -> Returned {
        match Platform::load(self.alloc, FORMAT_1) {
            Ok(platform) => {
                self.platform = platform;
                Returned::Word("Ok")
            }
            Err(LoadFault::Memory) => Returned::Memory,
            Err(_) => Returned::Word("another fault"),
        }
    }
}

// A restart of a world loads what it has saved in format 2.
pub fn load(rt: &impl Print, alloc: Global) -> Result<()> {
    let mut loading = Loading {
        platform: Platform::new(alloc),
        alloc,
    };
    tell(rt, alloc, "Platform::load", &mut loading)
}
