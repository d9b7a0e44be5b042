//! Readers and writers that are asked no more once they have failed.
//!
//! An [`Input`] wraps a reader and an [`Output`] a writer, of whatever kind. Each remembers whether its device
//! has refused, that is, returned an error, or taken nothing of what it was given. From then on each call
//! returns [`DeviceFault`] and asks nothing. A [`Buffer`] of a fixed size gathers short texts for an output.
//!
//! ```
//! let mut output = Output::new(rt.stdout());
//! output.write_out(b"applied 3\n")?;
//! assert!(rt; !output.refused());
//! ```
//!
//! All of it is this project's choice. Nothing here takes memory.
#![tactic(auto)]

mod buffer;
mod fault;
mod input;
mod output;

pub use buffer::Buffer;
pub use fault::DeviceFault;
pub use input::Input;
pub use output::Output;
