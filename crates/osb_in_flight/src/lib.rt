//! What is between a platform and a broker: for each instance the request that is out, and the answer
//! that travels.
//!
//! [`Messages`] is that of one instance, and a [`MessageList`] has it for each that has an entry:
//!
//! ```
//! let mut list = MessageList::new(rt.alloc());
//! let id = InstanceId::from_value(1);
//! assert_eq!(rt; list.get(id), None);
//! list.insert(id, SILENCE)?;
//! assert_eq!(rt; list.get(id), Some(SILENCE));
//! ```
//!
//! What is sent, delivered, lost and answered is `osb_world`'s to say. All of it is this project's choice.
//!
//! Contracts see a list as a finite map from ids to messages. [`MessageList::insert`] takes memory, and
//! nothing else does.
#![tactic(auto)]

mod message_list;
mod messages;

pub use message_list::MessageList;
pub use messages::{Messages, SILENCE};
