//! Requests and answers of the Open Service Broker API as the bytes of HTTP and JSON, both ways: what one
//! side writes, the other reads.
//!
//! A platform sends what [`write_request`] gives, and takes what [`read_answer`] makes of the response. A
//! broker takes what [`read_request`] makes of the request, and answers with what [`write_answer`] gives:
//!
//! ```
//! let names = Names { instance: "a database", service: "postgres", plan: "postgres-small" };
//! let request = Request {
//!     kind: Kind::Provision,
//!     id: id_of_text(names.instance)?,
//!     service: id_of_text(names.service)?,
//!     plan: id_of_text(names.plan)?,
//!     accepts_incomplete: true,
//! };
//! let none = Map::new(alloc);
//! let sent = write_request(alloc, "", &request, &names, None, "an organization", "a space", none)?;
//! assert_eq!(rt; sent.method, "PUT");
//! let target = sent.target.as_str();
//! assert_eq!(rt; target, "/v2/service_instances/a%20database?accepts_incomplete=true");
//! let received = read_request(alloc, "", 1_000_000, sent.method, target.as_bytes(), sent.body.as_bytes())?;
//! assert_eq!(rt; received.asked.request(None), request);
//! assert_eq!(rt; received.instance.as_str(), "a database");
//! let body = write_answer(alloc, Answer { status: 202, body: Body::Empty }, Some("the first"), None)?;
//! assert_eq!(rt; body.as_str(), "{\"operation\":\"the first\"}");
//! let answer = read_answer(alloc, Kind::Provision, 202, body.as_bytes())?;
//! assert_eq!(rt; answer, Some(Answer { status: 202, body: Body::Empty }));
//! ```
//!
//! Ids are texts: [`id_of_text`] gives each the number that the other crates know it by, and [`Names`] are the texts of a
//! request. Beside the answer, [`read_details`] returns what a person is told; beside the request, [`Received`] has the
//! texts of the ids and the parts of the body, and [`attributes_digest`] the digest by which two requests are compared.
//!
//! No connection is opened here, and no HTTP is written: the method, the target, the statuses and the
//! bodies go into an HTTP library and come out of one. [`api_version`], [`basic_auth`], [`originating_identity`] and
//! [`request_identity`] judge headers of a request, and [`retry_after`] reads one of an answer. [`catalogue_document`]
//! reads and judges the catalogue that a broker sells, and [`served_catalogue`] returns the document that it serves.
//!
//! What [`write_request`] gives, [`method_of`], [`write_named_target`] and [`write_named_body`] give one at a time;
//! [`write_target`] and [`write_body`] do it of ids that are GUIDs in lower case.
//!
//! The modules that are public hold the parts that `osb_binding_wire` reads and writes requests of bindings by.
//!
//! Each call takes memory but [`api_version`], [`request_identity`], [`retry_after`], [`method_of`], [`id_of_text`],
//! [`text_of_id`], [`asks_for_catalogue`], [`maintenance_conflict_body`] and those of [`Refusal`] and [`Asked`]. What the standard doesn't say and
//! is said here is marked as this project's choice.
#![tactic(auto)]

mod answer_reading;
mod answer_writing;
mod asked;
pub mod catalogue_reading;
mod catalogue_rules;
mod details;
mod digests;
mod headers;
pub mod id_texts;
pub mod json_body;
pub mod json_texts;
mod maintenance;
pub mod names;
pub mod path_reading;
pub mod provision_reading;
pub mod provision_writing;
pub mod query_reading;
mod received;
mod refusal;
pub mod request_reading;
mod request_writing;
mod sold_document;
pub mod target_reading;
pub mod target_writing;

pub use answer_reading::{read_answer, read_operation};
pub use answer_writing::write_answer;
pub use asked::Asked;
pub use catalogue_reading::{CatalogueFault, catalogue_plans};
pub use catalogue_rules::{Endpoints, RuleFault};
pub use details::{Details, read_details};
pub use digests::{attributes_digest, parameters_digest};
pub use headers::{
    API_VERSION, API_VERSION_HEADER, CONTENT_TYPE, ORIGINATING_IDENTITY_HEADER,
    OriginatingIdentity, REQUEST_IDENTITY_HEADER, api_version, basic_auth, originating_identity,
    request_identity, retry_after,
};
pub use id_texts::id_of_text;
pub use json_texts::{Parts, body_parts, member_text, served_catalogue};
pub use maintenance::{
    MAINTENANCE_CONFLICT_STATUS, maintenance_conflict, maintenance_conflict_body, plan_version,
};
pub use names::{NameFault, Names};
pub use received::Received;
pub use refusal::Refusal;
pub use request_reading::{asked_operation, read_request};
pub use request_writing::{WrittenRequest, write_body, write_named_body, write_request};
pub use sold_document::{CatalogueDocument, DocumentFault, catalogue_document, text_of_id};
pub use target_reading::asks_for_catalogue;
pub use target_writing::{method_of, write_named_target, write_target};
