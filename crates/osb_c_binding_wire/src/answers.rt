//! The object of a binding in answers.
ghost use Rattle.std.specs.Prelude.{◌≡◌, ◌↔◌, true, false, [], ◌∷◌, Some, None, IfOk, IsTrue, IsNone};
ghost use Rattle.osb_message.specs.declared.messages.Body.TheVariants as Body;
ghost use Rattle.osb_message.specs.declared.messages.Kind.TheVariants as Kind;
ghost use Rattle.osb_wire.specs.Answers.{answer_in};
ghost use Rattle.osb_binding_wire.specs.Objects as objects;
ghost use Rattle.osb_c_types.specs.Kinds.{kind_of};
ghost use Rattle.osb_c_types.specs.Status.{code, is_one_of};
ghost use Rattle.osb_c_binding_wire.specs.Objects.{object_of};

use osb_binding_wire::{read_binding_answer, read_fetched, write_binding};
use osb_c_types::{Status, kind_from};
use osb_message::{Kind, Memory};
use std::alloc::Global;

/// Judges the object of a binding that a broker sends as the body of a 200 or a 201 to a Bind, and of a 200 to a Fetch.
/// The object that is stored is sent as it stands, and [`osb_read_binding`] finds it in the response (sections Binding
/// and Fetching a Service Binding).
///
/// It returns `Done`; `NotAnObject` if the text isn't UTF-8, isn't JSON or is no object; or, in place of either,
/// `Memory` if an allocation failed.
#[tactic(auto, using(osb_wire::proofs::BodyValues::value_in_no_text))]
#[unsafe(no_mangle)]
pub extern "C" fn osb_write_binding(alloc: Global, object: &[u8]) -> u32
    ensures object { result ≡ code Status.Done → objects.object_text object.now ≡ Some object.now }
    ensures bound { result ≡ code Status.Done → (objects.bound_in Kind.Provision 201 object.now ≡ Some object.now)
        × (objects.bound_in Kind.Provision 200 object.now ≡ Some object.now) }
    ensures created { result ≡ code Status.Done
        → answer_in Kind.Provision 201 object.now ≡ Some record { status = 201; body = Body.Empty } }
    ensures repeated { result ≡ code Status.Done
        → answer_in Kind.Provision 200 object.now ≡ Some record { status = 200; body = Body.Empty } }
    ensures fetched { result ≡ code Status.Done → objects.fetched_in 200 object.now ≡ Some object.now }

    ensures not_an_object { result ≡ code Status.NotAnObject → objects.object_text object.now ≡ None }
    ensures statuses { IsTrue (is_one_of (Status.Done ∷ Status.NotAnObject ∷ Status.Memory ∷ []) result) }
{
    let Ok(object) = std::str::from_utf8(object) else {
        return Status::NotAnObject.code();
    };
    match write_binding(alloc, object) {
        Ok(Some(_)) => Status::Done.code(),
        Ok(None) => Status::NotAnObject.code(),
        Err(Memory) => Status::Memory.code(),
    }
}

// Whether the response to a request of the kind has the binding's object.
#[tactic(auto, using(crate::proofs::Objects::whole_text))]
fn has_bound(alloc: Global, kind: Kind, status: u16, body: &[u8]) -> Result<bool, Memory>
    ensures object { IfOk result (λ has. has ≡ true → objects.bound_in kind status body.now ≡ Some body.now) }
    ensures none { IfOk result (λ has. has ≡ false → objects.bound_in kind status body.now ≡ None) }
{
    match read_binding_answer(alloc, kind, status, body) {
        Ok(found) => Ok(found.object.is_some()),
        Err(Memory) => Err(Memory),
    }
}

// Whether the response to a Fetch has the binding's object.
fn has_fetched(alloc: Global, status: u16, body: &[u8]) -> Result<bool, Memory>
    ensures object { IfOk result (λ has. has ≡ true → objects.fetched_in status body.now ≡ Some body.now) }
    ensures none { IfOk result (λ has. has ≡ false → objects.fetched_in status body.now ≡ None) }
{
    match read_fetched(alloc, status, body) {
        Ok(found) => Ok(found.is_some()),
        Err(Memory) => Err(Memory),
    }
}

/// Judges whether a response has the object of the binding, which is its whole body as it stands: that of a 200 or a
/// 201 to a Bind (`Provision`), and of a 200 to a Fetch, if the body is an object of JSON. What stands in the object is
/// not judged. The kind is that of the request, and counts if `is_fetch` is false (sections Binding and Fetching a
/// Service Binding). `osb_read_answer` gives the answer to a Bind, an Unbind and a Poll.
///
/// It returns `Done`; `BadKind` exactly if `is_fetch` is false and the number stands for no kind; `NoBinding` if the
/// response has no such object; or, in place of `Done` and of `NoBinding`, `Memory` if an allocation failed.
#[unsafe(no_mangle)]
pub extern "C" fn osb_read_binding(
    alloc: Global,
    is_fetch: bool,
    kind: u8,
    status: u16,
    body: &[u8],
) -> u32
    ensures object { result ≡ code Status.Done → object_of is_fetch kind status body.now ≡ Some body.now }

    ensures bad_kind { (result ≡ code Status.BadKind) ↔ ((is_fetch ≡ false) × IsNone (kind_of kind)) }
    ensures no_binding { result ≡ code Status.NoBinding → object_of is_fetch kind status body.now ≡ None }
    ensures statuses { IsTrue (is_one_of
        (Status.Done ∷ Status.BadKind ∷ Status.NoBinding ∷ Status.Memory ∷ []) result) }
{
    if is_fetch {
        return match has_fetched(alloc, status, body) {
            Ok(true) => Status::Done.code(),
            Ok(false) => Status::NoBinding.code(),
            Err(Memory) => Status::Memory.code(),
        };
    }
    let Some(kind) = kind_from(kind) else {
        return Status::BadKind.code();
    };
    match has_bound(alloc, kind, status, body) {
        Ok(true) => Status::Done.code(),
        Ok(false) => Status::NoBinding.code(),
        Err(Memory) => Status::Memory.code(),
    }
}
