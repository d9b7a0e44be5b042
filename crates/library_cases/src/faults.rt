//! The faults of the crates: as they are printed, and their numbers, by which programs and their operators know them.
//! `osb-replay` prints those of a line: `checks/replay/test_faults.py`.
use anyhow::Result;
use osb_binding::{NotReady, RemoveFault as BindingRemoveFault};
use osb_binding_wire::{BindingModeFault, BindingNameFault, BindingRefusal};
use osb_device::DeviceFault;
use osb_instance::{
    EndRefused, ExpireRefused, NotOut, NotWaiting, RemoveRefused, RetryRefused, SendRefused,
    TextFault,
};
use osb_language::{LineFault, ScheduleFault};
use osb_message::{AddFault, IdFault, Memory};
use osb_platform::{CreateFault, ExpireFault, LoadFault, RemoveFault, SaveFault, SendFault};
use osb_update::{NothingPending, NothingUpdating, StopRefused, UpdateRefused};
use osb_update_wire::{TextFault as UpdateTextFault, UpdateRefusal};
use osb_wire::{CatalogueFault, DocumentFault, NameFault, Refusal, RuleFault};
use osb_words::WordsFault;
use std::alloc::Global;
use std::fmt::Display;

fn tell_each<T: Display>(rt: &impl Print, faults: &[T]) -> Result<()> {
    for fault in faults {
        println!(rt; "  {fault}")?;
    }
    Ok(())
}

// Each fault of a type, as it is printed.
macro_rules! tell {
    ($rt:expr, $type:ident: $($fault:ident)*) => { tell_each($rt, &[$($type::$fault),*])? };
}

// The faults of a type, each with its number.
macro_rules! tell_numbers {
    ($rt:expr, $type:ident: $($fault:ident)*) => {{
        print!($rt; " ")?;
        for &fault in &[$($type::$fault),*] {
            print!($rt; " {fault:?} {}", fault as u8)?;
        }
        println!($rt;)?;
    }};
}

// `faults OF`: those of a crate, or `numbers`.
pub(crate) fn tell_of(rt: &impl Print, alloc: Global, of: &str) -> Result<()> {
    println!(rt;)?;
    match of {
        "numbers" => numbers(rt),
        "osb_message" => message(rt),
        "osb_language" => language(rt),
        "osb_words" => words(rt, alloc),
        "osb_instance" => instance(rt),
        "osb_binding" => binding(rt),
        "osb_update" => update(rt),
        "osb_wire" => wire(rt),
        "osb_binding_wire" => binding_wire(rt),
        "osb_update_wire" => update_wire(rt),
        _ => anyhow::bail!("no such faults: {of}"),
    }
}

fn numbers(rt: &impl Print) -> Result<()> {
    tell_numbers!(rt, IdFault: NotAnId);
    tell_numbers!(rt, AddFault: AlreadyThere Memory);
    tell_numbers!(rt, CreateFault: IdUsed Memory);
    tell_numbers!(rt, SendFault: Unknown Busy NothingDue);
    tell_numbers!(rt, ExpireFault: Unknown Busy NotPolling);
    tell_numbers!(rt, RemoveFault: Unknown Busy NotRemovable);
    tell_numbers!(rt, SaveFault: Memory);
    tell_numbers!(rt, LoadFault: NotJson NotAnObject BadKey BadMember Memory BadVersion BadOuter);
    tell_numbers!(rt, LineFault: NotAscii LineTooLong UnknownWord WordCount BadId BadChoice LatePlan
        DuplicatePlan TooManyLines);
    Ok(())
}

fn message(rt: &impl Print) -> Result<()> {
    tell!(rt, IdFault: NotAnId);
    tell!(rt, AddFault: AlreadyThere Memory);
    tell_each(rt, &[Memory])
}

// Why a schedule isn't taken, and what a device that failed is called.
fn language(rt: &impl Print) -> Result<()> {
    let (line, fault) = (7, LineFault::BadId);
    tell_each(rt, &[ScheduleFault::At { line, fault }])?;
    tell_each(rt, &[ScheduleFault::Memory])?;
    tell_each(rt, &[DeviceFault])
}

// Why the words of a command line ask for nothing.
fn words(rt: &impl Print, alloc: Global) -> Result<()> {
    tell_each(rt, &[WordsFault::Help(String::new(alloc))])?;
    tell_each(rt, &[WordsFault::Refused(String::new(alloc))])?;
    tell_each(rt, &[WordsFault::Memory])
}

// Why a text names no record or holding, and why a call is refused.
fn instance(rt: &impl Print) -> Result<()> {
    tell!(rt, TextFault: NotJson NotAnObject BadVersion BadOuter BadMember Impossible Memory);
    tell!(rt, SendRefused: Busy NothingDue AttemptsUsedUp);
    tell_each(rt, &[NotOut])?;
    tell!(rt, ExpireRefused: Busy NotPolling);
    tell!(rt, RetryRefused: Busy NotPolling);
    tell!(rt, RemoveRefused: Busy NotRemovable);
    tell!(rt, EndRefused: NothingBegun NotAProvision);
    tell_each(rt, &[NotWaiting])
}

// Why no binding is created, and why an instance isn't removed.
fn binding(rt: &impl Print) -> Result<()> {
    tell_each(rt, &[NotReady])?;
    tell!(rt, BindingRemoveFault: Busy NotRemovable Bound);
    Ok(())
}

// Why nothing of an update ends, why no Update is sent, and why none is stopped.
fn update(rt: &impl Print) -> Result<()> {
    tell_each(rt, &[NothingPending])?;
    tell_each(rt, &[NothingUpdating])?;
    tell!(rt, UpdateRefused: Busy NotReady NotNow AttemptsUsedUp);
    tell!(rt, StopRefused: Busy NothingDue);
    Ok(())
}

// Why a broker refuses a request, why a catalogue can't be kept, and why a request isn't written.
fn wire(rt: &impl Print) -> Result<()> {
    tell!(rt, Refusal: NoSuchTarget NoSuchMethod BadVersion TooLong BadInstance Repeated BadService BadPlan
        BadAcceptsIncomplete NotAnObject BadOrganization BadSpace Memory);
    tell!(rt, CatalogueFault: NotJson NoServices BadService NoPlans BadPlan BadMode Repeated Memory);
    tell!(rt, RuleFault: NoName NameTwice NoDescription NotABoolean NoBindable NoPlan Bindable PlanUpdateable
        InstancesRetrievable BindingsRetrievable SameNumber Memory);
    tell_each(rt, &[DocumentFault::Plans(CatalogueFault::NoPlans)])?;
    tell_each(rt, &[DocumentFault::Rule(RuleFault::NameTwice)])?;
    tell!(rt, NameFault: BadInstance BadService BadPlan Memory);
    Ok(())
}

// Why a document doesn't say how its plans bind, why a request isn't written, and why one is refused.
fn binding_wire(rt: &impl Print) -> Result<()> {
    tell_each(rt, &[BindingModeFault::Plans(CatalogueFault::NoPlans)])?;
    tell!(rt, BindingModeFault: NotABoolean NotRetrievable);
    tell!(rt, BindingNameFault: BadInstance BadBinding BadService BadPlan Memory);
    tell!(rt, BindingRefusal: BadBinding);
    tell_each(rt, &[BindingRefusal::Refused(Refusal::TooLong)])
}

// Why an Update or a Fetch isn't written, and why one is refused.
fn update_wire(rt: &impl Print) -> Result<()> {
    tell!(rt, UpdateTextFault: BadInstance BadService BadPlan BadParameters BadContext Memory);
    tell!(rt, UpdateRefusal: BadNumber);
    tell_each(rt, &[UpdateRefusal::Refused(Refusal::TooLong)])
}
