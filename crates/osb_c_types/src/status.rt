//! The statuses: what became of a call.
ghost use Rattle.std.specs.Prelude.{◌≡◌};
ghost use Rattle.osb_c_types.specs.Status.{code};

/// What became of a call. Each has one meaning, whichever export returns it (this project's choice). No number ever
/// changes, and none is used again: 2, 3, 4, 5, 8, 12 and 23 were statuses of calls that version 0.3.0 removed.
#[derive(Clone, Copy)]
pub enum Status {
    /// It was done.
    Done,
    /// Out of memory: an allocation failed.
    Memory,
    /// A request is in flight.
    Busy,
    /// No request is in flight, and none is due: the state is `ready`, `gone` or `unsettled`.
    NothingDue,
    /// No request is in flight, and the operation of the call isn't polled: the state isn't `polling`, or, to send a
    /// deletion again, `cleaning-polling`.
    NotPolling,
    /// No request is in flight, and the state is none of `polling`, `ready` and `unsettled`.
    NotRemovable,
    /// The instance is neither being made nor being deleted.
    NothingRunning,
    /// Two of the plans have the same service and plan.
    PlanTwice,
    /// The number stands for no kind of request.
    BadKind,
    /// The number stands for no outcome.
    BadOutcome,
    /// The text is no id's.
    NotAnId,
    /// The buffer is shorter than what goes into it.
    TooSmall,
    /// The text isn't UTF-8.
    NotUtf8,
    /// The text has no reading as JSON.
    NotJson,
    /// The value isn't an object.
    NotAnObject,
    /// The version in the text isn't that of its format.
    BadVersion,
    /// The members of the object aren't those of its format.
    BadOuter,
    /// Some member isn't what its format has there.
    BadMember,
    /// The struct is no record that a call gives.
    BadRecord,
    /// The struct is no holding that a call gives.
    BadHolding,
    /// The struct is no platform's row that a call gives.
    BadRow,
    /// The struct is nothing asked that a call gives.
    BadAsked,
    /// The number stands for no mode.
    BadMode,
    /// The latest request has the greatest number, 2^64 - 1.
    AttemptsUsedUp,
    /// No request is in flight, or one of another number.
    NotInFlight,
    /// No work is pending.
    NothingBegun,
    /// Each member is one of its kind, and together they can't come about.
    Impossible,
    /// The response isn't surely the broker's: a timeout takes its place.
    NoAnswer,
    /// The value is no number of seconds.
    NoSeconds,
    /// The value doesn't name this user and this password.
    Unauthorized,
    /// The status is no refusal.
    NotRefused,
    /// Refused with 404: there is no such target.
    RefusedTarget,
    /// Refused with 405: the target has no such method.
    RefusedMethod,
    /// Refused with 412: the version isn't 2.x, or none is named.
    RefusedVersion,
    /// Refused with 413: the body is too long.
    RefusedLength,
    /// Refused with 400: the id of the instance isn't UTF-8 of 1 to 255 bytes, or is `.` or `..`.
    RefusedInstance,
    /// Refused with 400: a parameter of the query stands twice.
    RefusedRepeated,
    /// Refused with 400: `service_id` is missing, or isn't a string of 1 to 255 bytes.
    RefusedService,
    /// Refused with 400: `plan_id` is missing, or isn't a string of 1 to 255 bytes.
    RefusedPlan,
    /// Refused with 400: `accepts_incomplete` is neither `true` nor `false`.
    RefusedAcceptsIncomplete,
    /// Refused with 400: the body isn't UTF-8, isn't JSON, or is no object.
    RefusedBody,
    /// Refused with 400: `organization_guid` is missing, no string, or empty.
    RefusedOrganization,
    /// Refused with 400: `space_guid` is missing, no string, or empty.
    RefusedSpace,
    /// The document has no list `services`.
    NoServices,
    /// The `id` of a service is missing, or isn't a string of 1 to 255 bytes.
    BadService,
    /// A service has no list `plans`.
    NoPlans,
    /// The `id` of a plan is missing, or isn't a string of 1 to 255 bytes.
    BadPlan,
    /// `x-osb-asynchronous` of a plan, or `asynchronous` where it lacks that, is neither `true` nor `false`.
    BadPlanMode,
    /// Only the pending work of a Provision can be refused.
    NotAProvision,
    /// The row doesn't wait for its first Poll.
    NotWaiting,
    /// The text isn't that of the request's instance, or no path can carry it.
    NotInstanceText,
    /// The text isn't that of the request's service.
    NotServiceText,
    /// The text isn't that of the request's plan.
    NotPlanText,
    /// The text is no object of JSON, or the object has no such member.
    NoMember,
    /// The value of the header names nobody.
    NoIdentity,
    /// The document has no `maintenance_info.version` of the plan.
    NoPlanVersion,
    /// Refused with 422: the request names another `maintenance_info.version`.
    RefusedMaintenance,
    /// The `name` of a service or of a plan is missing, no string, or empty.
    NoName,
    /// Two services, or two plans of a service, have one name.
    NameTwice,
    /// The `description` of a service or of a plan is missing, no string, or empty.
    NoDescription,
    /// A flag of the catalogue is neither `true` nor `false`.
    NotABoolean,
    /// A service doesn't say whether it is `bindable`.
    NoBindable,
    /// A service has no plan.
    NoPlan,
    /// `bindable` is `true`, and bindings aren't served.
    BindableUnserved,
    /// `plan_updateable` is `true`, and updating isn't served.
    UpdateUnserved,
    /// `instances_retrievable` is `true`, and fetching an instance isn't served.
    InstancesUnserved,
    /// `bindings_retrievable` is `true`, and fetching a binding isn't served.
    BindingsUnserved,
    /// Two ids of the document have one number.
    SameNumber,
    /// The instance isn't recorded `ready`, so no binding of it is created.
    NotReady,
    /// A binding of the instance isn't `gone`, so the instance isn't removed.
    Bound,
    /// Refused with 400: the id of the binding isn't UTF-8 of 1 to 255 bytes, or is `.` or `..`.
    RefusedBinding,
    /// Refused with 422: the Bind names no application, and its plan needs one.
    RefusedApp,
    /// The text isn't that of the request's binding, or no path can carry it.
    NotBindingText,
    /// The response doesn't have the binding's object.
    NoBinding,
    /// A plan binds asynchronously, and its service isn't `bindings_retrievable`.
    NotRetrievable,
    /// The struct is no driver that a call gives.
    BadDriver,
    /// The driver is at a stage that asks for no such report.
    WrongStage,
    /// The number stands for nothing that a look finds.
    BadThere,
    /// The holding of the row doesn't fit its plan, or its pending work is of another id.
    Misfit,
    /// The number stands for nothing that a catalogue allows of an Update.
    BadAllowed,
    /// No operation of an Update runs.
    NothingUpdating,
    /// The instance isn't available: it has no row that is `ready`, or work of it is pending.
    NotAvailable,
    /// Refused with 400: `x-osb-update` isn't an integer from 1 to 2^64 - 1.
    RefusedNumber,
}

impl Status {
    /// Its number.
    pub fn code(self) -> u32
        ensures code { result ≡ code self }
    {
        match self {
            Status::Done => 0,
            Status::Memory => 1,
            Status::Busy => 6,
            Status::NothingDue => 7,
            Status::NotPolling => 9,
            Status::NotRemovable => 10,
            Status::NothingRunning => 11,
            Status::PlanTwice => 13,
            Status::BadKind => 14,
            Status::BadOutcome => 15,
            Status::NotAnId => 16,
            Status::TooSmall => 17,
            Status::NotUtf8 => 18,
            Status::NotJson => 19,
            Status::NotAnObject => 20,
            Status::BadVersion => 21,
            Status::BadOuter => 22,
            Status::BadMember => 24,
            Status::BadRecord => 25,
            Status::BadHolding => 26,
            Status::BadRow => 27,
            Status::BadAsked => 28,
            Status::BadMode => 29,
            Status::AttemptsUsedUp => 30,
            Status::NotInFlight => 31,
            Status::NothingBegun => 32,
            Status::Impossible => 33,
            Status::NoAnswer => 34,
            Status::NoSeconds => 36,
            Status::Unauthorized => 37,
            Status::NotRefused => 38,
            Status::RefusedTarget => 39,
            Status::RefusedMethod => 40,
            Status::RefusedVersion => 41,
            Status::RefusedLength => 42,
            Status::RefusedInstance => 43,
            Status::RefusedRepeated => 44,
            Status::RefusedService => 45,
            Status::RefusedPlan => 46,
            Status::RefusedAcceptsIncomplete => 47,
            Status::RefusedBody => 48,
            Status::RefusedOrganization => 49,
            Status::RefusedSpace => 50,
            Status::NoServices => 51,
            Status::BadService => 52,
            Status::NoPlans => 53,
            Status::BadPlan => 54,
            Status::BadPlanMode => 55,
            Status::NotAProvision => 56,
            Status::NotWaiting => 57,
            Status::NotInstanceText => 58,
            Status::NotServiceText => 59,
            Status::NotPlanText => 60,
            Status::NoMember => 61,
            Status::NoIdentity => 62,
            Status::NoPlanVersion => 63,
            Status::RefusedMaintenance => 64,
            Status::NoName => 65,
            Status::NameTwice => 66,
            Status::NoDescription => 67,
            Status::NotABoolean => 68,
            Status::NoBindable => 69,
            Status::NoPlan => 70,
            Status::BindableUnserved => 71,
            Status::UpdateUnserved => 72,
            Status::InstancesUnserved => 73,
            Status::BindingsUnserved => 74,
            Status::SameNumber => 75,
            Status::NotReady => 76,
            Status::Bound => 77,
            Status::RefusedBinding => 78,
            Status::RefusedApp => 79,
            Status::NotBindingText => 80,
            Status::NoBinding => 81,
            Status::NotRetrievable => 82,
            Status::BadDriver => 83,
            Status::WrongStage => 84,
            Status::BadThere => 85,
            Status::Misfit => 86,
            Status::BadAllowed => 87,
            Status::NothingUpdating => 88,
            Status::NotAvailable => 89,
            Status::RefusedNumber => 90,
        }
    }
}
