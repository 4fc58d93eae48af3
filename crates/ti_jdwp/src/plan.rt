//! What is done with a request.

use crate::error::JdwpError;
use crate::ids::{
    GROUP_CLASS, TABLE_CLASS, TEXT_CLASS, THREAD_CLASS, THREAD_GROUP, class_of, method_of,
    table_of, text_of, thread_of,
};
use crate::request::{EventKind, Policy, Request};

/// The bodies of replies that are always the same.
#[derive(Clone, Copy)]
pub(crate) enum Constant {
    /// Nothing.
    Empty,
    IdSizes,
    Capabilities,
    /// The one thread group.
    Groups,
    GroupName,
    GroupId,
    /// The id 0, for none.
    NoId,
    /// A list without items.
    NoItems,
    /// 0 in a byte.
    False,
    /// 1, the modifiers of a public class.
    Public,
    /// 7, the status of a class that is verified, prepared and initialized.
    Initialized,
    /// The class of all thread objects, with its tag.
    ThreadClass,
    /// The class of the thread group, with its tag.
    GroupClass,
    ThreadSignature,
    ThreadGenericSignature,
    GroupSignature,
    GroupGenericSignature,
    TextSignature,
    TextGenericSignature,
    TableSignature,
    TableGenericSignature,
    /// The null object, with its tag.
    NoObject,
}

/// A request for events of a kind. So many modifiers stand in the data of the request from `at` on.
#[derive(Clone, Copy)]
pub(crate) struct Wish {
    pub(crate) kind: EventKind,
    pub(crate) policy: Policy,
    pub(crate) at: usize,
    pub(crate) count: u32,
}

/// What is done with a request. Threads have their numbers.
#[derive(Clone, Copy)]
pub(crate) enum Plan {
    /// Reply with this error.
    Refuse(JdwpError),
    /// Reply with this body.
    Constant(Constant),
    /// The driver answers.
    Ask,
    /// The driver answers, if the debugger suspends this thread; else 13 THREAD_NOT_SUSPENDED.
    AskStack(u32),
    /// Reply with the count of this thread.
    Count(u32),
    Suspend(u32),
    Resume(u32),
    SuspendAll,
    ResumeAll,
    Hold,
    Release,
    /// Put a request for events in force.
    Set(Wish),
    /// Take a request for events out of force.
    Clear { kind: u8, request: i32 },
    Dispose,
}

/// A plan for the thread with this id. 10 INVALID_THREAD if it is no thread's.
fn at_thread(id: u64, plan: Plan) -> Plan
    ensures { result ≡ at_thread id plan }
{
    match thread_of(id) {
        Some(_) => plan,
        None => Plan::Refuse(JdwpError::InvalidThread),
    }
}

/// The plan for what is asked of a thread's stack. 10 INVALID_THREAD if the id is no thread's.
fn stack_of(id: u64) -> Plan
    ensures { result ≡ stack_of id }
{
    match thread_of(id) {
        Some(thread) => Plan::AskStack(thread),
        None => Plan::Refuse(JdwpError::InvalidThread),
    }
}

/// A plan for the thread group. 11 INVALID_THREAD_GROUP if the id is not its.
fn at_group(id: u64, plan: Plan) -> Plan
    ensures { result ≡ at_group id plan }
{
    if id == THREAD_GROUP {
        plan
    } else {
        Plan::Refuse(JdwpError::InvalidThreadGroup)
    }
}

/// A plan for the class with this id: one for the classes of all threads, the group, texts and tables, one for all others. 21 INVALID_CLASS if
/// the id is no class's.
fn at_class(id: u64, objects: Plan, others: Plan) -> Plan
    ensures { result ≡ at_class id objects others }
{
    if id == THREAD_CLASS || id == GROUP_CLASS || id == TEXT_CLASS || id == TABLE_CLASS {
        objects
    } else if class_of(id).is_some() {
        others
    } else {
        Plan::Refuse(JdwpError::InvalidClass)
    }
}

/// The plan for the signature of the class with this id, which is this one for the class of all threads, of the group, of all texts and
/// of all tables. 21 INVALID_CLASS if the id is no class's.
fn signature_of(
    id: u64,
    threads: Constant,
    group: Constant,
    texts: Constant,
    tables: Constant,
) -> Plan
    ensures { result ≡ signature_of id threads group texts tables }
{
    if id == GROUP_CLASS {
        Plan::Constant(group)
    } else if id == TEXT_CLASS {
        Plan::Constant(texts)
    } else if id == TABLE_CLASS {
        Plan::Constant(tables)
    } else {
        at_class(id, Plan::Constant(threads), Plan::Ask)
    }
}

/// A reply that is the same for each class. 21 INVALID_CLASS if the id is no class's.
fn at_each_class(id: u64, constant: Constant) -> Plan
    ensures { result ≡ at_each_class id constant }
{
    at_class(id, Plan::Constant(constant), Plan::Constant(constant))
}

/// A plan for a method. 21 INVALID_CLASS or 23 INVALID_METHODID if an id is none.
fn at_method(class: u64, method: u64) -> Plan
    ensures { result ≡ at_method class method }
{
    if class_of(class).is_none() {
        Plan::Refuse(JdwpError::InvalidClass)
    } else if method_of(method).is_none() {
        Plan::Refuse(JdwpError::InvalidMethodId)
    } else {
        Plan::Ask
    }
}

/// A plan for an object: one for a thread, one for the thread group, and of a text or a table the driver says whether it is there. 20
/// INVALID_OBJECT if the id is none of theirs.
fn at_object(id: u64, threads: Plan, group: Plan) -> Plan
    ensures { result ≡ at_object id threads group }
{
    if thread_of(id).is_some() {
        threads
    } else if id == THREAD_GROUP {
        group
    } else if text_of(id).is_some() || table_of(id).is_some() {
        Plan::Ask
    } else {
        Plan::Refuse(JdwpError::InvalidObject)
    }
}

/// The plan for what is asked of a text. 20 INVALID_OBJECT if the id is no text's.
fn at_text(id: u64) -> Plan
    ensures { result ≡ at_text id }
{
    match text_of(id) {
        Some(_) => Plan::Ask,
        None => Plan::Refuse(JdwpError::InvalidObject),
    }
}

/// The plan for what is asked of a table. 20 INVALID_OBJECT if the id is no table's.
fn at_table(id: u64) -> Plan
    ensures { result ≡ at_table id }
{
    match table_of(id) {
        Some(_) => Plan::Ask,
        None => Plan::Refuse(JdwpError::InvalidObject),
    }
}

/// The plan for a request. Each id is tested by its kind alone: whether there is such a thread or class the driver says, where
/// it answers.
pub(crate) fn plan_of(request: Request) -> Plan
    ensures { result ≡ plan_of request }
{
    match request {
        Request::Version
        | Request::ClassesBySignature(_)
        | Request::AllClasses
        | Request::AllThreads
        | Request::ClassPaths
        | Request::CapabilitiesNew
        | Request::DisposeObjects(_) => Plan::Ask,
        Request::TopLevelThreadGroups => Plan::Constant(Constant::Groups),
        Request::Dispose => Plan::Dispose,
        Request::IdSizes => Plan::Constant(Constant::IdSizes),
        Request::SuspendAll => Plan::SuspendAll,
        Request::ResumeAll => Plan::ResumeAll,
        Request::Capabilities => Plan::Constant(Constant::Capabilities),
        Request::HoldEvents => Plan::Hold,
        Request::ReleaseEvents => Plan::Release,
        Request::SetEvent {
            kind,
            policy,
            modifiers,
            count,
        } => Plan::Set(Wish {
            kind,
            policy,
            at: modifiers.start,
            count,
        }),
        Request::ClearEvent { kind, request } => Plan::Clear { kind, request },
        Request::ReferenceType(id) => at_object(
            id,
            Plan::Constant(Constant::ThreadClass),
            Plan::Constant(Constant::GroupClass),
        ),
        Request::IsCollected(id) => at_object(
            id,
            Plan::Constant(Constant::False),
            Plan::Constant(Constant::False),
        ),
        Request::GroupName(id) => at_group(id, Plan::Constant(Constant::GroupName)),
        Request::GroupParent(id) => at_group(id, Plan::Constant(Constant::NoId)),
        Request::GroupChildren(id) => at_group(id, Plan::Ask),
        Request::LineTable { class, method }
        | Request::VariableTable { class, method }
        | Request::IsObsolete { class, method }
        | Request::VariableTableWithGeneric { class, method } => at_method(class, method),
        Request::TextValue(id) => at_text(id),
        Request::TableLength(id) => at_table(id),
        Request::TableEntries { table, .. } => at_table(table),
        Request::Signature(_)
        | Request::SignatureWithGeneric(_)
        | Request::ClassLoader(_)
        | Request::Modifiers(_)
        | Request::Fields(_)
        | Request::SourceFile(_)
        | Request::ClassStatus(_)
        | Request::Interfaces(_)
        | Request::MethodsWithGeneric(_)
        | Request::Superclass(_) => class_plan(request),
        Request::ThreadName(_)
        | Request::Suspend(_)
        | Request::Resume(_)
        | Request::ThreadStatus(_)
        | Request::ThreadGroup(_)
        | Request::Frames { .. }
        | Request::FrameCount(_)
        | Request::SuspendCount(_)
        | Request::FrameValues { .. }
        | Request::ThisObject { .. }
        | Request::PopFrames { .. } => thread_plan(request),
    }
}

/// The plan for a request about a class. Others have none here.
fn class_plan(request: Request) -> Plan
    ensures { result ≡ class_plan request }
{
    match request {
        Request::Signature(id) => {
            signature_of(
                id,
                Constant::ThreadSignature,
                Constant::GroupSignature,
                Constant::TextSignature,
                Constant::TableSignature,
            )
        }
        Request::SignatureWithGeneric(id) => {
            signature_of(
                id,
                Constant::ThreadGenericSignature,
                Constant::GroupGenericSignature,
                Constant::TextGenericSignature,
                Constant::TableGenericSignature,
            )
        }
        Request::SourceFile(id) => {
            at_class(id, Plan::Refuse(JdwpError::AbsentInformation), Plan::Ask)
        }
        Request::MethodsWithGeneric(id) => {
            at_class(id, Plan::Constant(Constant::NoItems), Plan::Ask)
        }
        Request::ClassLoader(id) => at_each_class(id, Constant::NoId),
        Request::Superclass(id) => at_each_class(id, Constant::NoId),
        Request::Modifiers(id) => at_each_class(id, Constant::Public),
        Request::ClassStatus(id) => at_each_class(id, Constant::Initialized),
        Request::Fields(id) => at_each_class(id, Constant::NoItems),
        Request::Interfaces(id) => at_each_class(id, Constant::NoItems),
        _ => Plan::Refuse(JdwpError::NotImplemented),
    }
}

/// The plan for a request about a thread. Others have none here.
fn thread_plan(request: Request) -> Plan
    ensures { result ≡ thread_plan request }
{
    match request {
        Request::ThreadName(id) => at_thread(id, Plan::Ask),
        Request::ThreadStatus(id) => at_thread(id, Plan::Ask),
        Request::ThreadGroup(id) => at_thread(id, Plan::Constant(Constant::GroupId)),
        Request::Frames { thread, .. } => stack_of(thread),
        Request::FrameCount(id) => stack_of(id),
        Request::FrameValues { thread, .. } => stack_of(thread),
        Request::PopFrames { thread, .. } => stack_of(thread),
        Request::ThisObject { thread, .. } => {
            at_thread(thread, Plan::Constant(Constant::NoObject))
        }
        Request::SuspendCount(id) => match thread_of(id) {
            Some(thread) => Plan::Count(thread),
            None => Plan::Refuse(JdwpError::InvalidThread),
        },
        Request::Suspend(id) => match thread_of(id) {
            Some(thread) => Plan::Suspend(thread),
            None => Plan::Refuse(JdwpError::InvalidThread),
        },
        Request::Resume(id) => match thread_of(id) {
            Some(thread) => Plan::Resume(thread),
            None => Plan::Refuse(JdwpError::InvalidThread),
        },
        _ => Plan::Refuse(JdwpError::NotImplemented),
    }
}

ghost use Rattle.std.specs.Prelude.{◌≡◌};
ghost use Rattle.ti_jdwp.specs.Plans.{at_thread, stack_of, at_group, at_class, signature_of, at_each_class, at_method, at_object, at_text, at_table, class_plan, thread_plan, plan_of};
