//! The bodies of replies that are always the same.

use crate::bodies::{
    capabilities_body, class_of_object_body, collected_body, empty_list_body,
    generic_signature_body, groups_body, id_body, id_sizes_body, int_body, no_object_body,
    text_body,
};
use crate::error::JdwpError;
use crate::ids::{GROUP_CLASS, THREAD_CLASS, THREAD_GROUP};
use crate::plan::Constant;
use std::alloc::Global;

/// The name of the one thread group.
const GROUP_NAME: &[u8] = b"main";

/// The signature of the class of all thread objects.
const THREAD_SIGNATURE: &[u8] = b"Ljava/lang/Thread;";

/// The signature of the class of the thread group.
const GROUP_SIGNATURE: &[u8] = b"Ljava/lang/ThreadGroup;";

/// The signature of the class of all texts.
const TEXT_SIGNATURE: &[u8] = b"Ljava/lang/String;";

/// The signature of the class of all tables.
const TABLE_SIGNATURE: &[u8] = b"[Ljava/lang/String;";

/// The bytes of a body. 110 OUT_OF_MEMORY if there is no memory for them.
pub(crate) fn constant_body(alloc: Global, constant: Constant) -> Result<Vec<u8>, JdwpError>
    ensures ok { IfOk result (λ v. v.items ≡ constant_bytes constant) }
    ensures memory { IfErr result (λ e. e ≡ OutOfMemory) }
{
    match constant {
        Constant::Empty => Ok(Vec::new(alloc)),
        Constant::IdSizes => id_sizes_body(alloc),
        Constant::Capabilities => capabilities_body(alloc),
        Constant::Groups => groups_body(alloc),
        Constant::GroupName => text_body(alloc, GROUP_NAME),
        Constant::GroupId => id_body(alloc, THREAD_GROUP),
        Constant::NoId => id_body(alloc, 0),
        Constant::NoItems => empty_list_body(alloc),
        Constant::False => collected_body(alloc, false),
        Constant::Public => int_body(alloc, 1),
        Constant::Initialized => int_body(alloc, 7),
        Constant::ThreadClass => class_of_object_body(alloc, THREAD_CLASS),
        Constant::GroupClass => class_of_object_body(alloc, GROUP_CLASS),
        Constant::ThreadSignature => text_body(alloc, THREAD_SIGNATURE),
        Constant::ThreadGenericSignature => generic_signature_body(alloc, THREAD_SIGNATURE),
        Constant::GroupSignature => text_body(alloc, GROUP_SIGNATURE),
        Constant::GroupGenericSignature => generic_signature_body(alloc, GROUP_SIGNATURE),
        Constant::TextSignature => text_body(alloc, TEXT_SIGNATURE),
        Constant::TextGenericSignature => generic_signature_body(alloc, TEXT_SIGNATURE),
        Constant::TableSignature => text_body(alloc, TABLE_SIGNATURE),
        Constant::TableGenericSignature => generic_signature_body(alloc, TABLE_SIGNATURE),
        Constant::NoObject => no_object_body(alloc),
    }
}

ghost use Rattle.std.specs.Prelude.{◌≡◌, IfOk, IfErr};
ghost use Rattle.ti_jdwp.specs.Constants.{constant_bytes};
ghost use Rattle.ti_jdwp.specs.declared.error.JdwpError.TheVariants.{OutOfMemory};
