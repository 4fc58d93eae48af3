//! What an environment is told of classes and methods.

use crate::class_values::{CqLineEntry, CqMethodName};
use crate::class_writes::{tell_text, write_lines, write_name};
use crate::codes::code;
use crate::handle::CqEnv;
use crate::handle_lends::behind;
use crate::writes::write_each;
use std::alloc::Global;
use ti_service::{ClassCalls, ClassNo};
use ti_types::MethodNo;

/// GetLoadedClasses (JVM TI 11).
#[unsafe(no_mangle)]
pub extern "C" fn cq_get_loaded_classes(
    alloc: Global,
    env: &mut CqEnv,
    classes: &mut [u32],
    count: &mut u64,
) -> u32
    ensures { Tells (AllWritten classes.old classes.new count.new) RefusesAll ((classes.new ≡ classes.old) × (count.new ≡ count.old)) env.old env.new result }
{
    behind!(agent in env.held_env());
    code!(agent.get_loaded_classes(alloc), all => {
        *count = all.len() as u64;
        write_each(&all, classes);
    })
}

/// GetClassSignature (JVM TI 11).
#[unsafe(no_mangle)]
pub extern "C" fn cq_get_class_signature(
    alloc: Global,
    env: &mut CqEnv,
    class: u32,
    text: &mut [u8],
    length: &mut u64,
) -> u32
    ensures { Tells (SignatureWritten (class_no class) text.old text.new length.new) (λ log. RefusesClassCall log (class_no class)) ((text.new ≡ text.old) × (length.new ≡ length.old)) env.old env.new result }
{
    behind!(agent in env.held_env());
    tell_text(
        agent.get_class_signature(alloc, ClassNo(class)),
        text,
        length,
    )
}

/// GetSourceFileName (JVM TI 11).
#[unsafe(no_mangle)]
pub extern "C" fn cq_get_source_file_name(
    alloc: Global,
    env: &mut CqEnv,
    class: u32,
    text: &mut [u8],
    length: &mut u64,
) -> u32
    ensures { Tells (SourceFileWritten (class_no class) text.old text.new length.new) (λ log. RefusesSourceFile log (class_no class)) ((text.new ≡ text.old) × (length.new ≡ length.old)) env.old env.new result }
{
    behind!(agent in env.held_env());
    tell_text(
        agent.get_source_file_name(alloc, ClassNo(class)),
        text,
        length,
    )
}

/// GetClassMethods (JVM TI 11).
#[unsafe(no_mangle)]
pub extern "C" fn cq_get_class_methods(
    alloc: Global,
    env: &mut CqEnv,
    class: u32,
    methods: &mut [u32],
    count: &mut u64,
) -> u32
    ensures { Tells (MethodsWritten (class_no class) methods.old methods.new count.new) (λ log. RefusesClassCall log (class_no class)) ((methods.new ≡ methods.old) × (count.new ≡ count.old)) env.old env.new result }
{
    behind!(agent in env.held_env());
    code!(agent.get_class_methods(alloc, ClassNo(class)), told => {
        *count = told.len() as u64;
        write_each(&told, methods);
    })
}

/// GetMethodName (JVM TI 11).
#[unsafe(no_mangle)]
pub extern "C" fn cq_get_method_name(
    alloc: Global,
    env: &mut CqEnv,
    method: u32,
    info: &mut CqMethodName,
    name: &mut [u8],
    signature: &mut [u8],
) -> u32
    ensures { Tells (NameWritten (method_no method) info.new name.old name.new signature.old signature.new) (λ log. RefusesMethodCall log (method_no method)) ((info.new ≡ info.old) × (name.new ≡ name.old) × (signature.new ≡ signature.old)) env.old env.new result }
{
    behind!(agent in env.held_env());
    code!(agent.get_method_name(alloc, MethodNo(method)), told => {
        write_name(&told, info, name, signature);
    })
}

/// GetMethodDeclaringClass (JVM TI 11).
#[unsafe(no_mangle)]
pub extern "C" fn cq_get_method_declaring_class(
    env: &mut CqEnv,
    method: u32,
    class: &mut u32,
) -> u32
    ensures { Tells (ClassWritten (method_no method) class.new) (λ log. RefusesMethod log (method_no method)) (class.new ≡ class.old) env.old env.new result }
{
    behind!(agent in env.held_env());
    code!(agent.get_method_declaring_class(MethodNo(method)), told => *class = told.0)
}

/// IsMethodNative (JVM TI 11).
#[unsafe(no_mangle)]
pub extern "C" fn cq_is_method_native(env: &mut CqEnv, method: u32, native: &mut bool) -> u32
    ensures { Tells (NativeWritten (method_no method) native.new) (λ log. RefusesMethod log (method_no method)) (native.new ≡ native.old) env.old env.new result }
{
    behind!(agent in env.held_env());
    code!(agent.is_method_native(MethodNo(method)), told => *native = told)
}

/// GetLineNumberTable (JVM TI 11).
#[unsafe(no_mangle)]
pub extern "C" fn cq_get_line_number_table(
    alloc: Global,
    env: &mut CqEnv,
    method: u32,
    kind: &mut u32,
    lines: &mut [CqLineEntry],
    count: &mut u64,
) -> u32
    ensures { Tells (LinesWritten (method_no method) kind.new lines.old lines.new count.new) (λ log. RefusesLines log (method_no method)) ((kind.new ≡ kind.old) × (lines.new ≡ lines.old) × (count.new ≡ count.old)) env.old env.new result }
{
    behind!(agent in env.held_env());
    code!(agent.get_line_number_table(alloc, MethodNo(method)), told => {
        write_lines(&told, kind, lines, count);
    })
}

ghost use Rattle.std.specs.Prelude.{◌≡◌};
ghost use Rattle.ti_methods.specs.Classes.{RefusesClassCall, RefusesLines, RefusesMethod, RefusesMethodCall, RefusesSourceFile};
ghost use Rattle.ti_capi.specs.Classes.{AllWritten, ClassWritten, LinesWritten, MethodsWritten, NameWritten, NativeWritten, RefusesAll, SignatureWritten, SourceFileWritten, Tells, class_no};
ghost use Rattle.ti_capi.specs.Threads.{method_no};
