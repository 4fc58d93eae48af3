//! What an agent is told of classes and methods.

use crate::membership::Membership;
use std::alloc::Global;
use ti_agent::Env;
use ti_methods::{ClassError, ClassNo, Lines, MethodName};
use ti_types::MethodNo;

/// What an agent is told of the classes that its runtime has defined (`Service::define_class`), and of their methods. The calls
/// ask no thread and need no desk. They neither wait nor hold the roster. Nothing changes but which classes the agent has
/// seen.
///
/// Errors, as far as a call can have them:
///
/// - 21 INVALID_CLASS, 23 INVALID_METHODID: none of this number was defined. A frame may still name such a method.
/// - 101 ABSENT_INFORMATION, 104 NATIVE_METHOD: as the call says.
/// - 110 OUT_OF_MEMORY: there is no memory for the answer.
/// - 215 `Busy` (this profile): the class is just being defined, and its number has not been given to anybody yet.
///
/// # Examples
///
/// ```rattle
/// # use ti_service::{ClassCalls, ClassError, ClassInfo, Lines, MethodInfo, Service};
/// # use ti_types::{Limits, MethodNo};
/// # let alloc = rt.alloc();
/// # let limits = Limits::new(1, 1, 4, 16, 8).ok_or("the limits are in range")?;
/// let mut service = Service::make(alloc, limits)?;
/// let mut agent = service.attach_environment(&rt, alloc)?;
/// let mut methods = Vec::new(alloc);
/// methods.push(MethodInfo {
///     name: String::from_str(alloc, "fib")?,
///     signature: String::from_str(alloc, "(n)")?,
///     first_line: 3,
///     lines: Lines::Locations,
///     is_native: false,
/// })?;
/// let chunk = ClassInfo {
///     signature: String::from_str(alloc, "fib.lua")?,
///     source_file: Some(String::from_str(alloc, "fib.lua")?),
///     methods,
/// };
/// let Ok(defined) = service.define_class(chunk) else {
///     return Err("there is memory".into());
/// };
/// assert!(rt; defined.first == MethodNo(0));
/// let name = agent.get_method_name(alloc, MethodNo(0))?;
/// assert!(rt; name.name.as_str() == "fib" && name.first_line == 3);
/// let class = agent.get_method_declaring_class(MethodNo(0))?;
/// assert!(rt; agent.get_source_file_name(alloc, class)?.as_str() == "fib.lua");
/// assert!(rt; agent.is_method_native(MethodNo(1)) == Err(ClassError::InvalidMethod));
/// ```
pub trait ClassCalls {
    /// GetLoadedClasses (JVM TI 11): the numbers of all classes.
    fn get_loaded_classes(&mut self, alloc: Global) -> Result<Vec<ClassNo>, ClassError>;

    /// GetClassSignature (JVM TI 11).
    fn get_class_signature(&mut self, alloc: Global, class: ClassNo) -> Result<String, ClassError>;

    /// GetSourceFileName (JVM TI 11). 101 if the class was defined without one.
    fn get_source_file_name(&mut self, alloc: Global, class: ClassNo) -> Result<String, ClassError>;

    /// GetClassMethods (JVM TI 11): the numbers of its methods, in the order in which they were given.
    fn get_class_methods(
        &mut self,
        alloc: Global,
        class: ClassNo,
    ) -> Result<Vec<MethodNo>, ClassError>;

    /// GetMethodName (JVM TI 11), with the line at which the method is defined.
    fn get_method_name(
        &mut self,
        alloc: Global,
        method: MethodNo,
    ) -> Result<MethodName, ClassError>;

    /// GetMethodDeclaringClass (JVM TI 11).
    fn get_method_declaring_class(&mut self, method: MethodNo) -> Result<ClassNo, ClassError>;

    /// IsMethodNative (JVM TI 11).
    fn is_method_native(&mut self, method: MethodNo) -> Result<bool, ClassError>;

    /// GetLineNumberTable (JVM TI 11). 104 if the method is native, otherwise 101 if it was defined without lines.
    fn get_line_number_table(
        &mut self,
        alloc: Global,
        method: MethodNo,
    ) -> Result<Lines, ClassError>;
}

impl ClassCalls for Env<Membership> {
    fn get_loaded_classes(&mut self, alloc: Global) -> Result<Vec<ClassNo>, ClassError>
        ensures rest { SeesClasses self.old self.new }
        ensures told { IfOk result (λ c. map (λ n. n.0) c.items ≡ count_from 0 (length (classes_of self.new))) }
        ensures memory { IfErr result (λ e. e ≡ OutOfMemory) }
    {
        self.home.service.classes().get_loaded_classes(alloc)
    }

    fn get_class_signature(&mut self, alloc: Global, class: ClassNo) -> Result<String, ClassError>
        ensures rest { SeesClasses self.old self.new }
        ensures told { IfOk result (λ s. IsSignature (classes_of self.new) class (string_bytes s)) }
        ensures refused { IfErr result (λ e. RefusesClassCall (classes_of self.new) class e) }
    {
        self.home
            .service
            .classes()
            .get_class_signature(alloc, class)
    }

    fn get_source_file_name(&mut self, alloc: Global, class: ClassNo) -> Result<String, ClassError>
        ensures rest { SeesClasses self.old self.new }
        ensures told { IfOk result (λ s. IsSourceFile (classes_of self.new) class (string_bytes s)) }
        ensures refused { IfErr result (λ e. RefusesSourceFile (classes_of self.new) class e) }
    {
        self.home
            .service
            .classes()
            .get_source_file_name(alloc, class)
    }

    fn get_class_methods(
        &mut self,
        alloc: Global,
        class: ClassNo,
    ) -> Result<Vec<MethodNo>, ClassError>
        ensures rest { SeesClasses self.old self.new }
        ensures told { IfOk result (λ m. AreMethodsOf (classes_of self.new) class m.items) }
        ensures refused { IfErr result (λ e. RefusesClassCall (classes_of self.new) class e) }
    {
        self.home.service.classes().get_class_methods(alloc, class)
    }

    fn get_method_name(&mut self, alloc: Global, method: MethodNo) -> Result<MethodName, ClassError>
        ensures rest { SeesClasses self.old self.new }
        ensures told { IfOk result (λ n. IsNameOf (classes_of self.new) method n) }
        ensures refused { IfErr result (λ e. RefusesMethodCall (classes_of self.new) method e) }
    {
        self.home.service.classes().get_method_name(alloc, method)
    }

    fn get_method_declaring_class(&mut self, method: MethodNo) -> Result<ClassNo, ClassError>
        ensures rest { SeesClasses self.old self.new }
        ensures told { IfOk result (λ c. IsDeclaredBy (classes_of self.new) method c) }
        ensures refused { IfErr result (λ e. RefusesMethod (classes_of self.new) method e) }
    {
        self.home
            .service
            .classes()
            .get_method_declaring_class(method)
    }

    fn is_method_native(&mut self, method: MethodNo) -> Result<bool, ClassError>
        ensures rest { SeesClasses self.old self.new }
        ensures told { IfOk result (λ b. IsSomeAnd (method_at (classes_of self.new) method) (λ m. b ≡ m.is_native)) }
        ensures refused { IfErr result (λ e. RefusesMethod (classes_of self.new) method e) }
    {
        self.home.service.classes().is_method_native(method)
    }

    fn get_line_number_table(
        &mut self,
        alloc: Global,
        method: MethodNo,
    ) -> Result<Lines, ClassError>
        ensures rest { SeesClasses self.old self.new }
        ensures told { IfOk result (λ l. AreLinesOf (classes_of self.new) method l) }
        ensures refused { IfErr result (λ e. RefusesLines (classes_of self.new) method e) }
    {
        self.home
            .service
            .classes()
            .get_line_number_table(alloc, method)
    }
}

ghost use Rattle.std.specs.Prelude.{◌≡◌, length, map, string_bytes, IfOk, IfErr, IsSomeAnd};
ghost use Rattle.ti_methods.specs.Classes.{AreLinesOf, AreMethodsOf, IsDeclaredBy, IsNameOf, IsSignature, IsSourceFile, RefusesClassCall, RefusesLines, RefusesMethod, RefusesMethodCall, RefusesSourceFile, count_from, method_at};
ghost use Rattle.ti_methods.specs.declared.error.ClassError.TheVariants.{OutOfMemory};
ghost use Rattle.ti_service.specs.Classes.{SeesClasses, classes_of};
