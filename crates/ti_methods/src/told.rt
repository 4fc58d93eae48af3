//! What is told of classes and methods, by the functions of JVM TI.

use crate::classes::{Classes, Shared};
use crate::entry::Entry;
use crate::error::ClassError;
use crate::info::{ClassNo, Lines, MethodInfo, MethodName};
use crate::law::SeenClasses;
use std::alloc::Global;
use ti_types::MethodNo;

/// The class of this number, with what the list says of it.
fn find<'a>(
    shared: &'a Shared,
    seen: &mut SeenClasses,
    class: ClassNo,
) -> Result<&'a Entry, ClassError>
    requires { seen.old.book ≡ shared.now }
    ensures book { seen.new.book ≡ seen.old.book }
    ensures grows { IsPrefix seen.old.log seen.new.log }
    ensures found { IfOk result (λ e. IsFound seen.new.log class e.now) }
    ensures refused { IfErr result (λ e. RefusesLook seen.new.log class e) }
{
    let (classes, _) = shared.load(seen);
    match shared.classes.get(class.0) {
        Some(entry) => {
            seen.learn(&entry.seen);
            Ok(entry)
        }
        None if class.0 >= classes => Err(ClassError::InvalidClass),
        None => Err(ClassError::Busy),
    }
}

/// The class of a method, and the method's place there.
fn find_method<'a>(
    shared: &'a Shared,
    seen: &mut SeenClasses,
    method: MethodNo,
) -> Result<(ClassNo, &'a MethodInfo), ClassError>
    requires { seen.old.book ≡ shared.now }
    ensures book { seen.new.book ≡ seen.old.book }
    ensures grows { IsPrefix seen.old.log seen.new.log }
    ensures class { IfOk result (λ r. IsDeclaredBy seen.new.log method r.0) }
    ensures method { IfOk result (λ r. method_at seen.new.log method ≡ Some r.1.now) }
    ensures refused { IfErr result (λ e. RefusesMethod seen.new.log method e) }
{
    let (_, methods) = shared.load(seen);
    if method.0 >= methods {
        return Err(ClassError::InvalidMethod);
    }
    let Some(class) = shared.hints.get(method.0) else {
        return Err(ClassError::Busy);
    };
    let class = ClassNo(*class);
    let Ok(entry) = find(shared, seen, class) else {
        return Err(ClassError::Busy);
    };
    if method.0 < entry.first {
        return Err(ClassError::Busy);
    }
    match entry.class.methods.get((method.0 - entry.first) as usize) {
        Some(info) => Ok((class, info)),
        None => Err(ClassError::Busy),
    }
}

/// A copy of a method's lines.
fn copy_lines(alloc: Global, lines: &Lines) -> Result<Lines, ClassError>
    ensures same { IfOk result (λ l. AreSameLines l lines.now) }
    ensures absent { IfErr result (λ e. (e ≡ AbsentInformation) × (lines.now ≡ Absent) ⊎ (e ≡ OutOfMemory)) }
{
    match lines {
        Lines::Absent => Err(ClassError::AbsentInformation),
        Lines::Locations => Ok(Lines::Locations),
        Lines::Table(table) => Ok(Lines::Table(table.as_slice().to_vec(alloc)?)),
    }
}

impl Classes {
    /// GetClassSignature (JVM TI 11).
    ///
    /// Errors, as for all calls at a class: 21 INVALID_CLASS; 110 OUT_OF_MEMORY if there is no memory for the answer; 215
    /// `Busy` (this profile) if the class is just being defined, so that nobody has been told of it.
    pub fn get_class_signature(
        &mut self,
        alloc: Global,
        class: ClassNo,
    ) -> Result<String, ClassError>
        ensures book { self.new.book ≡ self.old.book }
        ensures grows { IsPrefix self.old.seen self.new.seen }
        ensures told { IfOk result (λ s. IsSignature self.new.seen class (string_bytes s)) }
        ensures refused { IfErr result (λ e. RefusesClassCall self.new.seen class e) }
    {
        let entry = find(&self.shared, &mut self.seen, class)?;
        Ok(String::from_str(alloc, entry.class.signature.as_str())?)
    }

    /// GetSourceFileName (JVM TI 11). 101 ABSENT_INFORMATION if the class was defined without one.
    pub fn get_source_file_name(
        &mut self,
        alloc: Global,
        class: ClassNo,
    ) -> Result<String, ClassError>
        ensures book { self.new.book ≡ self.old.book }
        ensures grows { IsPrefix self.old.seen self.new.seen }
        ensures told { IfOk result (λ s. IsSourceFile self.new.seen class (string_bytes s)) }
        ensures refused { IfErr result (λ e. RefusesSourceFile self.new.seen class e) }
    {
        let entry = find(&self.shared, &mut self.seen, class)?;
        match &entry.class.source_file {
            Some(name) => Ok(String::from_str(alloc, name.as_str())?),
            None => Err(ClassError::AbsentInformation),
        }
    }

    /// GetClassMethods (JVM TI 11): the numbers of its methods, in the order in which they were given.
    pub fn get_class_methods(
        &mut self,
        alloc: Global,
        class: ClassNo,
    ) -> Result<Vec<MethodNo>, ClassError>
        ensures book { self.new.book ≡ self.old.book }
        ensures grows { IsPrefix self.old.seen self.new.seen }
        ensures told { IfOk result (λ m. AreMethodsOf self.new.seen class m.items) }
        ensures refused { IfErr result (λ e. RefusesClassCall self.new.seen class e) }
    {
        let entry = find(&self.shared, &mut self.seen, class)?;
        Ok(method_numbers(alloc, entry.first, entry.class.methods.len() as u32)?)
    }

    /// How many classes have a number.
    pub fn class_count(&mut self) -> u32
        ensures book { self.new.book ≡ self.old.book }
        ensures grows { IsPrefix self.old.seen self.new.seen }
        ensures count { result ≡ length self.new.seen }
    {
        self.shared.load(&mut self.seen).0
    }

    /// Looks whether a class of this number was defined, and its definition has ended.
    ///
    /// Errors: 21 INVALID_CLASS, or 215 `Busy` (this profile) if the class is just being defined.
    pub fn look_for(&mut self, class: ClassNo) -> Result<(), ClassError>
        ensures book { self.new.book ≡ self.old.book }
        ensures grows { IsPrefix self.old.seen self.new.seen }
        ensures there { OnOk result (class.0 < length self.new.seen) }
        ensures fits { OnOk result (length self.new.seen < 2 ^ 32) }
        ensures refused { IfErr result (λ e. RefusesLook self.new.seen class e) }
    {
        find(&self.shared, &mut self.seen, class)?;
        let _count = self.shared.load(&mut self.seen);
        Ok(())
    }

    /// GetLoadedClasses (JVM TI 11): the numbers of all classes. 110 OUT_OF_MEMORY if there is no memory for them, and no
    /// other error.
    pub fn get_loaded_classes(&mut self, alloc: Global) -> Result<Vec<ClassNo>, ClassError>
        ensures book { self.new.book ≡ self.old.book }
        ensures grows { IsPrefix self.old.seen self.new.seen }
        ensures told { IfOk result (λ c. map (λ n. n.0) c.items ≡ count_from 0 (length self.new.seen)) }
        ensures memory { IfErr result (λ e. e ≡ OutOfMemory) }
    {
        let (classes, _) = self.shared.load(&mut self.seen);
        class_numbers(alloc, classes)
    }

    /// GetMethodName (JVM TI 11), with the line at which the method is defined.
    ///
    /// Errors, as for all calls at a method: 23 INVALID_METHODID; 110 OUT_OF_MEMORY if there is no memory for the answer;
    /// 215 `Busy` (this profile) if its class is just being defined, so that nobody has been told of it.
    pub fn get_method_name(
        &mut self,
        alloc: Global,
        method: MethodNo,
    ) -> Result<MethodName, ClassError>
        ensures book { self.new.book ≡ self.old.book }
        ensures grows { IsPrefix self.old.seen self.new.seen }
        ensures told { IfOk result (λ n. IsNameOf self.new.seen method n) }
        ensures refused { IfErr result (λ e. RefusesMethodCall self.new.seen method e) }
    {
        let (_, info) = find_method(&self.shared, &mut self.seen, method)?;
        Ok(MethodName {
            name: String::from_str(alloc, info.name.as_str())?,
            signature: String::from_str(alloc, info.signature.as_str())?,
            first_line: info.first_line,
        })
    }

    /// GetMethodDeclaringClass (JVM TI 11).
    pub fn get_method_declaring_class(&mut self, method: MethodNo) -> Result<ClassNo, ClassError>
        ensures book { self.new.book ≡ self.old.book }
        ensures grows { IsPrefix self.old.seen self.new.seen }
        ensures told { IfOk result (λ c. IsDeclaredBy self.new.seen method c) }
        ensures refused { IfErr result (λ e. RefusesMethod self.new.seen method e) }
    {
        let (class, _) = find_method(&self.shared, &mut self.seen, method)?;
        Ok(class)
    }

    /// IsMethodNative (JVM TI 11).
    pub fn is_method_native(&mut self, method: MethodNo) -> Result<bool, ClassError>
        ensures book { self.new.book ≡ self.old.book }
        ensures grows { IsPrefix self.old.seen self.new.seen }
        ensures told { IfOk result (λ b. IsSomeAnd (method_at self.new.seen method) (λ m. b ≡ m.is_native)) }
        ensures refused { IfErr result (λ e. RefusesMethod self.new.seen method e) }
    {
        let (_, info) = find_method(&self.shared, &mut self.seen, method)?;
        Ok(info.is_native)
    }

    /// GetLineNumberTable (JVM TI 11). 104 NATIVE_METHOD if the method is native, otherwise 101 ABSENT_INFORMATION if it was
    /// defined without lines.
    pub fn get_line_number_table(
        &mut self,
        alloc: Global,
        method: MethodNo,
    ) -> Result<Lines, ClassError>
        ensures book { self.new.book ≡ self.old.book }
        ensures grows { IsPrefix self.old.seen self.new.seen }
        ensures told { IfOk result (λ l. AreLinesOf self.new.seen method l) }
        ensures refused { IfErr result (λ e. RefusesLines self.new.seen method e) }
    {
        let (_, info) = find_method(&self.shared, &mut self.seen, method)?;
        if info.is_native {
            return Err(ClassError::NativeMethod);
        }
        copy_lines(alloc, &info.lines)
    }
}

/// The numbers of all classes.
fn class_numbers(alloc: Global, classes: u32) -> Result<Vec<ClassNo>, ClassError>
    ensures numbers { IfOk result (λ c. map (λ n. n.0) c.items ≡ count_from 0 classes) }
    ensures memory { IfErr result (λ e. e ≡ OutOfMemory) }
{
    let mut numbers = Vec::with_capacity(alloc, classes as usize)?;
    let mut i = 0;
    while i < classes {
        numbers.push_reserved(ClassNo(i));
        i += 1;
    }
    Ok(numbers)
}

/// The numbers of methods, from the first on.
fn method_numbers(alloc: Global, first: u32, methods: u32) -> Result<Vec<MethodNo>, ClassError>
    requires { first + methods < 2 ^ 32 }
    ensures numbers { IfOk result (λ m. map (λ n. n.0) m.items ≡ count_from first methods) }
    ensures memory { IfErr result (λ e. e ≡ OutOfMemory) }
{
    let mut numbers = Vec::with_capacity(alloc, methods as usize)?;
    let mut i = 0;
    while i < methods {
        numbers.push_reserved(MethodNo(first + i));
        i += 1;
    }
    Ok(numbers)
}

ghost use Rattle.std.specs.Prelude.{◌≡◌, ◌+◌, ◌^◌, ◌<◌, ◌⊎◌, Some, length, map, string_bytes, IfOk, IfErr, IsSomeAnd, OnOk};
ghost use mathlib.Core.List.{IsPrefix};
ghost use Rattle.ti_methods.specs.Classes.{AreLinesOf, AreMethodsOf, AreSameLines, IsDeclaredBy, IsNameOf, IsSignature, IsSourceFile, RefusesClassCall, RefusesLines, RefusesLook, RefusesMethod, RefusesMethodCall, RefusesSourceFile, count_from, method_at, methods_in};
ghost use Rattle.ti_methods.specs.Rules.{IsFound};
ghost use Rattle.ti_methods.specs.declared.error.ClassError.TheVariants.{AbsentInformation, OutOfMemory};
ghost use Rattle.ti_methods.specs.declared.info.Lines.TheVariants.{Absent};
