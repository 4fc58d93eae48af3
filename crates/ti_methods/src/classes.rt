//! A handle of the table of classes, and how a class is defined.

use crate::entry::{Entry, Hints, Numbers};
use crate::error::ClassError;
use crate::info::{ClassInfo, ClassNo, Defined};
use crate::law::{Add, BookNumbers, Count, Law, Look, Nothing, SeenClasses};
use crate::slots::Slots;
use boxcar::slot::Written;
use boxcar::tag::Tag;
use logbook::{Offer, Seen, Start, Word};
use std::alloc::Global;
use std::marker::Model;
use std::sync::Arc;
use ti_types::MethodNo;

/// How often a definition is tried again if another came before it.
const TRIES: u32 = 64;

/// One class, in the word that has both counts.
const HALF: u64 = 1 << 32;

/// How many numbers a handle took for classes, and how many of them `put` went through with. No call reads them: that they are the
/// same shows that a definition takes one number and leaves none behind.
#[derive(Drop)]
pub(crate) struct Own {
    pub(crate) taken: u32,
    pub(crate) stored: u32,
}

impl Own {
    fn none() -> Own
        ensures taken { result.taken ≡ 0 }
        ensures stored { result.stored ≡ 0 }
    {
        Own {
            taken: 0,
            stored: 0,
        }
    }
}

/// What all handles of a table share. Contracts see which table it is.
#[derive(Drop)]
pub(crate) struct Shared {
    count: Count,
    pub(crate) classes: Slots<Entry, Numbers>,
    pub(crate) hints: Slots<u32, Hints>,
    /// What a step asks that adds nothing.
    nothing: ClassInfo,
}

impl Model for Shared {
    ghost use Rattle.std.specs.Prelude.{◌≡◌};
    ghost use Rattle.logbook.specs.Pages.{Book, book_coded};
    ghost use Rattle.ti_methods.specs.Rules.{count_of, numbers_of};

    ghost Value = { Book };

    ghost coded = { book_coded };

    ghost view = { λ s. s.count.book };

    ghost invariant = { λ s. (s.count ≡ count_of s.count.book) × (s.classes ≡ numbers_of s.count.book) };
}

impl Shared {
    /// The table without a class, and what was seen of it.
    fn make(alloc: Global) -> Result<(Shared, SeenClasses), ClassError>
        ensures seen { IfOk result (λ r. (r.1.book ≡ r.0) × (r.1.log ≡ [])) }
        ensures memory { IfErr result (λ e. e ≡ OutOfMemory) }
    {
        let (seen, mut pen, _other) = Seen::open(Start::alone(), 0, 0);
        let count: Count = Word::tracked(0, &mut pen);
        let classes = Slots::new(alloc, Tag::of::<SeenClasses, BookNumbers>(&seen))?;
        let hints = Slots::new(alloc, Tag::empty())?;
        let nothing = ClassInfo {
            signature: String::new(alloc),
            source_file: None,
            methods: Vec::new(alloc),
        };
        let shared = Shared {
            count,
            classes,
            hints,
            nothing,
        };
        Ok((shared, seen))
    }

    /// The number of classes and of methods, by one load.
    pub(crate) fn load(&self, seen: &mut SeenClasses) -> (u32, u32)
        requires { seen.old.book ≡ self.now }
        ensures book { seen.new.book ≡ seen.old.book }
        ensures grows { IsPrefix seen.old.log seen.new.log }
        ensures classes { result.0 ≡ length seen.new.log }
        ensures methods { result.1 ≡ length (methods_in seen.new.log) }
    {
        let mut offer: Offer<ClassInfo, u64, Law, Nothing> = seen.plain::<Nothing, ClassInfo, Add>(
            &self.nothing,
        );
        let word = self.count.load::<Look, Nothing>(seen, &mut offer);
        ((word / HALF) as u32, (word % HALF) as u32)
    }

    /// Puts a class at the end of the list, if it is still as long as was seen. It says whether it did.
    fn add(
        &self,
        seen: &mut SeenClasses,
        own: &mut Own,
        class: &ClassInfo,
        classes: u32,
        methods: u32,
    ) -> bool
        requires book { seen.old.book ≡ self.now }
        requires own { own.old.taken ≤ length seen.old.log }
        requires classes { classes ≡ length seen.old.log }
        requires methods { methods ≡ length (methods_in seen.old.log) }
        requires room { HasRoom seen.old.log class.now }
        ensures book { seen.new.book ≡ seen.old.book }
        ensures grows { IsPrefix seen.old.log seen.new.log }
        ensures added { result ≡ true → seen.new.log ≡ seen.old.log ++ class.now ∷ [] }
        ensures taken { own.new.taken ≡ own.old.taken + (if result then 1 else 0) }
        ensures stored { own.new.stored ≡ own.old.stored }
        ensures own { own.new.taken ≤ length seen.new.log }
    {
        let old = classes as u64 * HALF + methods as u64;
        let new = old + HALF + class.methods.len() as u64;
        let mut offer: Offer<ClassInfo, u64, Law, Nothing> = seen.plain::<Nothing, ClassInfo, Add>(
            class,
        );
        let mut pen = seen.no_pen();
        let found = self
            .count
            .compare_exchange::<Add, Nothing>(old, new, seen, &mut offer, &mut pen);
        if found != old {
            return false;
        }
        own.taken += 1;
        true
    }

    /// Makes the slots of a class and of its methods, unless they are there.
    fn reserve(&self, class: u32, first: u32, methods: u32) -> Result<(), ClassError>
        requires { first + methods < 2 ^ 32 }
        ensures { IfErr result (λ e. IsTransient e) }
    {
        self.classes.reserve(class, class)?;
        if methods == 0 {
            return Ok(());
        }
        self.hints.reserve(first, first + (methods - 1))
    }

    /// Says of each method whose it is.
    fn hint(&self, class: u32, first: u32, methods: u32)
        requires { first + methods < 2 ^ 32 }
    {
        let mut i = 0;
        while i < methods {
            let _ = self.hints.set(first + i, class);
            i += 1;
        }
    }
}

/// A handle of a table of classes. Any thread may have one, and a handle of one table sees what is defined by all.
///
/// Contracts see which table it is of, and `seen`, the classes that it has seen, in the order of their numbers. All handles
/// of one table see beginnings of one list.
#[derive(Drop)]
pub struct Classes {
    pub(crate) shared: Arc<Shared>,
    pub(crate) seen: SeenClasses,
    pub(crate) own: Own,
}

impl Model for Classes {
    ghost use Rattle.std.specs.Prelude.{◌≡◌, ◌≤◌, length};
    ghost use Rattle.std.specs.Arc.{arc_value};
    ghost use Rattle.ti_methods.specs.Classes.{Known};

    ghost Value = { Known };

    ghost view = { λ c. record { book = c.seen.book; seen = c.seen.log } };

    ghost invariant = { λ c. (c.seen.book ≡ arc_value c.shared) × (c.own.taken ≡ c.own.stored) × (c.own.taken ≤ length c.seen.log) };
}

impl Classes {
    /// A table without a class. 110 OUT_OF_MEMORY if there is no memory for it, and no other error.
    pub fn make(alloc: Global) -> Result<Classes, ClassError>
        ensures new { IfOk result (λ c. c.seen ≡ []) }
        ensures memory { IfErr result (λ e. e ≡ OutOfMemory) }
    {
        let (shared, seen) = Shared::make(alloc)?;
        match Arc::new(alloc, shared) {
            Ok(shared) => Ok(Classes {
                shared,
                seen,
                own: Own::none(),
            }),
            Err(_) => Err(ClassError::OutOfMemory),
        }
    }

    /// One more handle of the table, which has seen what this one has. It takes no memory. 216 `Full` if there are 2^63
    /// handles already, and no other error.
    pub fn share(&self) -> Result<Classes, ClassError>
        ensures same { IfOk result (λ c. c ≡ self.now) }
        ensures full { IfErr result (λ e. e ≡ Full) }
    {
        match Arc::try_clone(&self.shared) {
            Ok(shared) => Ok(Classes {
                shared,
                seen: self.seen.again(),
                own: Own::none(),
            }),
            Err(_) => Err(ClassError::Full),
        }
    }

    /// Sees what another handle of the table has seen. What both were told of a number was the same.
    pub fn learn(&mut self, other: &Classes)
        requires { other.now.book ≡ self.old.book }
        ensures book { self.new.book ≡ self.old.book }
        ensures mine { IsPrefix self.old.seen self.new.seen }
        ensures others { IsPrefix other.now.seen self.new.seen }
        ensures alike { AreAlike self.old.seen other.now.seen }
    {
        self.seen.learn(&other.seen);
    }

    /// Defines a class with its methods. From now on all handles of the table are told of it. It never waits.
    ///
    /// The class comes back with an error:
    ///
    /// - 216 `Full` (this profile): there would be 2^32 classes, or 2^32 methods.
    /// - 110 OUT_OF_MEMORY: there is no memory for it.
    /// - 215 `Busy` (this profile): other definitions were in the way. Try again.
    pub fn define_class(&mut self, class: ClassInfo) -> Result<Defined, (ClassError, ClassInfo)>
        ensures book { self.new.book ≡ self.old.book }
        ensures grows { IsPrefix self.old.seen self.new.seen }
        ensures defined { IfOk result (λ d. IsDefined self.old self.new class d) }
        ensures refused { IfErr result (λ r. RefusesClass self.new.seen class r.0) }
        ensures back { IfErr result (λ r. r.1 ≡ class) }
    {
        for _ in 0..TRIES {
            match number(&self.shared, &mut self.seen, &mut self.own, &class) {
                Ok(Some(defined)) => {
                    return match put(&self.shared, &self.seen, &mut self.own, class, defined) {
                        Ok(_written) => Ok(defined),
                        Err(class) => Err((ClassError::Busy, class)),
                    };
                }
                Ok(None) => {}
                Err(error) => return Err((error, class)),
            }
        }
        Err((ClassError::Busy, class))
    }
}

/// Takes the next numbers for a class, unless another class comes before it.
fn number(
    shared: &Shared,
    seen: &mut SeenClasses,
    own: &mut Own,
    class: &ClassInfo,
) -> Result<Option<Defined>, ClassError>
    requires book { seen.old.book ≡ shared.now }
    requires own { own.old.taken ≤ length seen.old.log }
    ensures book { seen.new.book ≡ seen.old.book }
    ensures grows { IsPrefix seen.old.log seen.new.log }
    ensures taken { IfOk result (λ d. IfSome d (λ d. IsDefined (record { book = seen.old.book; seen = seen.old.log }) (record { book = seen.new.book; seen = seen.new.log }) class.now d × IsPut seen.new.log class.now d)) }
    ensures one { IfOk result (λ d. own.new.taken ≡ own.old.taken + (if is_some d then 1 else 0)) }
    ensures none { OnErr result (own.new.taken ≡ own.old.taken) }
    ensures stored { own.new.stored ≡ own.old.stored }
    ensures own { own.new.taken ≤ length seen.new.log }
    ensures refused { IfErr result (λ e. RefusesClass seen.new.log class.now e) }
{
    let (number, first) = shared.load(seen);
    let methods = class.methods.len();
    if number == u32::MAX || methods > (u32::MAX - first) as usize {
        return Err(ClassError::Full);
    }
    shared.reserve(number, first, methods as u32)?;
    if !shared.add(seen, own, class, number, first) {
        return Ok(None);
    }
    Ok(Some(Defined {
        class: ClassNo(number),
        first: MethodNo(first),
    }))
}

/// Puts a class that has its numbers where it is found, and gives what shows that it is there.
fn put(
    shared: &Shared,
    seen: &SeenClasses,
    own: &mut Own,
    class: ClassInfo,
    defined: Defined,
) -> Result<Written<Entry>, ClassInfo>
    requires book { seen.now.book ≡ shared.now }
    requires put { IsPut seen.now.log class defined }
    requires stored { own.old.stored < own.old.taken }
    ensures written { IfOk result (λ w. (w.value.class ≡ class) × (w.value.first ≡ defined.first.0)) }
    ensures back { IfErr result (λ c. c ≡ class) }
    ensures taken { own.new.taken ≡ own.old.taken }
    ensures stored { own.new.stored ≡ own.old.stored + 1 }
{
    shared.hint(defined.class.0, defined.first.0, class.methods.len() as u32);
    let entry = Entry {
        class,
        first: defined.first.0,
        seen: seen.again(),
    };
    own.stored += 1;
    match shared.classes.set(defined.class.0, entry) {
        Ok(written) => Ok(written),
        Err(Entry { class, .. }) => Err(class),
    }
}

ghost use Rattle.std.specs.Prelude.{◌≡◌, ◌+◌, ◌^◌, ◌<◌, ◌≤◌, ◌++◌, ◌∷◌, [], length, true, is_some, if◌then◌else◌, IfOk, IfErr, OnErr, IfSome};
ghost use mathlib.Core.List.{IsPrefix};
ghost use Rattle.ti_methods.specs.Errors.{IsTransient};
ghost use Rattle.ti_methods.specs.Classes.{AreAlike, HasRoom, IsDefined, IsPut, RefusesClass, methods_in};
ghost use Rattle.ti_methods.specs.declared.error.ClassError.TheVariants.{Full, OutOfMemory};
