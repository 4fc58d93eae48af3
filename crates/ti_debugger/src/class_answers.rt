//! What is told of classes.

use crate::desk::Desk;
use crate::refusal::Refusal;
use crate::source::file_in;
use std::alloc::{AllocError, Global};
use ti_jdwp::{
    ClassRow, JdwpError, class_of, classes_body, classes_found_body, generic_signature_body,
    text_body,
};
use ti_service::{ClassCalls, ClassNo};

/// A class with its signature.
#[derive(Drop)]
struct Known {
    class: u32,
    signature: String,
}

/// The class with this id. 21 INVALID_CLASS if it is no class's.
fn class_in(id: u64) -> Result<ClassNo, JdwpError>
    ensures ok { IfOk result (λ c. number_from first_class id ≡ Some c.0) }
    ensures none { IfErr result (λ e. (e ≡ InvalidClass) × (number_from first_class id ≡ None)) }
{
    match class_of(id) {
        Some(class) => Ok(ClassNo(class)),
        None => Err(JdwpError::InvalidClass),
    }
}

/// The rows of a list of classes. The error is lack of memory.
fn body_of(alloc: Global, classes: &[Known]) -> Result<Vec<u8>, JdwpError>
    ensures { IfOk result (λ v. v.items ≡ list class_item (map known_class classes.now)) }
{
    let mut rows = Vec::new(alloc);
    for known in classes {
        rows.reserve(1)?;
        rows.push_reserved(ClassRow {
            class: known.class,
            signature: known.signature.as_bytes(),
        });
    }
    classes_body(alloc, rows.as_slice())
}

/// The classes that have this signature. The error is lack of memory.
#[tactic(auto, using(std::proofs::lemmas::List::Elements::filter_more))]
fn found_in(alloc: Global, classes: &[Known], signature: &[u8]) -> Result<Vec<u32>, AllocError>
    ensures { IfOk result (λ v. v.items ≡ found_in signature.now (map known_class classes.now)) }
{
    let mut found = Vec::new(alloc);
    for known in classes {
        if known.signature.as_bytes() == signature {
            found.push(known.class)?;
        }
    }
    Ok(found)
}

impl Desk {
    /// All classes with their signatures.
    fn all_classes(&mut self) -> Result<Vec<Known>, Refusal>
        ensures told { IfOk result (λ v. ListsAll (classes_of self.old.agent) (classes_of self.new.agent) (map known_class v.items)) }
        ensures rest { self.new ≡ record self.old { agent = self.new.agent } }
    {
        let mut known = Vec::new(self.alloc);
        let classes = self.agent.get_loaded_classes(self.alloc)?;
        for class in &classes {
            let signature = self.agent.get_class_signature(self.alloc, *class)?;
            known.reserve(1)?;
            known.push_reserved(Known {
                class: class.0,
                signature,
            });
        }
        Ok(known)
    }

    /// All classes (1/20).
    pub(crate) fn classes(&mut self) -> Result<Vec<u8>, Refusal>
        ensures told { IfOk result (λ v. TellsAllClasses (classes_of self.old.agent) (classes_of self.new.agent) v.items) }
        ensures rest { self.new ≡ record self.old { agent = self.new.agent } }
    {
        let known = self.all_classes()?;
        Ok(body_of(self.alloc, known.as_slice())?)
    }

    /// The classes that have this signature (1/2).
    pub(crate) fn classes_by_signature(&mut self, signature: &[u8]) -> Result<Vec<u8>, Refusal>
        ensures told { IfOk result (λ v. TellsFound signature.now (classes_of self.old.agent) (classes_of self.new.agent) v.items) }
        ensures rest { self.new ≡ record self.old { agent = self.new.agent } }
    {
        let known = self.all_classes()?;
        let found = found_in(self.alloc, known.as_slice(), signature)?;
        Ok(classes_found_body(self.alloc, found.as_slice())?)
    }

    /// The signature of a class (2/1).
    pub(crate) fn signature(&mut self, id: u64) -> Result<Vec<u8>, Refusal>
        ensures told { IfOk result (λ v. TellsOfClass IsSignature (classes_of self.new.agent) id text v.items) }
        ensures rest { self.new ≡ record self.old { agent = self.new.agent } }
    {
        let class = class_in(id)?;
        let signature = self.agent.get_class_signature(self.alloc, class)?;
        Ok(text_body(self.alloc, signature.as_bytes())?)
    }

    /// The signature of a class, and the empty generic one (2/13).
    pub(crate) fn generic_signature(&mut self, id: u64) -> Result<Vec<u8>, Refusal>
        ensures told { IfOk result (λ v. TellsOfClass IsSignature (classes_of self.new.agent) id with_generic v.items) }
        ensures rest { self.new ≡ record self.old { agent = self.new.agent } }
    {
        let class = class_in(id)?;
        let signature = self.agent.get_class_signature(self.alloc, class)?;
        Ok(generic_signature_body(self.alloc, signature.as_bytes())?)
    }

    /// The source file of a class without its folders (2/7): a debugger puts those of the class before it. 101 ABSENT_INFORMATION if it
    /// has none.
    pub(crate) fn source_file(&mut self, id: u64) -> Result<Vec<u8>, Refusal>
        ensures told { IfOk result (λ v. TellsOfClass IsSourceFile (classes_of self.new.agent) id file_text v.items) }
        ensures rest { self.new ≡ record self.old { agent = self.new.agent } }
    {
        let class = class_in(id)?;
        let path = self.agent.get_source_file_name(self.alloc, class)?;
        Ok(text_body(self.alloc, file_in(path.as_bytes()))?)
    }
}

ghost use Rattle.std.specs.Prelude.{◌≡◌, Some, None, map, IfOk, IfErr};
ghost use Rattle.ti_jdwp.specs.Bodies.{list};
ghost use Rattle.ti_jdwp.specs.Fields.{text};
ghost use Rattle.ti_jdwp.specs.Ids.{number_from, first_class};
ghost use Rattle.ti_jdwp.specs.declared.error.JdwpError.TheVariants.{InvalidClass};
ghost use Rattle.ti_methods.specs.Classes.{IsSignature, IsSourceFile};
ghost use Rattle.ti_service.specs.Classes.{classes_of};
ghost use Rattle.ti_debugger.specs.Replies.{ListsAll, TellsAllClasses, TellsFound, TellsOfClass, class_item, file_text, found_in, known_class, with_generic};
