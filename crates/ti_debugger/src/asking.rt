//! The body of the reply to each request.

use crate::desk::Desk;
use crate::refusal::Refusal;
use crate::watched::Watched;
use std::alloc::{AllocError, Global};
use ti_jdwp::{
    JdwpError, Request, class_paths_body, group_children_body, text_body, thread_of, threads_body,
    version_body,
};

/// The name of a thread that is not watched any more.
const GONE: &[u8] = b"(ended)";

/// The thread with this id. 10 INVALID_THREAD if it is no thread's.
fn thread_in(id: u64) -> Result<u32, JdwpError>
    ensures ok { IfOk result (λ t. number_from first_thread id ≡ Some t) }
    ensures none { IfErr result (λ e. (e ≡ InvalidThread) × (number_from first_thread id ≡ None)) }
{
    match thread_of(id) {
        Some(thread) => Ok(thread),
        None => Err(JdwpError::InvalidThread),
    }
}

/// The name of a thread, or `thread N` if it has none. The error is lack of memory.
fn name_of(alloc: Global, one: &Watched) -> Result<String, AllocError>
    ensures { IfOk result (λ s. string_bytes s ≡ name_in one.now) }
{
    if one.name.is_empty() {
        return format!(in alloc; "thread {}", one.thread.0);
    }
    String::from_str(alloc, one.name.as_str())
}

impl Desk {
    /// The body of the reply to a request, whose data are these bytes.
    pub(crate) fn answer(&mut self, request: Request, bytes: &[u8]) -> Result<Vec<u8>, Refusal>
        ensures told { IfOk result (λ v. IsBodyOf request bytes.now self.old self.new v.items) }
        ensures rest { self.new ≡ record self.old { agent = self.new.agent; asked = self.new.asked } }
    {
        match request {
            Request::Version => self.version(),
            Request::ClassPaths => self.class_paths(),
            Request::AllClasses => self.classes(),
            Request::ClassesBySignature(range) => self.classes_by_signature(range.of(bytes)),
            Request::Signature(class) => self.signature(class),
            Request::SignatureWithGeneric(class) => self.generic_signature(class),
            Request::SourceFile(class) => self.source_file(class),
            Request::MethodsWithGeneric(class) => self.methods(class),
            Request::LineTable { class, method } => self.line_table(class, method),
            Request::IsObsolete { class, method } => self.is_obsolete(class, method),
            Request::VariableTable { class, method } => self.variables(class, method, false),
            Request::VariableTableWithGeneric { class, method } => {
                self.variables(class, method, true)
            }
            Request::FrameValues {
                thread,
                frame,
                slots,
            } => self.values(thread_in(thread)?, frame, slots.of(bytes)),
            Request::CapabilitiesNew => self.capabilities(),
            Request::PopFrames { thread, frame } => self.pop_frames(thread_in(thread)?, frame),
            Request::DisposeObjects(_) => Ok(Vec::new(self.alloc)),
            Request::ReferenceType(id) => self.class_of_object(id),
            Request::IsCollected(id) => self.is_collected(id),
            Request::TextValue(id) => self.text_value(id),
            Request::TableLength(id) => self.table_length(id),
            Request::TableEntries {
                table,
                start,
                length,
            } => self.table_entries(table, start, length),
            _ => self.answer_of_thread(request),
        }
    }

    /// The body of the reply to a request about threads. 99 NOT_IMPLEMENTED for another one.
    fn answer_of_thread(&mut self, request: Request) -> Result<Vec<u8>, Refusal>
        ensures told { IfOk result (λ v. (bytes : List ℕ) → IsBodyOf request bytes self.old self.new v.items) }
        ensures rest { self.new ≡ record self.old { agent = self.new.agent } }
    {
        match request {
            Request::AllThreads => self.all_threads(),
            Request::GroupChildren(_) => self.group_children(),
            Request::ThreadName(id) => self.thread_name(thread_in(id)?),
            Request::ThreadStatus(id) => self.status(thread_in(id)?),
            Request::FrameCount(id) => self.frame_count(thread_in(id)?),
            Request::Frames {
                thread,
                start,
                length,
            } => self.frames(thread_in(thread)?, start, length),
            _ => Err(Refusal::Error(JdwpError::NotImplemented)),
        }
    }

    /// What the runtime is (1/1).
    fn version(&self) -> Result<Vec<u8>, Refusal>
        ensures { IfOk result (λ v. v.items ≡ version_text self.now.about) }
    {
        Ok(version_body(
            self.alloc,
            self.about.description.as_bytes(),
            self.about.version.as_bytes(),
            self.about.name.as_bytes(),
        )?)
    }

    /// Where source files are looked for (1/13).
    fn class_paths(&self) -> Result<Vec<u8>, Refusal>
        ensures { IfOk result (λ v. v.items ≡ paths_text self.now.about) }
    {
        Ok(class_paths_body(
            self.alloc,
            self.about.base.as_bytes(),
            self.about.path.as_bytes(),
        )?)
    }

    /// The threads that have started and not ended (1/4).
    fn all_threads(&self) -> Result<Vec<u8>, Refusal>
        ensures { IfOk result (λ v. v.items ≡ thread_list (live_in self.now.crowd.list.items)) }
    {
        let threads = self.crowd.live(self.alloc)?;
        Ok(threads_body(self.alloc, threads.as_slice())?)
    }

    /// The same, as those of the one thread group, which has no groups (12/3).
    fn group_children(&self) -> Result<Vec<u8>, Refusal>
        ensures { IfOk result (λ v. v.items ≡ thread_list (live_in self.now.crowd.list.items) ++ int 0) }
    {
        let threads = self.crowd.live(self.alloc)?;
        Ok(group_children_body(self.alloc, threads.as_slice())?)
    }

    /// The name of a thread (11/1), also after its end, or `thread N` if it has none. One that is not watched any more is `(ended)`: a
    /// client may have listed it before. 10 INVALID_THREAD if no thread with a higher number is watched either.
    fn thread_name(&self, thread: u32) -> Result<Vec<u8>, Refusal>
        ensures { IfOk result (λ v. NamesThread self.now.crowd.list.items thread v.items) }
    {
        let Some(place) = self.crowd.place_of(thread) else {
            if self.crowd.has_later(thread) {
                return Ok(text_body(self.alloc, GONE)?);
            }
            return Err(Refusal::Error(JdwpError::InvalidThread));
        };
        let name = name_of(self.alloc, &self.crowd.list[place])?;
        Ok(text_body(self.alloc, name.as_bytes())?)
    }
}

ghost use Rattle.std.specs.Prelude.{◌≡◌, ℕ, List, ◌++◌, Some, None, string_bytes, IfOk, IfErr};
ghost use Rattle.ti_jdwp.specs.Bodies.{thread_list};
ghost use Rattle.ti_jdwp.specs.Fields.{int};
ghost use Rattle.ti_jdwp.specs.Ids.{number_from, first_thread};
ghost use Rattle.ti_jdwp.specs.declared.error.JdwpError.TheVariants.{InvalidThread};
ghost use Rattle.ti_debugger.specs.Crowds.{live_in};
ghost use Rattle.ti_debugger.specs.Replies.{IsBodyOf, NamesThread, name_in, paths_text, version_text};
