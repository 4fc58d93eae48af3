//! The methods that stacks were seen in.

use crate::label::NONE;
use crate::lines::Known;
use crate::stack::NAMED;
use indexmap::IndexSet;
use std::alloc::Global;
use ti_pprof::Frame;
use ti_service::{Agent, ClassCalls, ClassError};
use ti_types::MethodNo;

/// How many methods are known at most.
const MOST: usize = 65_536;

/// The methods that were seen, in the order in which they were first seen.
#[derive(Drop)]
pub(crate) struct Methods {
    numbers: IndexSet<u32>,
    /// The lines of each. `None` while they could not be asked for.
    lines: Vec<Option<Known>>,
    ghost same: { length lines.items ≡ length numbers.keys },
    ghost bounded: { length lines.items ≤ 65536 },
}

impl Methods {
    ghost use Rattle.std.specs.Prelude.{Some, slice_get};
    ghost use Rattle.ti_monitor.specs.Counted.{KnowsMore, IsNamed};

    /// No methods.
    pub(crate) fn new(alloc: Global) -> Methods {
        Methods {
            numbers: IndexSet::new(alloc),
            lines: Vec::new(alloc),
        }
    }

    /// One more reading begins. If it is the only one, all methods are forgotten.
    pub(crate) fn begin(&mut self, is_only: bool) {
        if is_only {
            self.numbers.clear();
            self.lines.clear();
        }
    }

    /// The numbers of the methods. Each one's function is at its place here, behind those that are no method's.
    pub(crate) fn numbers(&self) -> &[u32]
        ensures { length result.now ≤ 65536 }
    {
        self.numbers.as_slice()
    }

    /// A frame as it is counted: its method's function, and the line. If there is no room for one more method, or no memory, it is
    /// of no function.
    pub(crate) fn frame_of(
        &mut self,
        alloc: Global,
        agent: &mut Agent,
        frame: ti_types::Frame,
    ) -> Frame
        ensures named { IsNamed self.new frame result }
        ensures grows { KnowsMore self.old self.new }
        ensures env { agent.new.env ≡ agent.old.env }
    {
        match self.place_of(alloc, agent, frame.method) {
            Some(place) => Frame {
                function: place as u32 + NAMED,
                line: match &self.lines[place] {
                    Some(known) => known.line_at(frame.place),
                    None => 0,
                },
            },
            None => Frame {
                function: NONE,
                line: 0,
            },
        }
    }

    /// The place of a method, whose lines are asked for if they are not known. `None` if there is no room for one more, or no
    /// memory.
    fn place_of(&mut self, alloc: Global, agent: &mut Agent, method: MethodNo) -> Option<usize>
        ensures within { IfSome result (λ place. place < length self.new.lines.items) }
        ensures there { IfSome result (λ place. slice_get self.new.numbers.keys place ≡ Some method.0) }
        ensures grows { KnowsMore self.old self.new }
        ensures env { agent.new.env ≡ agent.old.env }
    {
        let place = self.find(method)?;
        if self.lines[place].is_none() {
            self.lines[place] = ask(alloc, agent, method);
        }
        Some(place)
    }

    /// The place of a method, which is added if it was not seen before. `None` if there is no room for one more, or no memory.
    fn find(&mut self, method: MethodNo) -> Option<usize>
        ensures within { IfSome result (λ place. place < length self.new.lines.items) }
        ensures there { IfSome result (λ place. slice_get self.new.numbers.keys place ≡ Some method.0) }
        ensures grows { KnowsMore self.old self.new }
    {
        if let Some(place) = self.numbers.get_index_of(&method.0) {
            return Some(place);
        }
        if self.lines.len() >= MOST {
            return None;
        }
        self.lines.reserve(1).ok()?;
        let (place, _is_new) = self.numbers.insert_full(method.0).ok()?;
        self.lines.push_reserved(None);
        Some(place)
    }
}

/// The lines of a method. `None` if there is no memory for them, or if its class is just being defined.
fn ask(alloc: Global, agent: &mut Agent, method: MethodNo) -> Option<Known>
    ensures env { agent.new.env ≡ agent.old.env }
{
    match agent.get_line_number_table(alloc, method) {
        Ok(lines) => Known::new(lines).ok(),
        Err(ClassError::OutOfMemory | ClassError::Busy) => None,
        Err(_) => Some(Known::absent()),
    }
}

ghost use Rattle.std.specs.Prelude.{◌≡◌, ◌<◌, ◌≤◌, length, IfSome};
