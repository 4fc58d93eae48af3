//! What a runtime tells of its variables.

use crate::asked::Asked;
use crate::debugger::Debugger;
use crate::desk::Desk;
use crate::question::{Question, TellError, Told, Variable};
use crate::taking::{named_in, read_answer};
use ti_jdwp::JdwpError;
use ti_types::{Caps, TiError};

impl Debugger {
    /// Says whether the runtime tells variables. At first it does not. It counts for requests that come from then on.
    pub fn tells_variables(&mut self, tells: bool)
        ensures { self.new ≡ record self.old { tells = tells } }
    {
        self.desk.tells = tells;
    }

    /// Says whether threads of the runtime go on without the frames that were popped. At first they do not. It counts for requests
    /// that come from then on: only if they do, debuggers are told that frames can be popped, and may pop some. The agent has the
    /// capability `can_pop_frame` from then on, or gives it up.
    ///
    /// 98 NOT_AVAILABLE if frames are to be popped and the service's environments cannot have `can_pop_frame`. Then nothing
    /// changes.
    pub fn pops_frames(&mut self, pops: bool) -> Result<(), TiError>
        ensures available { IsOk result ↔ (may_say_pops self.old.agent pops ≡ true) }
        ensures said { OnOk result (self.new ≡ record self.old { agent = with_pops self.old.agent pops }) }
        ensures refused { IfErr result (λ e. e ≡ NotAvailable) }
        ensures unchanged { OnErr result (self.new ≡ self.old) }
    {
        if pops {
            self.desk.agent.add_capabilities(Caps::CAN_POP_FRAME)
        } else {
            self.desk.agent.relinquish_capabilities(Caps::CAN_POP_FRAME)
        }
    }

    /// The question that is open.
    pub fn question(&self) -> Option<Question>
        ensures { result ≡ question_in self.now.asked }
    {
        self.desk.asked.question()
    }

    /// Answers a question for the variables of a method. The names stand one behind the other, in UTF-8.
    ///
    /// - 112 WRONG_PHASE: no such question is open. Nothing changes.
    /// - 103 ILLEGAL_ARGUMENT: the lengths do not add up, or a name is not UTF-8. Nothing changes.
    /// - 110 OUT_OF_MEMORY: there is no memory. Nothing changes.
    pub fn tell_variables(&mut self, variables: &[Variable], names: &[u8]) -> Result<(), TellError>
        ensures told { OnOk result (TellsThese variables.now names.now self.old.asked self.new.asked) }
        ensures refused { IfErr result (RefusesThese variables.now names.now self.old.asked) }
        ensures kept { OnErr result (self.new ≡ self.old) }
        ensures rest { self.new ≡ record self.old { asked = self.new.asked } }
    {
        let method = match self.desk.asked {
            Asked::Open(Question::Variables { method }) => method,
            _ => return Err(TellError::NotAsked),
        };
        let variables = named_in(self.desk.alloc, variables, names)?;
        self.desk.asked = Asked::Variables { method, variables };
        Ok(())
    }

    /// Answers a question for the values of a frame. Of two values of one slot the first counts. Texts and tables are kept until
    /// the thread is resumed for the debugger, or the debugger disposes of them, or the connection ends.
    ///
    /// - 112 WRONG_PHASE: no such question is open. Nothing changes.
    /// - 103 ILLEGAL_ARGUMENT: the lengths of texts and entries do not add up, an entry does not stand behind its table, or a table has
    ///   fewer entries. Nothing changes.
    /// - 110 OUT_OF_MEMORY: there is no memory, or more than 65,536 texts and tables, or 16 MiB of texts, would be kept. Nothing changes.
    pub fn tell_values(&mut self, values: &[Told], texts: &[u8]) -> Result<(), TellError>
        ensures told { OnOk result (TellsValuesOf values.now texts.now self.old self.new) }
        ensures same { NamesBelow self.old.numbers self.old.objects self.new.objects }
        ensures refused { IfErr result (RefusesValues values.now texts.now self.old) }
        ensures kept { OnErr result (self.new ≡ self.old) }
        ensures rest { self.new ≡ record self.old { asked = self.new.asked; objects = self.new.objects; numbers = self.new.numbers } }
    {
        let (thread, depth) = match self.desk.asked {
            Asked::Open(Question::Values { thread, depth }) => (thread, depth),
            _ => return Err(TellError::NotAsked),
        };
        let given = self.desk.objects.numbers;
        let taken = read_answer(self.desk.alloc, given, values, texts)?;
        if !self.desk.objects.add(thread, taken.objects) {
            return Err(TellError::OutOfMemory);
        }
        self.desk.asked = Asked::Values {
            thread,
            depth,
            rows: taken.rows,
        };
        Ok(())
    }

    /// Answers a question by an error, which is the reply.
    ///
    /// - 112 WRONG_PHASE: no question is open. Nothing changes.
    pub fn tell_none(&mut self, error: JdwpError) -> Result<(), TellError>
        ensures told { OnOk result (TellsNone error self.old.asked self.new.asked) }
        ensures refused { IfErr result (λ e. (e ≡ NotAsked) × (question_in self.old.asked ≡ None) × (self.new ≡ self.old)) }
        ensures rest { self.new ≡ record self.old { asked = self.new.asked } }
    {
        let Some(question) = self.desk.asked.question() else {
            return Err(TellError::NotAsked);
        };
        self.desk.asked = Asked::Untold { question, error };
        Ok(())
    }
}

ghost use Rattle.std.specs.Prelude.{◌≡◌, ◌↔◌, None, true, IfErr, IsOk, OnErr, OnOk};
ghost use Rattle.ti_types.specs.declared.error.TiError.TheVariants.{NotAvailable};
ghost use Rattle.ti_debugger.specs.Kept.{NamesBelow};
ghost use Rattle.ti_debugger.specs.Pops.{may_say_pops, with_pops};
ghost use Rattle.ti_debugger.specs.Questions.{question_in};
ghost use Rattle.ti_debugger.specs.VariableReplies.{RefusesThese, RefusesValues, TellsNone, TellsThese, TellsValuesOf};
ghost use Rattle.ti_debugger.specs.declared.question.TellError.TheVariants.{NotAsked};
