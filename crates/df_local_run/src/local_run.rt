//! Runs of local calls of one unit, apart from all others.

ghost use Rattle.std.specs.Prelude.{◌≡◌, [], IfOk, OnErr, OnOk, true};

use crate::parts::RunParts;
use df_local::Local;
use df_memory::NoMemory;
use df_unit::{Call, Entry};
use std::alloc::Global;
use std::marker::Model;

/// A unit as it was, as it is after some local calls, and the entries between, the oldest first.
/// The unit is copied by the first call.
#[derive(Drop)]
pub struct LocalRun {
    parts: Box<RunParts>,
}

impl Model for LocalRun {
    ghost use Rattle.df_local_run.specs.code.Parts.{IsRun, state_of};
    ghost use Rattle.df_local_run.specs.RunState.{RunState, run_code};

    ghost Value = { RunState };

    ghost coded = { run_code };

    ghost view = { λ r. state_of r.parts.value };

    ghost invariant = { λ r. IsRun r.parts.value };
}

impl LocalRun {
    ghost use Rattle.df_local_run.specs.code.Parts.{IsRun, state_of};
    ghost use Rattle.df_local_run.specs.Runs.{LeadTo, called, is_local};

    /// A run without calls of a unit as it is.
    pub fn begin(alloc: Global, base: Local) -> Result<LocalRun, NoMemory>
        ensures { IfOk result (λ run. run ≡ record { base = base; present = base; entries = [] }) }
    {
        let parts = RunParts {
            base,
            present: None,
            entries: Vec::new(alloc),
        };
        let parts = Box::new(alloc, parts)?;
        Ok(LocalRun { parts })
    }

    /// Makes one local call more, which is moved into its entry. The first costs a copy of the unit.
    pub fn call(&mut self, call: &mut Call) -> Result<(), NoMemory>
        requires { is_local call.old ≡ true }
        ensures ok { OnOk result (self.new ≡ called self.old call.old) }
        ensures unchanged { OnErr result (self.new ≡ self.old) }
        ensures call { OnErr result (call.new ≡ call.old) }
    {
        self.parts.call(call)
    }

    pub fn base(&self) -> &Local
        ensures { result.now ≡ self.now.base }
    {
        &self.parts.base
    }

    pub fn present(&self) -> &Local
        ensures { result.now ≡ self.now.present }
    {
        self.parts.present()
    }

    /// The entries, the oldest first.
    pub fn entries(&self) -> &[Entry]
        ensures entries { result.now ≡ self.now.entries }
        ensures in_turn { LeadTo self.now.entries self.now.base self.now.present }
    {
        self.parts.entries.as_slice()
    }

    /// The run's parts. Takes no memory.
    pub fn into_parts(self) -> Box<RunParts>
        ensures state { state_of result.value ≡ self }
        ensures run { IsRun result.value }
    {
        self.parts
    }

    /// The run of these parts. Takes no memory.
    pub fn of_parts(parts: Box<RunParts>) -> LocalRun
        requires { IsRun parts.value }
        ensures { result ≡ state_of parts.value }
    {
        LocalRun { parts }
    }

    /// Lets the run go.
    pub fn let_go(self) {
        drop(self.parts);
    }
}

ghost use Rattle.df_local_run.specs.Runs as runs;

/// Whether the call concerns no other unit.
pub fn is_local(call: &Call) -> bool
    ensures { result ≡ runs.is_local call.now }
{
    matches!(
        call,
        Call::CreateEvent
            | Call::AddPart { .. }
            | Call::DelPart { .. }
            | Call::ReadPart { .. }
            | Call::CloneEvent { .. }
            | Call::AttachPrivilege { .. }
            | Call::ChangeOutLabel { .. }
            | Call::CreateTag
            | Call::DropEvent { .. }
    )
}
