//! A program that is run.
ghost use Rattle.std.specs.Prelude.{◌≡◌, List, [], Option, None, Some, length, IfOk, IfErr, IsTrue};
ghost use Rattle.og_model.specs.Regions.{regions as regions_of};
ghost use Rattle.og_csubset.specs.Loading.{first_load_rule, Loads, cells_of_globals};
ghost use Rattle.og_cstatement.specs.Positions.{config_of};
ghost use Rattle.og_csubset.specs.Kinds.{global_names};
ghost use Rattle.og_csubset.specs.Reads.{end_of};
ghost use Rattle.og_ccells.specs.Layouts.{layout_of};
ghost use Rattle.og_ccells.specs.Vectors.{trees_of};
ghost use Rattle.og_cstatement.specs.Links.{linked_of};
ghost use Rattle.og_cstep.specs.declared.Advance.{Advance as Answer};
ghost use Rattle.og_cstep.specs.Answered.{answer_by, Answers};
ghost use Rattle.og_cstep.specs.Interfaces.{interface_of};
ghost use Rattle.og_cstep.specs.Machines.{run_of, run_at, loaded as loaded_run, Refuses, CanBegin, is_stimulus_of, begins, advanced};

use crate::entries::{enter, entry_of, find_entries};
use crate::interface::{Interface, answer_of_end, can_show, find_interface};
use crate::{Advance, LoadError, Machine};
use og_ccells::{Layout, first_cells};
use og_cload::broken_rule;
use og_cstatement::{Linked, Position, Standing, link, step};
use og_csubset::CProgram;
use og_model::{EventId, Model, StimId, StuckRule};
use og_regions::Regions;
use std::alloc::Global;

impl Machine {
    /// A program at its first global values, each cell 0. The regions are those of the model. The rules are tried in their
    /// order, and the error names the first one that is broken.
    pub fn load(
        alloc: Global,
        program: &CProgram,
        model: &Model,
        regions: &Regions,
    ) -> Result<Machine, LoadError>
        requires { regions.now.list ≡ regions_of model.now }
        ensures loads { IfOk result (λ machine. first_load_rule program.now model.now ≡ None) }
        ensures loaded { IfOk result (λ machine. run_of machine ≡ loaded_run program.now model.now) }
        ensures refused { IfErr result (λ error. Refuses error (first_load_rule program.now model.now)) }
    {
        if let Some(rule) = broken_rule(alloc, program, model, regions.list.as_slice())? {
            return Err(LoadError::BadProgram(rule));
        }
        let layout = Layout::of(alloc, program)?;
        let linked = link(alloc, program, model, &layout)?;
        let interface = find_interface(alloc, program, model, regions.list.as_slice())?;
        let entries = find_entries(alloc, program, model)?;
        let cells = first_cells(alloc, program, &layout)?;
        let position = Position::new(alloc, program.functions.len())?;
        let program = program.copy(alloc)?;
        let model = model.copy(alloc)?;
        Ok(Machine {
            program,
            model,
            layout,
            linked,
            interface,
            entries,
            cells,
            position,
            last: None,
        })
    }

    /// A stimulus calls its function. Nothing runs, and neither a fault nor Stuck came before.
    pub fn begin(&mut self, stimulus: StimId)
        requires idle { CanBegin (run_of self.old).config (run_of self.old).last }
        requires stimulus { IsTrue (is_stimulus_of (run_of self.old).model stimulus) }
        ensures { run_of self.new ≡ begins stimulus (run_of self.old) }
    {
        let function = entry_of(&self.entries, stimulus);
        enter(&mut self.position, function);
    }

    /// Carries out one statement.
    pub fn advance(&mut self) -> Advance
        ensures moved { run_of self.new ≡ advanced (run_of self.old) }
        ensures answered { Some result ≡ (run_of self.new).last }
    {
        let answer = take_step(
            &self.program,
            &self.model,
            &self.layout,
            &self.linked,
            &self.interface,
            &mut self.cells,
            &mut self.position,
        );
        self.last = Some(answer);
        answer
    }
}

/// Carries out one statement of a program over a model.
fn take_step(
    program: &CProgram,
    model: &Model,
    layout: &Layout,
    linked: &Linked,
    interface: &Interface,
    cells: &mut Vec<i64>,
    position: &mut Position,
) -> Advance
    requires loads { Loads program.now model.now }
    requires layout { layout.now ≡ layout_of program.now }
    requires linked { linked.now ≡ linked_of program.now model.now }
    requires interface { interface.now ≡ interface_of program.now model.now }
    requires cells { length cells.old.items ≡ cells_of_globals program.now }
    ensures moved { (last : Option Answer) → run_at program.now model.now (trees_of program.now cells.new.items) position.new (Some result)
        ≡ advanced (run_at program.now model.now (trees_of program.now cells.old.items) position.old last) }
    ensures cells { length cells.new.items ≡ cells_of_globals program.now }
    ensures functions { position.new.functions ≡ position.old.functions }
{
    match step(program, model, linked, cells, position) {
        None => {
            let cells = cells.as_slice();
            answer_at(program, model, layout, interface, cells, position)
        }
        Some(event) => {
            let cells = cells.as_slice();
            answer_of_event(program, model, layout, interface, cells, position, event)
        }
    }
}

/// What a statement that calls no event has led to.
fn answer_at(
    program: &CProgram,
    model: &Model,
    layout: &Layout,
    interface: &Interface,
    cells: &[i64],
    position: &Position,
) -> Advance
    requires loads { Loads program.now model.now }
    requires layout { layout.now ≡ layout_of program.now }
    requires interface { interface.now ≡ interface_of program.now model.now }
    ensures { result ≡ answer_by (end_of model.now (global_names program.now)) [] (config_of (trees_of program.now cells.now) position.now) }
{
    match position.standing {
        Standing::Running(_) => Advance::Moved,
        Standing::Idle => answer_of_end(program, model, layout, interface, cells),
        Standing::Stuck(rule) => Advance::Stuck(rule),
    }
}

/// The event that was called, where it can be read, and else why the run is stuck.
fn answer_of_event(
    program: &CProgram,
    model: &Model,
    layout: &Layout,
    interface: &Interface,
    cells: &[i64],
    position: &mut Position,
    event: EventId,
) -> Advance
    requires loads { Loads program.now model.now }
    requires layout { layout.now ≡ layout_of program.now }
    requires interface { interface.now ≡ interface_of program.now model.now }
    ensures answers { Answers program.now model.now (trees_of program.now cells.now) event position.old position.new result }
    ensures functions { position.new.functions ≡ position.old.functions }
{
    if can_show(program, model, layout, interface, cells, event) {
        return Advance::Event(event);
    }
    position.stop(StuckRule::Value);
    Advance::Stuck(StuckRule::Value)
}
