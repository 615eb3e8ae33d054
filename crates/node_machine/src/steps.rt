//! The local steps of a node.

ghost use Rattle.std.specs.Prelude.{◌≡◌, OnOk, OnErr};
ghost use Rattle.node_program.specs.Fits.{shapes_of};
ghost use Rattle.node_machine.specs.Steps.{IsInCode, IsStepAt, StepFits, begun, done};

use crate::node::Node;
use crate::step::{Step, step_at};
use hpf_base::OutOfMemory;

impl Node {
    /// What is to be done next, by the instruction at the node's place.
    fn step(&self) -> Step<'_>
        ensures is { IsStepAt self.now.code self.now.control.at self.now.nodes self.now.substep result }
        ensures few { IsInCode self.now.control.at result }
        ensures fits { StepFits self.now.nodes (shapes_of self.now.layouts) result }
    {
        step_at(&self.program, self.control.at, self.substep)
    }

    /// The local step before an instruction or a step of it. For want of memory nothing changes.
    pub(crate) fn begin(&mut self) -> Result<(), OutOfMemory>
        ensures ok { OnOk result (self.new ≡ begun self.old) }
        ensures err { OnErr result (self.new ≡ self.old) }
    {
        match self.step() {
            Step::End => {
                self.finish_run();
                Ok(())
            }
            Step::Local => self.run_local(),
            Step::Fetch(f) => {
                let fetched = self.fetched(f)?;
                self.begin_fetch(fetched.element)
            }
            Step::Store(s) => {
                let stored = self.stored(s)?;
                self.store(stored.element, stored.value);
                Ok(())
            }
            Step::Par(p) => {
                let phase = self.par_phase(p)?;
                self.open_part(phase);
                Ok(())
            }
            Step::Verdict => self.begin_verdict(),
            Step::ReduceValues(r) => {
                let phase = self.reduce_phase(r)?;
                self.open_part(phase);
                Ok(())
            }
            Step::ReduceVerdict => self.begin_reduce_verdict(),
            Step::ReduceTree(r) => self.begin_reduce_tree(r),
            Step::MakeCopy(p) => {
                let made = self.made(p)?;
                self.put_copy(made)
            }
            Step::MakeCopies(p) => {
                let made = self.made_for_nest(p)?;
                self.put_copy(made)
            }
            Step::PrintText(t) => {
                let bytes = self.text(t)?;
                self.print_bytes(&bytes)
            }
            Step::PrintSection(s) => {
                let opening = self.section_opening(s)?;
                self.begin_section(opening)
            }
            Step::PrintLine => self.print_line(),
            Step::FoldCopy(f) => self.begin_fold(f),
            Step::LastCopy(l) => self.begin_last(l),
            Step::ScanCopy(s) => self.begin_scan(s),
            Step::Remap(new) => {
                let after = self.owners_after(new)?;
                self.begin_remap(after)
            }
        }
    }

    /// The local step after a phase. For want of memory nothing changes. A step without phases is never there, and changes nothing.
    pub(crate) fn finish_phase(&mut self) -> Result<(), OutOfMemory>
        ensures ok { OnOk result (self.new ≡ done self.old) }
        ensures err { OnErr result (self.new ≡ self.old) }
    {
        match self.step() {
            Step::End => Ok(()),
            Step::Local => Ok(()),
            Step::Fetch(f) => {
                let fetched = self.fetched(f)?;
                self.end_fetch(fetched.element, fetched.slot);
                Ok(())
            }
            Step::Store(_) => Ok(()),
            Step::Par(p) => {
                let values = self.par_result(p)?;
                self.finish_par(values)
            }
            Step::Verdict => self.finish_verdict(),
            Step::ReduceValues(r) => {
                let values = self.reduce_result(r)?;
                self.finish_reduce_values(values)
            }
            Step::ReduceVerdict => self.finish_reduce_verdict(),
            Step::ReduceTree(r) => self.finish_reduce_tree(r),
            Step::MakeCopy(_) => Ok(()),
            Step::MakeCopies(_) => Ok(()),
            Step::PrintText(_) => Ok(()),
            Step::PrintSection(s) => {
                let bytes = self.section_bytes(s)?;
                self.finish_section(&bytes)
            }
            Step::PrintLine => Ok(()),
            Step::FoldCopy(f) => self.finish_fold(f),
            Step::LastCopy(l) => self.finish_last(l),
            Step::ScanCopy(s) => self.finish_scan(s),
            Step::Remap(new) => {
                let after = self.owners_after(new)?;
                self.finish_remap(after)
            }
        }
    }
}
