//! Instructions that give arrays new mappings.

ghost use Rattle.std.specs.Prelude.{◌≡◌, ◌<◌, ◌^◌, OnOk, OnErr, map, true};
ghost use Rattle.std.specs.List.{list_all};
ghost use Rattle.machine_steps.specs.Machine.{on, remapped};
ghost use Rattle.code_meaning.specs.Instructions.{remappings};
ghost use Rattle.node_code.specs.Texts.{new_mapping};
ghost use Rattle.node_program.specs.Fits.{fits_row, shapes_of};
ghost use Rattle.node_program.specs.Programs.{mappings_of};
ghost use Rattle.whole_machine.specs.Places.{AreFor};

use crate::machine::WholeMachine;
use hpf_base::OutOfMemory;
use node_code::NewMapping;
use node_program::owners_after;
use owner_tables::OwnerTable;

impl WholeMachine {
    /// Gives arrays new mappings, whose tables fit the rows. For want of memory nothing changes.
    pub(crate) fn remap(
        &mut self,
        tables: &[OwnerTable],
        new: &[NewMapping],
    ) -> Result<(), OutOfMemory>
        requires tables { AreFor self.old.code self.old.control.at tables.now }
        requires shapes { list_all (fits_row tables.now (shapes_of self.old.layouts)) (map new_mapping new.now) ≡ true }
        requires in_code { self.old.control.at < 2 ^ 63 }
        ensures ok { OnOk result (self.new ≡ record self.old {
          control = on self.old.control;
          substep = 0;
          layouts = remapped (remappings (mappings_of tables.now) (map new_mapping new.now)) self.old.layouts;
        }) }
        ensures err { OnErr result (self.new ≡ self.old) }
    {
        let after = owners_after(&self.owners, tables, new)?;
        self.owners = after;
        self.go_on();
        Ok(())
    }
}
