//! What mapping directives are judged by.

ghost use Rattle.std.specs.Prelude.{◌≡◌, option_copied, IfOk};
ghost use Rattle.syntax_tree.specs.Expression.{expression};
ghost use Rattle.syntax_tree.specs.MainProgram.{main_program};
ghost use Rattle.declarations.specs.Declarations.{symbol_table};
ghost use Rattle.name_table.specs.Entries.{entries};
ghost use Rattle.distribution_rules.specs.Setting.{dims_of, object, setting, value_in};

use crate::dimensions::directive_value;
use crate::objects::Object;
use crate::program_objects::objects_of;
use expression_rules::{Dim, Evaluated, SymbolTable};
use hpf_base::{Grid, Name};
use name_table::Program;
use std::alloc::{AllocError, Global};
use std::marker::Model;
use syntax_tree::Expr;

/// The processor grid, the declared names, and the arrays, templates and processor arrangements with their dimensions: the arrays first, in
/// the order of their declarations. Contracts see these three.
#[derive(Drop)]
pub struct Setting<'a> {
    grid: Grid,
    table: &'a SymbolTable,
    objects: Vec<Object>,
}

impl<'a> Model for Setting<'a> {
    ghost use Rattle.distribution_rules.specs.Setting.{Setting as DirectiveSetting};

    ghost Value = { DirectiveSetting };

    ghost view = { λ s. record { grid = s.grid; names = s.table.now; objects = s.objects.items } };
}

impl<'a> Setting<'a> {
    /// The setting of a program whose names are resolved, on a grid. An `Err` is want of memory.
    pub fn new(alloc: Global, grid: &Grid, program: &'a Program) -> Result<Setting<'a>, AllocError>
        requires table { program.now.table ≡ symbol_table (main_program program.now.tree).declarations }
        requires names { program.now.names ≡ entries (main_program program.now.tree) }
        ensures { IfOk result (λ s. s ≡ setting grid.now (main_program program.now.tree)) }
    {
        let objects = objects_of(alloc, grid, program)?;
        Ok(Setting {
            grid: grid.copy(alloc),
            table: &program.table,
            objects,
        })
    }

    /// The processor grid. It takes no memory.
    pub fn grid(&self) -> &Grid
        ensures { result.now ≡ self.now.grid }
    {
        &self.grid
    }

    /// The declared names. It takes no memory.
    pub fn table(&self) -> &SymbolTable
        ensures { result.now ≡ self.now.names }
    {
        self.table
    }

    /// The arrays, templates and arrangements. It takes no memory.
    pub fn objects(&self) -> &[Object]
        ensures { result.now ≡ self.now.objects }
    {
        &self.objects
    }

    /// What a name stands for; None exactly where it is no array, template or arrangement. It takes no memory.
    pub fn object(&self, name: &Name) -> Option<&Object>
        ensures { option_copied result ≡ object self.now name.now }
    {
        self.objects.iter().find(|o| *name == o.name)
    }
}

/// The dimensions of an array, a template or an arrangement; none of anything else. It takes no memory.
pub fn dims_of<'a>(setting: &'a Setting<'a>, name: &Name) -> &'a [Option<Dim>]
    ensures { result.now ≡ dims_of setting.now name.now }
{
    match setting.object(name) {
        None => &[],
        Some(object) => object.dims.as_slice(),
    }
}

/// The value of an expression of a directive, which must be constant. An `Err` is want of memory.
pub fn value_in(
    alloc: Global,
    setting: &Setting<'_>,
    e: &Expr,
) -> Result<Evaluated<i64>, AllocError>
    ensures { IfOk result (λ v. v ≡ value_in setting.now (expression e.now)) }
{
    directive_value(alloc, setting.grid(), setting.table(), e)
}
