//! What the names in a nest of INDEPENDENT loops stand for.

ghost use Rattle.std.specs.Prelude.{◌≡◌, ◌∷◌, [], bytes_eq, IfOk, OnOk};
ghost use Rattle.nest_check.specs.NestRules.{is_own};
ghost use Rattle.std.specs.Prelude.{◌||◌, not};
ghost use Rattle.std.specs.List.{list_all};
ghost use Rattle.op_tables.specs.contracts.join.JoinPartialEq.TheImpl.{eq-value};
ghost use Rattle.syntax_tree.specs.Expression.{expression};
ghost use Rattle.syntax_tree.specs.Statement.{independent, variable};
ghost use Rattle.statement_walk.specs.Head.{Assignment};

use crate::distinct_names::{add, add_all, add_scalar, both_lists};
use crate::reduction_statements::reduction_operator;
use body_forms::BodyNames;
use expression_rules::{SymbolTable, is_among};
use hpf_base::Name;
use name_table::{Names, What};
use op_tables::Join;
use std::alloc::{AllocError, Global};
use std::marker::Model;
use syntax_tree::{Expr, Mark, Ref};

/// The operator of a reduction statement, and its variable.
#[derive(Drop)]
pub(crate) struct Operator {
    variable: Name,
    operator: Join,
}

/// The names of a nest: those of its loops and lists, each once, and those that its body assigns.
#[derive(Drop)]
pub(crate) struct NestNames<'a> {
    declared: &'a Names,
    constants: &'a SymbolTable,
    loops: Vec<Name>,
    indices: Vec<Name>,
    assigned: Vec<Name>,
    new_names: Vec<Name>,
    reduction_names: Vec<Name>,
    operators: Vec<Operator>,
}

impl<'a> Model for NestNames<'a> {
    ghost use Rattle.nest_check.specs.NestNames.{NestNames as NamesOfNest};

    ghost Value = { NamesOfNest };

    ghost view = { λ n. record {
      declared = n.declared.now;
      constants = n.constants.now;
      loops = n.loops.items;
      indices = n.indices.items;
      assigned = n.assigned.items;
      new_names = n.new_names.items;
      reduction_names = n.reduction_names.items;
      operators = n.operators.items;
    } };
}

impl<'a> NestNames<'a> {
    ghost use Rattle.std.specs.List.{list_any};
    ghost use Rattle.expression_rules.specs.Symbols.{is_among};
    ghost use Rattle.name_table.specs.Entries.{declared_as};
    ghost use Rattle.body_forms.specs.Names.{is_scalar};
    ghost use Rattle.nest_check.specs.NestNames.{added, all_added, constant_symbols, operator_added, reduction_operator};
    ghost use Rattle.nest_check.specs.NestRules.{body_names, has_one_operator, is_unassigned, may_be_named};
    ghost use Rattle.nest_check.specs.Gathering.{no_names, with_heads, with_mark};

    /// Those of a nest before its first loop. It takes no memory.
    pub(crate) fn new(
        alloc: Global,
        declared: &'a Names,
        constants: &'a SymbolTable,
    ) -> NestNames<'a>
        requires { constants.now ≡ constant_symbols declared.now }
        ensures { result ≡ no_names declared.now }
    {
        NestNames {
            declared,
            constants,
            loops: Vec::new(alloc),
            indices: Vec::new(alloc),
            assigned: Vec::new(alloc),
            new_names: Vec::new(alloc),
            reduction_names: Vec::new(alloc),
            operators: Vec::new(alloc),
        }
    }

    /// With one loop more. After an `Err` nothing is known, here and below; it is want of memory.
    pub(crate) fn add_loop(&mut self, index: Name, mark: &Mark) -> Result<(), AllocError>
        ensures { OnOk result (self.new ≡ with_mark self.old index (independent mark.now)) }
    {
        self.loops.push(index)?;
        add(&mut self.indices, index)?;
        add_all(&mut self.new_names, mark.new.as_slice())?;
        add_all(&mut self.reduction_names, mark.reduction.as_slice())?;
        Ok(())
    }

    /// With the index of a loop in its body.
    pub(crate) fn add_do_variable(&mut self, index: Name) -> Result<(), AllocError>
        ensures { OnOk result (self.new ≡ record self.old { indices = added self.old.indices index }) }
    {
        add(&mut self.indices, index)?;
        Ok(())
    }

    /// With an assignment of its body.
    pub(crate) fn add_assignment(&mut self, left: &Ref, right: &Expr) -> Result<(), AllocError>
        ensures { OnOk result (self.new ≡ with_heads self.old (Assignment (variable left.now) (expression right.now) ∷ [])) }
    {
        match reduction_operator(&self.reduction_names, left, right) {
            None => {}
            Some(operator) => self.add_operator(left.name, operator)?,
        }
        add_scalar(&mut self.assigned, left)?;
        Ok(())
    }

    /// With the operator of a reduction statement, unless there is one of its variable.
    fn add_operator(&mut self, variable: Name, operator: Join) -> Result<(), AllocError>
        ensures { OnOk result (self.new ≡ record self.old { operators = operator_added self.old.operators (record { variable = variable; operator = operator }) }) }
    {
        if !self.has_operator(&variable) {
            self.operators.push(Operator { variable, operator })?;
        }
        Ok(())
    }

    /// There is an operator of the variable.
    fn has_operator(&self, variable: &Name) -> bool
        ensures { result ≡ list_any (λ p. bytes_eq variable.now p.variable) self.now.operators }
    {
        self.operators.iter().any(|p| *variable == p.variable)
    }

    /// The names as those of a body.
    pub(crate) fn body_names(&self) -> BodyNames<'_>
        ensures { result ≡ body_names self.now }
    {
        BodyNames::new(self.declared, &self.indices, &self.assigned)
    }

    /// The declared constants and arrays.
    pub(crate) fn constants(&self) -> &SymbolTable
        ensures { result.now ≡ self.now.constants }
    {
        self.constants
    }

    /// The operator of an assignment that is a reduction statement.
    pub(crate) fn reduction_operator(&self, left: &Ref, right: &Expr) -> Option<Join>
        ensures { result ≡ reduction_operator self.now.reduction_names (variable left.now) (expression right.now) }
    {
        reduction_operator(&self.reduction_names, left, right)
    }

    /// The first reduction statement of the variable has this operator, if there is one.
    pub(crate) fn has_one_operator(&self, variable: &Name, operator: Option<Join>) -> bool
        ensures { result ≡ has_one_operator self.now variable.now operator }
    {
        match operator {
            None => true,
            Some(operator) => all_fit(variable, operator, &self.operators),
        }
    }

    /// It is a scalar variable.
    pub(crate) fn is_scalar(&self, name: &Name) -> bool
        ensures { result ≡ is_scalar (declared_as self.now.declared name.now) }
    {
        matches!(self.declared.declared_as(name), Some(What::Scalar(_)))
    }

    /// It is the index of a loop of the nest, or of one in its body.
    pub(crate) fn is_index(&self, name: &Name) -> bool
        ensures { result ≡ is_among name.now self.now.indices }
    {
        is_among(name, &self.indices)
    }

    /// It may stand in an expression inside loops with these indices, in a reduction statement of this variable.
    pub(crate) fn may_be_named(&self, do_variables: &[Name], own: Option<Name>, name: &Name) -> bool
        ensures { result ≡ may_be_named self.now do_variables.now own name.now }
    {
        (!is_among(name, &self.reduction_names) || is_own(name, own))
            && (!is_among(name, &self.indices)
                || is_among(name, &self.loops)
                || is_among(name, do_variables))
    }

    /// It is a NEW variable that isn't among those that every path has assigned.
    pub(crate) fn is_unassigned(&self, assigned: &[Name], name: &Name) -> bool
        ensures { result ≡ is_unassigned self.now assigned.now name.now }
    {
        is_among(name, &self.new_names)
            && !(is_among(name, &self.indices) || is_among(name, assigned))
    }

    /// The NEW variables with those of one directive more.
    pub(crate) fn new_with(&self, alloc: Global, mark: &Mark) -> Result<Vec<Name>, AllocError>
        ensures { IfOk result (λ xs. xs.items ≡ all_added self.now.new_names (independent mark.now).new) }
    {
        both_lists(alloc, &self.new_names, mark.new.as_slice())
    }

    /// The REDUCTION variables with those of one directive more.
    pub(crate) fn reduction_with(&self, alloc: Global, mark: &Mark) -> Result<Vec<Name>, AllocError>
        ensures { IfOk result (λ xs. xs.items ≡ all_added self.now.reduction_names (independent mark.now).reduction) }
    {
        both_lists(alloc, &self.reduction_names, mark.reduction.as_slice())
    }
}

/// The variable is that of the reduction statement.
fn is_own(name: &Name, own: Option<Name>) -> bool
    ensures { result ≡ is_own name.now own }
{
    match own {
        None => false,
        Some(own) => *name == own,
    }
}

/// Each operator of the variable is this one.
fn all_fit(variable: &Name, operator: Join, operators: &[Operator]) -> bool
    ensures { result ≡ list_all (λ p. not (bytes_eq variable.now p.variable) || eq-value.it operator p.operator) operators.now }
{
    let mut all = true;
    for one in operators {
        all &= *variable != one.variable || operator == one.operator;
    }
    all
}
