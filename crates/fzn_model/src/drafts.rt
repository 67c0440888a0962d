//! The problem so far.

ghost use Rattle.std.specs.Prelude.{◌≡◌, ◌++◌, OnOk, IfSome, None, option_to_list};
ghost use Rattle.std.specs.Option.{option_copied, option_map};
ghost use Rattle.fzn_model.specs.Items.{ident_in};
ghost use Rattle.fzn_model.specs.Shared.{entity_in};
ghost use Rattle.fzn_model.specs.Drafts.{AreCounted, AreDeclared, CanBeCounted, CanBePut, IsCountable, IsPut};

use crate::declared::Declared;
use crate::entities::SharedEntity;
use crate::known::Known;
use crate::pieces::Pieces;
use crate::so_far::{Counts, SoFar};
use fzn_parser::{Form, Ident};
use listed::Listed;
use set_meaning::{Constraint, Goal, Kind, Shown, Text};
use std::alloc::{AllocError, Global};

/// The problem of the items so far, none of which has a fault.
#[derive(Drop)]
pub(crate) struct Draft {
    pub so_far: SoFar,
    /// The names of the variables, in file order.
    pub names: Vec<Text>,
    pub constraints: Vec<Constraint>,
    pub shown: Vec<Shown>,
    /// The goals, each with the kind of one more variable where its objective is a constant.
    pub goals: Vec<(Goal, Listed<Kind>)>,
}

impl Draft {
    ghost use Rattle.std.specs.Prelude.{[]};
    ghost use Rattle.fzn_model.specs.Builds.{IsBuilt};

    /// The draft of no items.
    pub(crate) fn new(alloc: Global) -> Draft
        ensures { IsBuilt [] result }
    {
        Draft {
            so_far: SoFar {
                declared: Declared::new(alloc),
                kinds: Vec::new(alloc),
                counts: Counts {
                    bits: 0,
                    integer_values: 0,
                    elements: 0,
                    constraints: 0,
                    terms: 0,
                },
            },
            names: Vec::new(alloc),
            constraints: Vec::new(alloc),
            shown: Vec::new(alloc),
            goals: Vec::new(alloc),
        }
    }

    /// Puts what an item adds behind what stands. An `Err` is want of memory.
    pub(crate) fn put(
        &mut self,
        alloc: Global,
        form: &Form,
        pieces: Pieces,
    ) -> Result<(), AllocError>
        requires { CanBePut self.old.so_far.counts pieces }
        ensures { OnOk result (IsPut self.old form.now pieces self.new) }
    {
        declare(alloc, &mut self.so_far.declared, form, pieces.entity)?;
        count_kind(&mut self.so_far.counts, &pieces.kind);
        count_constraint(&mut self.so_far.counts, &pieces.constraint);
        push_if_any(&mut self.so_far.kinds, pieces.kind)?;
        push_if_any(&mut self.names, pieces.name)?;
        push_if_any(&mut self.constraints, pieces.constraint)?;
        push_if_any(&mut self.shown, pieces.shown)?;
        push_if_any(&mut self.goals, pieces.goal)?;
        Ok(())
    }
}

fn push_if_any<T: Drop>(items: &mut Vec<T>, item: Option<T>) -> Result<(), AllocError>
    ensures { OnOk result (items.new.items ≡ items.old.items ++ option_to_list item) }
{
    match item {
        Some(item) => {
            items.push(item)?;
            Ok(())
        }
        None => Ok(()),
    }
}

fn declare(
    alloc: Global,
    declared: &mut Declared,
    form: &Form,
    entity: Option<SharedEntity>,
) -> Result<(), AllocError>
    ensures { OnOk result (AreDeclared declared.old form.now (option_map entity_in entity) declared.new) }
{
    match ident_in(form) {
        Some(ident) => match entity {
            Some(entity) => declared.declare(alloc, ident.name.items(), Known::new(entity)),
            None => Ok(()),
        },
        None => Ok(()),
    }
}

/// The name that an item declares, if any.
fn ident_in(form: &Form) -> Option<&Ident>
    ensures { option_copied result ≡ ident_in form.now }
{
    match form {
        Form::Param { name, .. } => Some(name),
        Form::Variable { name, .. } => Some(name),
        Form::Array { name, .. } => Some(name),
        _ => None,
    }
}

fn count_kind(counts: &mut Counts, kind: &Option<Kind>)
    requires { IfSome kind.now (IsCountable counts.old) }
    ensures { AreCounted counts.old kind.now None counts.new }
{
    match kind {
        Some(kind) => counts.add_kind(kind),
        None => {}
    }
}

fn count_constraint(counts: &mut Counts, constraint: &Option<Constraint>)
    requires { IfSome constraint.now (CanBeCounted counts.old) }
    ensures { AreCounted counts.old None constraint.now counts.new }
{
    match constraint {
        Some(constraint) => counts.add_constraint(constraint),
        None => {}
    }
}
