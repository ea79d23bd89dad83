// The names that the items of a program declare, whose places are numbers in its code.

ghost use Rattle.std.specs.Prelude.{◌≡◌, IfOk};
ghost use Rattle.spd_code.specs.Resolved as spec;
ghost use Rattle.spd_code.specs.Places.{place_of};

use crate::names::{place_of, to_u32};
use spd_syntax::{Item, ItemKind};
use std::alloc::{AllocError, Global};
use std::marker::Model;

/// The names of columns, functions and tasks, each in the order of the text.
#[derive(Drop)]
pub(crate) struct SpaceNames<'a> {
    column_names: Vec<&'a [u8]>,
    function_names: Vec<&'a [u8]>,
    task_names: Vec<&'a [u8]>,
}

impl<'a> Model for SpaceNames<'a> {
    ghost use Rattle.spd_code.specs.Resolved.{Spaces};
    ghost use Rattle.spd_check.specs.Names.{name_texts};

    ghost Value = { Spaces };

    ghost view = { λ spaces. record {
      columns = name_texts spaces.column_names.items;
      functions = name_texts spaces.function_names.items;
      tasks = name_texts spaces.task_names.items;
    } };
}

impl<'a> SpaceNames<'a> {
    /// The names that items declare.
    pub(crate) fn of(alloc: Global, items: &'a [Item]) -> Result<SpaceNames<'a>, AllocError>
        ensures { IfOk result (λ spaces. spaces ≡ spec.spaces_of items.now) }
    {
        let mut column_names = Vec::new(alloc);
        let mut function_names = Vec::new(alloc);
        let mut task_names = Vec::new(alloc);
        for item in items {
            match &item.what {
                ItemKind::IntColumn { name, .. } => column_names.push(name.as_slice())?,
                ItemKind::TextColumn { name, .. } => column_names.push(name.as_slice())?,
                ItemKind::Lines { name, .. } => column_names.push(name.as_slice())?,
                ItemKind::Function { name, .. } => function_names.push(name.as_slice())?,
                ItemKind::Task { name, .. } => task_names.push(name.as_slice())?,
                ItemKind::Main { .. } => {}
            }
        }
        Ok(SpaceNames {
            column_names,
            function_names,
            task_names,
        })
    }

    /// The number of a column.
    pub(crate) fn column(&self, name: &[u8]) -> Result<u32, AllocError>
        ensures { IfOk result (λ number. number ≡ place_of self.now.columns name.now) }
    {
        to_u32(place_of(&self.column_names, name))
    }

    /// The number of a function.
    pub(crate) fn function(&self, name: &[u8]) -> Result<u32, AllocError>
        ensures { IfOk result (λ number. number ≡ place_of self.now.functions name.now) }
    {
        to_u32(place_of(&self.function_names, name))
    }

    /// The number of a task.
    pub(crate) fn task(&self, name: &[u8]) -> Result<u32, AllocError>
        ensures { IfOk result (λ number. number ≡ place_of self.now.tasks name.now) }
    {
        to_u32(place_of(&self.task_names, name))
    }
}
