// What the items of a program declare.

ghost use Rattle.std.specs.Prelude.{◌≡◌};
ghost use Rattle.std.specs.Option.{option_copied};
ghost use Rattle.spd_meaning.specs.Programs as programs;
ghost use Rattle.spd_check.specs.Items as spec;

use spd_syntax::{Item, ItemKind};

/// What the entries of a column are.
#[derive(Clone, Copy)]
pub(crate) enum Entries {
    Ints,
    Texts,
}

/// The entries of a column or lines item, where it has this name. Those of a lines item are texts.
fn entries_in(item: &Item, name: &[u8]) -> Option<Entries>
    ensures { result ≡ spec.entries_in name.now item.now.what }
{
    let (other, entries) = match &item.what {
        ItemKind::IntColumn { name, .. } => (name, Entries::Ints),
        ItemKind::TextColumn { name, .. } => (name, Entries::Texts),
        ItemKind::Lines { name, .. } => (name, Entries::Texts),
        _ => return None,
    };
    if other.as_slice() == name {
        Some(entries)
    } else {
        None
    }
}

/// How many parameters a function has, where it has this name.
fn function_arity_in(item: &Item, name: &[u8]) -> Option<u32>
    ensures { result ≡ spec.function_arity_in name.now item.now.what }
{
    match &item.what {
        ItemKind::Function {
            name: other,
            params,
            ..
        } if other.as_slice() == name => Some(params.len()),
        _ => None,
    }
}

/// How many parameters a task has, where it has this name.
fn task_arity_in(item: &Item, name: &[u8]) -> Option<u32>
    ensures { result ≡ spec.task_arity_in name.now item.now.what }
{
    match &item.what {
        ItemKind::Task {
            name: other,
            params,
            ..
        } if other.as_slice() == name => Some(params.len()),
        _ => None,
    }
}

/// The entries of the column of a name.
pub(crate) fn entries_of(items: &[Item], name: &[u8]) -> Option<Entries>
    ensures { result ≡ spec.entries_of items.now name.now }
{
    for item in items {
        if let Some(entries) = entries_in(item, name) {
            return Some(entries);
        }
    }
    None
}

/// How many parameters the function of a name has.
pub(crate) fn function_arity(items: &[Item], name: &[u8]) -> Option<u32>
    ensures { result ≡ spec.function_arity items.now name.now }
{
    for item in items {
        if let Some(arity) = function_arity_in(item, name) {
            return Some(arity);
        }
    }
    None
}

/// How many parameters the task of a name has.
pub(crate) fn task_arity(items: &[Item], name: &[u8]) -> Option<u32>
    ensures { result ≡ spec.task_arity items.now name.now }
{
    for item in items {
        if let Some(arity) = task_arity_in(item, name) {
            return Some(arity);
        }
    }
    None
}

pub(crate) fn is_main(item: &Item) -> bool
    ensures { result ≡ programs.is_main item.now.what }
{
    matches!(item.what, ItemKind::Main { .. })
}

/// The name of a column or lines item.
fn column_name(item: &Item) -> Option<&[u8]>
    ensures { option_copied result ≡ spec.column_name item.now.what }
{
    match &item.what {
        ItemKind::IntColumn { name, .. } => Some(name.as_slice()),
        ItemKind::TextColumn { name, .. } => Some(name.as_slice()),
        ItemKind::Lines { name, .. } => Some(name.as_slice()),
        _ => None,
    }
}

/// The name of a function or a task.
fn callable_name(item: &Item) -> Option<&[u8]>
    ensures { option_copied result ≡ spec.callable_name item.now.what }
{
    match &item.what {
        ItemKind::Function { name, .. } => Some(name.as_slice()),
        ItemKind::Task { name, .. } => Some(name.as_slice()),
        _ => None,
    }
}

fn same_named(other: Option<&[u8]>, name: Option<&[u8]>) -> bool
    ensures { result ≡ spec.same_named (option_copied other.entry) (option_copied name.entry) }
{
    match (other, name) {
        (Some(other), Some(name)) => other == name,
        _ => false,
    }
}

/// Two items are columns of one name, functions or tasks of one name, or mains.
fn declares_again(other: &Item, item: &Item) -> bool
    ensures { result ≡ spec.declares_again other.now.what item.now.what }
{
    same_named(column_name(other), column_name(item))
        || same_named(callable_name(other), callable_name(item))
        || (is_main(other) && is_main(item))
}

/// An item declares again what one of others does.
pub(crate) fn is_declared(others: &[Item], item: &Item) -> bool
    ensures { result ≡ spec.is_declared others.now item.now }
{
    others.iter().any(|other| declares_again(other, item))
}

/// One of the items is main.
pub(crate) fn has_main(items: &[Item]) -> bool
    ensures { result ≡ spec.has_main items.now }
{
    items.iter().any(|item| is_main(item))
}
