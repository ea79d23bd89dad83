// Checking the items of a program.

ghost use Rattle.std.specs.Prelude.{◌≡◌, [], flat_map, OnOk};
ghost use Rattle.spd_check.specs.Faults.{Passes};
ghost use Rattle.spd_check.specs.Names.{name_texts};
ghost use Rattle.spd_check.specs.Checks as spec;

use crate::declared::{has_main, is_declared};
use crate::faults::{CheckFault, CheckKind, unless};
use crate::names::bind;
use crate::place::{Home, Place};
use crate::returning::block_returns;
use crate::statements::check_block;
use spd_syntax::{Block, Item, ItemKind, Names, Program};
use std::alloc::Global;

/// Checks that no item declares again what one before it does.
#[tactic(auto, using(crate::proofs::Passing::first_more, crate::proofs::Passing::none_more))]
fn check_again(items: &[Item]) -> Result<(), CheckFault>
    ensures { Passes result (spec.again_faults [] items.now) }
{
    for (place, item) in items.iter().enumerate() {
        unless(
            !is_declared(&items[..place], item),
            item.line,
            CheckKind::Twice,
        )?;
    }
    Ok(())
}

/// Makes parameters of an item at a line visible.
#[tactic(auto, using(crate::proofs::Passing::first_more, crate::proofs::Passing::none_more))]
fn check_params<'a>(
    names: &mut Vec<&'a [u8]>,
    line: u32,
    params: &'a Names,
) -> Result<(), CheckFault>
    requires { names.old.items ≡ [] }
    ensures answer { Passes result (spec.params_faults [] params.now line) }
    ensures names { OnOk result (name_texts names.new.items ≡ params.now) }
{
    for param in params.as_slice() {
        bind(names, param.as_slice(), line)?;
    }
    Ok(())
}

/// Checks the parameters and the block of an item at a line.
#[tactic(auto, using(crate::proofs::Passing::first_more, crate::proofs::Passing::none_more))]
fn check_callable(
    alloc: Global,
    items: &[Item],
    home: Home,
    line: u32,
    params: &Names,
    body: &Block,
) -> Result<(), CheckFault>
    ensures { Passes result (spec.callable_faults items.now home line params.now body.now) }
{
    let mut names = Vec::new(alloc);
    check_params(&mut names, line, params)?;
    check_block(items, &mut names, Place::of(home), body)
}

/// Checks what an item holds.
#[tactic(auto, using(crate::proofs::Passing::first_more, crate::proofs::Passing::none_more))]
fn check_item(alloc: Global, items: &[Item], item: &Item) -> Result<(), CheckFault>
    ensures { Passes result (spec.item_faults items.now item.now) }
{
    let line = item.line;
    match &item.what {
        ItemKind::Function { params, body, .. } => {
            check_callable(alloc, items, Home::Function, line, params, body)?;
            unless(block_returns(body), line, CheckKind::NoReturn)
        }
        ItemKind::Task { params, body, .. } => {
            check_callable(alloc, items, Home::Task, line, params, body)
        }
        ItemKind::Main { body } => {
            let mut names = Vec::new(alloc);
            check_block(items, &mut names, Place::of(Home::Main), body)
        }
        ItemKind::IntColumn { .. } | ItemKind::TextColumn { .. } | ItemKind::Lines { .. } => Ok(()),
    }
}

/// Checks what each of the items holds, in the order of the text.
#[tactic(auto, using(crate::proofs::Passing::first_more, crate::proofs::Passing::none_more))]
fn check_items(alloc: Global, items: &[Item]) -> Result<(), CheckFault>
    ensures { Passes result (flat_map (spec.item_faults items.now) items.now) }
{
    for item in items {
        check_item(alloc, items, item)?;
    }
    Ok(())
}

/// Checks a program: what is declared twice, or isn't, and then what stands in its items.
#[tactic(auto, using(crate::proofs::Passing::first_more, crate::proofs::Passing::none_more))]
pub(crate) fn check_program(alloc: Global, program: &Program) -> Result<(), CheckFault>
    ensures { Passes result (spec.faults_of program.now) }
{
    let items = program.items.as_slice();
    check_again(items)?;
    unless(has_main(items), program.last_line, CheckKind::NoMain)?;
    check_items(alloc, items)
}
