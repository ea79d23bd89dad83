// The code of the items of a program.

ghost use Rattle.std.specs.Prelude.{◌≡◌, ◌+◌, ◌++◌, [], ◌∷◌, length, true, None, IfOk, OnOk};
ghost use Rattle.std.specs.List.{last_or};
ghost use Rattle.spd_code.specs.Resolved as spec;
ghost use Rattle.spd_code.specs.Lined.{lined_block};
ghost use Rattle.spd_check.specs.Lines.{HaveLines, HasLines};
ghost use Rattle.spd_check.specs.Checks.{faults_of};
ghost use Rattle.spd_check.specs.Names.{name_texts};
ghost use Rattle.spd_check.specs.Coding.{block_coded, block_count, mains_code, main_code_in};

use crate::coding::{Scope, code_block};
use crate::spaces::SpaceNames;
use spd_code::{CodeBlock, CodeItem, CodeItems, CodeTree};
use spd_list::Seq;
use spd_syntax::{Block, Item, ItemKind, Names, Program};
use std::alloc::{AllocError, Global};

/// The code of the items so far.
#[derive(Drop)]
struct CodedItems {
    functions: CodeItems,
    tasks: CodeItems,
    main: Option<CodeBlock>,
    /// The number of the next block.
    next_block: u32,
}

/// The scope of an item's block, where its parameters are visible.
fn scope_of(alloc: Global, params: &Names, next_block: u32) -> Result<Scope<'_>, AllocError>
    ensures names { IfOk result (λ scope. name_texts scope.names.items ≡ params.now) }
    ensures next { IfOk result (λ scope. scope.next_block ≡ next_block) }
{
    let mut names = Vec::new(alloc);
    for param in params.as_slice() {
        names.push(param.as_slice())?;
    }
    Ok(Scope { names, next_block })
}

/// The code of a function or a task.
fn code_callable(
    alloc: Global,
    spaces: &SpaceNames,
    next_block: &mut u32,
    params: &Names,
    body: &Block,
) -> Result<CodeItem, AllocError>
    ensures code { IfOk result (λ item. item ≡ record {
      params = length params.now;
      body = block_coded spaces.now body.now params.now next_block.old;
    }) }
    ensures lined { IfOk result (λ item. lined_block item.body ≡ true) }
    ensures blocks { OnOk result (next_block.new ≡ next_block.old + block_count spaces.now body.now) }
{
    let mut scope = scope_of(alloc, params, *next_block)?;
    let coded = code_block(alloc, spaces, &mut scope, body)?;
    *next_block = scope.next_block;
    Ok(CodeItem {
        params: params.len(),
        body: coded,
    })
}

/// The code of the block of main.
fn code_main(
    alloc: Global,
    spaces: &SpaceNames,
    next_block: &mut u32,
    body: &Block,
) -> Result<CodeBlock, AllocError>
    ensures code { IfOk result (λ code. code ≡ block_coded spaces.now body.now [] next_block.old) }
    ensures blocks { OnOk result (next_block.new ≡ next_block.old + block_count spaces.now body.now) }
{
    let mut scope = Scope {
        names: Vec::new(alloc),
        next_block: *next_block,
    };
    let coded = code_block(alloc, spaces, &mut scope, body)?;
    *next_block = scope.next_block;
    Ok(coded)
}

/// Adds the code of an item.
#[tactic(auto, unfolding(crate::specs::Coding::block_coded, crate::specs::Coding::block_count), using(crate::proofs::Lined::more_have_lines))]
fn code_item(
    alloc: Global,
    spaces: &SpaceNames,
    coded: &mut CodedItems,
    item: &Item,
) -> Result<(), AllocError>
    ensures functions { OnOk result (coded.new.functions ≡
        coded.old.functions ++ spec.function_code spaces.now coded.old.next_block item.now.what) }
    ensures tasks { OnOk result (coded.new.tasks ≡
        coded.old.tasks ++ spec.task_code spaces.now coded.old.next_block item.now.what) }
    ensures main { OnOk result (coded.new.main ≡
        last_or coded.old.main (main_code_in spaces.now coded.old.next_block item.now.what)) }
    ensures lined_functions { OnOk result (HaveLines coded.old.functions → HaveLines coded.new.functions) }
    ensures lined_tasks { OnOk result (HaveLines coded.old.tasks → HaveLines coded.new.tasks) }
    ensures blocks { OnOk result (coded.new.next_block ≡
        coded.old.next_block + spec.item_blocks spaces.now item.now.what) }
{
    match &item.what {
        ItemKind::Function { params, body, .. } => {
            let function = code_callable(alloc, spaces, &mut coded.next_block, params, body)?;
            coded.functions.push(function)?;
            Ok(())
        }
        ItemKind::Task { params, body, .. } => {
            let task = code_callable(alloc, spaces, &mut coded.next_block, params, body)?;
            coded.tasks.push(task)?;
            Ok(())
        }
        ItemKind::Main { body } => {
            let main = code_main(alloc, spaces, &mut coded.next_block, body)?;
            coded.main = Some(main);
            Ok(())
        }
        ItemKind::IntColumn { .. } | ItemKind::TextColumn { .. } | ItemKind::Lines { .. } => Ok(()),
    }
}

/// The code of all items.
#[tactic(auto, using(crate::proofs::OneMain::last_append, crate::proofs::Lined::none_lined))]
fn code_items(alloc: Global, spaces: &SpaceNames, items: &[Item]) -> Result<CodedItems, AllocError>
    ensures functions { IfOk result (λ coded. coded.functions ≡ spec.functions_code spaces.now 0 items.now) }
    ensures tasks { IfOk result (λ coded. coded.tasks ≡ spec.tasks_code spaces.now 0 items.now) }
    ensures main { IfOk result (λ coded. coded.main ≡ last_or None (mains_code spaces.now 0 items.now)) }
    ensures lined_functions { IfOk result (λ coded. HaveLines coded.functions) }
    ensures lined_tasks { IfOk result (λ coded. HaveLines coded.tasks) }
{
    let mut coded = CodedItems {
        functions: Seq::new(alloc),
        tasks: Seq::new(alloc),
        main: None,
        next_block: 0,
    };
    for item in items {
        code_item(alloc, spaces, &mut coded, item)?;
    }
    Ok(coded)
}

/// The code of a program without faults.
#[tactic(auto, using(crate::proofs::OneMain::last_main))]
pub(crate) fn code_program(alloc: Global, program: &Program) -> Result<CodeTree, AllocError>
    requires { faults_of program.now ≡ [] }
    ensures code { IfOk result (λ code. code ≡ spec.program_code program.now.items) }
    ensures lined { IfOk result (λ code. HasLines code) }
{
    let items = program.items.as_slice();
    let spaces = SpaceNames::of(alloc, items)?;
    let coded = code_items(alloc, &spaces, items)?;
    let CodedItems {
        functions,
        tasks,
        main,
        next_block: _,
    } = coded;
    match main {
        Some(main) => Ok(CodeTree {
            functions,
            tasks,
            main,
        }),
        None => unreachable!(),
    }
}
