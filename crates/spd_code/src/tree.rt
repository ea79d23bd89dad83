// The code of a whole program.

use crate::stmt::CodeBlock;
use spd_list::Seq;

/// A function or a task: how many parameters it has, and its block, over their values.
#[derive(Drop)]
pub struct CodeItem {
    pub params: u32,
    pub body: CodeBlock,
}

/// Functions or tasks, by their numbers.
pub type CodeItems = Seq<CodeItem>;

/// All that runs of a program: its functions and its tasks, each in the order of its text, and main.
#[derive(Drop)]
pub struct CodeTree {
    pub functions: CodeItems,
    pub tasks: CodeItems,
    pub main: CodeBlock,
}
