//! The classes of a hierarchy in preorder.

ghost use Rattle.std.specs.Prelude.{◌≡◌, ◌+◌, ◌≤◌, ◌++◌, length, IfOk, OnOk};
ghost use Rattle.sig_hier.specs.Texts.{is_parent, preorder, preorder_from};

use std::alloc::{AllocError, Global};

/// A line of a hierarchy's text: a class at its level.
#[derive(Clone, Copy, Debug, Drop)]
pub(crate) struct Line {
    pub(crate) level: usize,
    pub(crate) class: usize,
}

/// The classes in preorder, of which the parents are given, from class 0 on.
pub(crate) fn preorder(alloc: Global, tree: &[Option<u32>]) -> Result<Vec<Line>, AllocError>
    ensures { IfOk result (λ lines. lines.items ≡ preorder tree.now) }
{
    let mut lines = Vec::new(alloc);
    let root = Line { level: 0, class: 0 };
    list_from(&mut lines, tree, tree.len(), root)?;
    Ok(lines)
}

/// Lists a class, and then its children, each with what is below it; at most so many levels.
fn list_from(
    lines: &mut Vec<Line>,
    tree: &[Option<u32>],
    levels: usize,
    line: Line,
) -> Result<(), AllocError>
    requires { line.level + levels ≤ length tree.now }
    ensures { OnOk result (lines.new.items
        ≡ lines.old.items ++ preorder_from levels tree.now line.level line.class) }
{
    if levels == 0 {
        return Ok(());
    }
    lines.push(line)?;
    for class in 0..tree.len() {
        if is_parent(tree[class], line.class) {
            let child = Line {
                level: line.level + 1,
                class,
            };
            list_from(lines, tree, levels - 1, child)?;
        }
    }
    Ok(())
}

/// Whether a parent is this class.
fn is_parent(parent: Option<u32>, class: usize) -> bool
    ensures { result ≡ is_parent parent class }
{
    match parent {
        Some(parent) => parent as usize == class,
        None => false,
    }
}
