//! What the groups of a process declare.

ghost use Rattle.std.specs.Prelude.{◌≡◌, ◌++◌};
ghost use Rattle.sig_scope.specs.Prelude.{map, IfOk, OnOk, declared_of, declared_as};
ghost use Rattle.sig_scope.specs.Declarations.{declaration_in, declarations_in, role_in, item_in};

use sig_base::Kind;
use sig_tree::{Constant, Group, Item, Name};
use std::alloc::{AllocError, Global};

/// What a name is declared as.
#[derive(Clone, Copy)]
pub enum Role {
    Parameter,
    Input,
    Output,
    Local,
}

/// A declared name.
#[derive(Clone, Copy)]
pub struct Declared<'a> {
    pub name: &'a Name,
    pub kind: Kind,
    pub role: Role,
    pub init: &'a Option<Constant>,
}

/// The declarations of groups, in their order.
pub fn declared_by<'a>(
    alloc: Global,
    role: Role,
    groups: &'a [Group],
) -> Result<Vec<Declared<'a>>, AllocError>
    ensures { IfOk result (λ all. declarations_in all.items ≡ declared_as (role_in role) (map declared_of groups.now)) }
{
    let mut all = Vec::new(alloc);
    for group in groups {
        add_items(&mut all, role, group.kind, &group.items)?;
    }
    Ok(all)
}

/// Adds the items of a group.
fn add_items<'a>(
    all: &mut Vec<Declared<'a>>,
    role: Role,
    kind: Kind,
    items: &'a [Item],
) -> Result<(), AllocError>
    ensures { OnOk result (declarations_in all.new.items ≡ declarations_in all.old.items ++ map (item_in kind (role_in role)) items.now) }
{
    for item in items {
        all.push(Declared {
            name: &item.name,
            kind,
            role,
            init: &item.init,
        })?;
    }
    Ok(())
}
