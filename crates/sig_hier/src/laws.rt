//! Laws of hierarchies. The function of a law does nothing when it runs.

ghost use Rattle.std.specs.Prelude.{◌≡◌, ◌==◌, ◌<◌};
ghost use Rattle.sig_hier.specs.Prelude.{ℕ, List, Option, count_by, length, HasClocks, ClocksView, Node, Kernel};
ghost use Rattle.sig_hier.specs.Texts.{IsTreeText, preorder};
ghost use Rattle.sig_hier.specs.Trees.{IsTree};

/// A law: the text of a hierarchy has one line for each class.
pub fn each_class_has_one_line()
    ensures { (nodes : List Node) (clocks : ClocksView) (tree : List (Option ℕ)) → IsTree nodes clocks tree
        → (class : ℕ) → class < length tree → count_by (λ line. class == line.class) (preorder tree) ≡ 1 }
{}

/// A law: a kernel that has clocks has one text of their hierarchy, whichever store holds the guards.
pub fn a_kernel_has_one_tree_text()
    ensures { (kernel : Kernel) (a b : List ℕ) → HasClocks kernel → IsTreeText kernel a → IsTreeText kernel b → a ≡ b }
{}
