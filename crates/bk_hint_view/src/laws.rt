//! Theorems about the definitions, each as a function that does nothing.

ghost use Rattle.std.specs.Prelude.{◌↔◌, ℕ, IsTrue, List};
ghost use Rattle.bk_hint.specs.declared.runs.ListedRun.{ListedRun};
ghost use Rattle.bk_hint_view.specs.Rows.{is_true_table, IsTrueTable};

/// The test that tells whether a view is honest is whether its table is true.
pub fn a_table_is_tested()
    ensures { (file : List ℕ) (rows : List ListedRun) → IsTrue (is_true_table rows file) ↔ IsTrueTable rows file }
{}
