//! Theorems about lists of calls and about choices, each as a function that does nothing.
ghost use Rattle.bk_accounts.specs.History.{CountsFromScratch};
ghost use Rattle.bk_accounts.specs.Choice.{HasOneChoice};

/// After every list of permitted calls on new accounts, the sums of each log are those over the
/// calls since its last `open`. Room exists exactly if a `ready` since then was not undone by a
/// `forget`. A call that fails with `Memory` changes nothing and is not in the list; one of
/// `name_many` by N is in it as N of `name`.
pub fn counts_from_scratch()
    ensures { CountsFromScratch }
{}

/// There is at most one choice, the result of `lowest_below`.
pub fn one_choice()
    ensures { HasOneChoice }
{}
