//! Laws of accounts. Each is the contract of a function that does nothing.
ghost use Rattle.nrm_account.specs.Laws.{AccountsAnswer, AccountsAreDetermined, AccountsAreOfTheirLines, AccountsGiveReplies};
ghost use Rattle.nrm_account.specs.Laws.{LargestPartiesAreSold, OutOfMemoryWritesNothing};
ghost use Rattle.nrm_account.specs.PlannedBy.{PlannedByThatLine};

/// The numbers of the account of a request give its reply by the rule alone.
pub fn accounts_give_replies()
    ensures { AccountsGiveReplies }
{}

/// The account of a request has the reply that the rule gives over its numbers; that of a cancellation has the reply that its party, its
/// fare and its percentage give.
pub fn accounts_answer()
    ensures { AccountsAnswer }
{}

/// The commands of a session determine the account of a line, if no line up to it runs out of memory.
pub fn accounts_are_determined()
    ensures { AccountsAreDetermined }
{}

/// A request is sold exactly if its party is no larger than the largest.
pub fn largest_parties_are_sold()
    ensures { LargestPartiesAreSold }
{}

/// What is written as a session is read is the account of the line that is asked for, in the state that a run over the lines before it comes to.
pub fn accounts_are_of_their_lines()
    ensures { AccountsAreOfTheirLines }
{}

/// The line that an account tells as the one that made its plan is the reoptimisation that left this plan; it tells 0 if the plan is the
/// opening's.
pub fn plans_are_of_their_lines()
    ensures { PlannedByThatLine }
{}

/// If memory runs out for the account, nothing is written.
pub fn out_of_memory_writes_nothing()
    ensures { OutOfMemoryWritesNothing }
{}
