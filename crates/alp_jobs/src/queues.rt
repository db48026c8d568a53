//! What is left of a job, in order.
ghost use Rattle.std.specs.Prelude.{◌≡◌, ◌∷◌, [], IfSome, IfNone, map};
ghost use Rattle.alp_jobs.specs.Jobs.{is_nil};

use alp_lines::Line;
use std::collections::VecDeque;

/// Whether no line is left.
pub(crate) fn has_no_line(lines: &VecDeque<Line>) -> bool
    ensures { result ≡ is_nil lines.now.items }
{
    lines.is_empty()
}

/// Whether no transaction is left.
pub(crate) fn has_no_transaction(transactions: &VecDeque<Vec<Line>>) -> bool
    ensures { result ≡ is_nil (map (λ ls. ls.items) transactions.now.items) }
{
    transactions.is_empty()
}

/// Takes the first line.
pub(crate) fn take_line(lines: &mut VecDeque<Line>) -> Option<Line>
    ensures some { IfSome result (λ l. lines.old.items ≡ l ∷ lines.new.items) }
    ensures none { IfNone result ((lines.old.items ≡ []) × (lines.new.items ≡ [])) }
{
    lines.pop_front()
}

/// Takes the first transaction.
pub(crate) fn take_transaction(transactions: &mut VecDeque<Vec<Line>>) -> Option<Vec<Line>>
    ensures some { IfSome result (λ ls. transactions.old.items ≡ ls ∷ transactions.new.items) }
    ensures none { IfNone result ((transactions.old.items ≡ []) × (transactions.new.items ≡ [])) }
{
    transactions.pop_front()
}
