//! What is asked of tables and ranks, and the way to them from the bytes of an input.
ghost use Rattle.std.specs.Prelude.{◌≡◌, ◌⊎◌, IfOk, map};
ghost use Rattle.bundle_text.specs.Answers.{NamesMemory};
ghost use Rattle.answer_input.specs.OfTables.{IsOfParts, TablesAnswers};

use bundle_text::{
    Answer, TablesQuestion, parts, parts_fault, ranked_answer, without_carriage_returns,
};
use std::alloc::{AllocError, Global};

#[tactic(auto, using(crate::proofs::Pairs::not_two, bundle_text::proofs::Pairs::two))]
fn of_parts<Q: TablesQuestion>(
    alloc: Global,
    question: &Q,
    parts: &[&[u8]],
) -> Result<Answer, AllocError>
    ensures { IfOk result (λ a. IsOfParts (Q.is_answer_of question.now) (map (λ p. p.now) parts.now) a ⊎ NamesMemory a) }
{
    if parts.len() != 2 {
        return parts_fault(alloc);
    }
    ranked_answer(alloc, question, parts[0], parts[1])
}

/// The answer to an input of two parts, the tables and the ranks, or the first fault of these.
pub fn tables_answer<Q: TablesQuestion>(
    alloc: Global,
    question: &Q,
    input: &[u8],
) -> Result<Answer, AllocError>
    ensures { IfOk result (TablesAnswers (Q.is_answer_of question.now) input.now) }
{
    let text = without_carriage_returns(alloc, input)?;
    let parts = parts(alloc, &text)?;
    of_parts(alloc, question, &parts)
}
