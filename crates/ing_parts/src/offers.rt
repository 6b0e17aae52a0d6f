//! Entries of one stream in memory, offered to the best.
ghost use Rattle.std.specs.Prelude.{◌≡◌, ℕ, List, ◌∷◌, [], OnOk, true, false};
ghost use Rattle.ing_chunk.specs.Chunks.{AreInOrder, IsSpanOf};
ghost use Rattle.ing_parts.specs.Answers.{Offers};
ghost use Rattle.ing_parts.specs.Parts.{found_between, found_of, is_within};
ghost use Rattle.ing_parts.specs.Questions.{question_view};

use crate::best::Best;
use crate::found::{Found, Question, StreamName};
use ing_chunk::{Block, Head, Numbered, spans_bound_stamps, stamps_rise};
use ing_rows::Order;
use std::alloc::{AllocError, Global};

/// Whether an entry is to be offered: it is in the range, and it may be kept.
fn is_offered(best: &Best, name: &StreamName, numbered: &Numbered, question: &Question<'_>) -> bool
    ensures offered { result ≡ true → is_within (question_view question.now) (found_of name.now numbered.now) ≡ true }
    ensures passed { result ≡ false →
        Offers (found_between name.now (question_view question.now) (numbered.now ∷ [])) best.now best.now }
{
    let stamp = numbered.entry.stamp.nanoseconds();
    question.wants(stamp, name, numbered.number) && !best.refuses(stamp, name, numbered.number)
}

/// Offers a copy of an entry that is in the range. It is made only where it may be kept.
fn offer_one(
    best: &mut Best,
    alloc: Global,
    name: &StreamName,
    numbered: &Numbered,
    question: &Question<'_>,
) -> Result<(), AllocError>
    ensures { OnOk result
        (Offers (found_between name.now (question_view question.now) (numbered.now ∷ [])) best.old best.new) }
{
    if !is_offered(best, name, numbered, question) {
        return Ok(());
    }
    best.offer(Found {
        name: name.share()?,
        number: numbered.number,
        entry: numbered.entry.try_clone(alloc)?,
    })
}

/// Offers copies of those in the range, the last one first.
fn offer_from_last(
    best: &mut Best,
    alloc: Global,
    name: &StreamName,
    entries: &[Numbered],
    question: &Question<'_>,
) -> Result<(), AllocError>
    ensures { OnOk result
        (Offers (found_between name.now (question_view question.now) entries.now) best.old best.new) }
{
    for index in (0..entries.len()).rev() {
        offer_one(best, alloc, name, &entries[index], question)?;
    }
    Ok(())
}

/// Offers copies of those in the range, the first one first.
fn offer_from_first(
    best: &mut Best,
    alloc: Global,
    name: &StreamName,
    entries: &[Numbered],
    question: &Question<'_>,
) -> Result<(), AllocError>
    ensures { OnOk result
        (Offers (found_between name.now (question_view question.now) entries.now) best.old best.new) }
{
    for numbered in entries {
        offer_one(best, alloc, name, numbered, question)?;
    }
    Ok(())
}

/// Offers copies of those entries of a stream that are in the range of a question. They begin where an answer begins, so that the
/// fewer are copied the better the entries stand in order of stamp. `AllocError` where memory ran out.
pub(crate) fn offer_entries(
    best: &mut Best,
    alloc: Global,
    name: &StreamName,
    entries: &[Numbered],
    question: &Question<'_>,
) -> Result<(), AllocError>
    ensures { OnOk result
        (Offers (found_between name.now (question_view question.now) entries.now) best.old best.new) }
{
    match best.order() {
        Order::Forward => offer_from_first(best, alloc, name, entries, question),
        Order::Backward => offer_from_last(best, alloc, name, entries, question),
    }
}

/// The same of entries in order of stamp, the first one first: none is looked at behind the first that may not be kept.
fn offer_run_from_first(
    best: &mut Best,
    alloc: Global,
    name: &StreamName,
    run: &[Numbered],
    question: &Question<'_>,
) -> Result<(), AllocError>
    requires forward { best.old.order ≡ Order.Forward }
    requires ordered { AreInOrder run.now }
    ensures { OnOk result
        (Offers (found_between name.now (question_view question.now) run.now) best.old best.new) }
{
    stamps_rise();
    for numbered in run {
        if best.bars(numbered.entry.stamp.nanoseconds()) {
            return Ok(());
        }
        offer_one(best, alloc, name, numbered, question)?;
    }
    Ok(())
}

/// The same, the last one first.
fn offer_run_from_last(
    best: &mut Best,
    alloc: Global,
    name: &StreamName,
    run: &[Numbered],
    question: &Question<'_>,
) -> Result<(), AllocError>
    requires backward { best.old.order ≡ Order.Backward }
    requires ordered { AreInOrder run.now }
    ensures { OnOk result
        (Offers (found_between name.now (question_view question.now) run.now) best.old best.new) }
{
    stamps_rise();
    for index in (0..run.len()).rev() {
        let numbered = &run[index];
        if best.bars(numbered.entry.stamp.nanoseconds()) {
            return Ok(());
        }
        offer_one(best, alloc, name, numbered, question)?;
    }
    Ok(())
}

/// Offers copies of those entries of a stream, which are in order of stamp, that are in the range of a question. They begin where an
/// answer begins, and end where no further one may be kept. `AllocError` where memory ran out.
pub(crate) fn offer_run(
    best: &mut Best,
    alloc: Global,
    name: &StreamName,
    run: &[Numbered],
    question: &Question<'_>,
) -> Result<(), AllocError>
    requires ordered { AreInOrder run.now }
    ensures { OnOk result
        (Offers (found_between name.now (question_view question.now) run.now) best.old best.new) }
{
    match best.order() {
        Order::Forward => offer_run_from_first(best, alloc, name, run, question),
        Order::Backward => offer_run_from_last(best, alloc, name, run, question),
    }
}

/// Whether their span shows that entries change no answer: none has a stamp that is wanted, or none may be kept. Constant.
pub(crate) fn is_passed_over(best: &Best, span: Option<(u64, u64)>, question: &Question<'_>) -> bool
    ensures { result ≡ true → (name : List ℕ) (es : List Numbered) → IsSpanOf span es →
        Offers (found_between name (question_view question.now) es) best.now best.now }
{
    spans_bound_stamps();
    let Some((least, greatest)) = span else {
        return true;
    };
    if greatest < question.start || question.end <= least {
        return true;
    }
    match best.order() {
        Order::Forward => best.bars(least),
        Order::Backward => best.bars(greatest),
    }
}

/// Offers copies of those entries of a block of a stream that are in the range of a question. Of its entries those alone are looked at
/// whose stamp is wanted, and only where its first and last stamp do not show that none changes the answer. `AllocError` where memory
/// ran out.
pub fn offer_block(
    best: &mut Best,
    alloc: Global,
    name: &StreamName,
    block: &Block,
    question: &Question<'_>,
) -> Result<(), AllocError>
    ensures { OnOk result
        (Offers (found_between name.now (question_view question.now) block.now) best.old best.new) }
{
    if is_passed_over(best, block.span(), question) {
        return Ok(());
    }
    offer_run(
        best,
        alloc,
        name,
        block.entries_between(question.start, question.end),
        question,
    )
}

/// The same of a head. Where its entries came in order, those whose stamp is wanted alone are looked at.
pub(crate) fn offer_head(
    best: &mut Best,
    alloc: Global,
    name: &StreamName,
    head: &Head,
    question: &Question<'_>,
) -> Result<(), AllocError>
    ensures { OnOk result
        (Offers (found_between name.now (question_view question.now) head.now) best.old best.new) }
{
    if is_passed_over(best, head.span(), question) {
        return Ok(());
    }
    match head.between(question.start, question.end) {
        Some(run) => offer_run(best, alloc, name, run, question),
        None => offer_entries(best, alloc, name, head.entries(), question),
    }
}
