//! What a query gives through the locks.
ghost use Rattle.std.specs.Prelude.{◌≡◌, ◌≤◌, All, IfOk, IfErr, length, map, string_bytes, vec_len};
ghost use Rattle.std.specs.List.{AllPass};
ghost use Rattle.std.specs.List.Sorted.{IsSortedBy};
ghost use Rattle.ing_diary.specs.PartAnswers.{StandApart, precedes};
ghost use Rattle.ing_diary.specs.Parts.{is_within};
ghost use Rattle.ing_diary.specs.Questions.{question_view};
ghost use Rattle.ing_begun.specs.Catalog.{asked_view};
ghost use Rattle.ing_diary.specs.Answers.{standing_in};
ghost use Rattle.ing_node.specs.AnswerFaults.{IsCaused, IsNoBadAnswer, IsPassedOver, answer_refusal_of};
ghost use Rattle.ing_node.specs.Queries.{AreAnswerOf, AreCatalogOf, AreNoLess, AreSelected, AreToldBy, IsAskedOf};
ghost use Rattle.ing_node.specs.Refusals.{IsRoundRefusal};

use crate::ingester::Ingester;
use crate::laws::answers_are_of_snapshots;
use crate::names::NodeName;
use crate::pusher::Pusher;
use ing_begun::{Asked, NodeFault, Texts};
use ing_diary::{Found, QueryFault, Question, Snapshot, run_query, standing_joins};
use ing_labels::Selector;
use ing_refusals::Refusal;
use ing_rows::Tenant;
use ing_store::{Receipt, StoreEnd};
use ing_wal::LogDisk;
use std::alloc::Global;
use std::sync::Wait;

/// What a query through the locks gives.
#[derive(Drop)]
pub struct Answer {
    /// The entries, in the order that was asked for.
    pub entries: Vec<Found>,
    /// How many entries each shard had accepted when it was looked at, by the shard's number.
    pub fronts: Vec<u64>,
}

/// Why a query through the locks is not answered.
#[derive(Clone, Copy, Debug, PartialEq, Eq)]
pub enum AnswerFault {
    /// A lock was not passed.
    Node(NodeFault),
    /// The snapshots were not answered from.
    Query(QueryFault),
}

impl AnswerFault {
    /// Which refusal it is. Takes no memory.
    pub fn refusal(&self) -> Refusal
        ensures { result ≡ answer_refusal_of self.now }
    {
        match self {
            AnswerFault::Node(fault) => fault.refusal(),
            AnswerFault::Query(fault) => fault.refusal(),
        }
    }
}

impl From<NodeFault> for AnswerFault {
    ghost use Rattle.std.specs.Prelude.{◌≡◌};
    ghost use Rattle.ing_node.specs.declared.query.AnswerFault.TheVariants.{Node};

    ghost from_gives = { λ node fault. fault ≡ Node node };

    fn from(fault: NodeFault) -> AnswerFault {
        AnswerFault::Node(fault)
    }
}

impl From<QueryFault> for AnswerFault {
    ghost use Rattle.std.specs.Prelude.{◌≡◌};
    ghost use Rattle.ing_node.specs.declared.query.AnswerFault.TheVariants.{Query};

    ghost from_gives = { λ query fault. fault ≡ Query query };

    fn from(fault: QueryFault) -> AnswerFault {
        AnswerFault::Query(fault)
    }
}

impl<N: NodeName, D: LogDisk, R: Receipt> Ingester<N, D, R> {
    /// The entries of a tenant whose labels the selector matches and that are in the question's range: the first ones in its
    /// order, at most so many. It looks at one shard after the other, each under its lock, and not at one moment; each has then at
    /// least as many entries as the pusher was told of, so that who pushed finds what was accepted. The answer is never a partial one.
    /// (Loki documentation: HTTP API, query range; own.)
    ///
    /// `StoreFault` only where the end has failed, and `BadObject` where it gave something else than what is listed; `Misplaced`, and
    /// `NoMemory`.
    pub fn query_after<S: StoreEnd<Receipt = R>, W: Wait>(
        &self,
        rt: &W,
        alloc: Global,
        pusher: &mut Pusher<N>,
        end: &mut S,
        tenant: &Tenant,
        selector: &Selector,
        question: Question<'_>,
    ) -> Result<Answer, AnswerFault>
        ensures fronts { IfOk result (λ answer. (vec_len answer.fronts ≡ N.settings.shards)
            × AreNoLess pusher.old.told answer.fronts.items) }
        // Whatever the end gives.
        ensures selected { IfOk result (λ answer. AreSelected tenant.now selector.now answer.entries.items) }
        ensures within { IfOk result (λ answer.
            AllPass (is_within (question_view question.entry)) answer.entries.items) }
        ensures in_order { IfOk result (λ answer.
            IsSortedBy (precedes question.entry.order) answer.entries.items) }
        ensures most { IfOk result (λ answer. length answer.entries.items ≤ question.entry.limit) }
        // No entry is given twice.
        ensures once { IfOk result (λ answer. StandApart answer.entries.items) }
        // Over an honest end they are exactly the wanted ones of the rows that each shard had then.
        ensures found { S.is_honest → IfOk result (λ answer.
            AreAnswerOf tenant.now selector.now (question_view question.entry) answer.fronts.items answer.entries.items) }
        ensures honest { S.is_honest → IfErr result IsNoBadAnswer }
        ensures refused { IfErr result (IsPassedOver N.settings.shards) }
        ensures same { pusher.new ≡ pusher.old }
        // A fault of the store has a cause, and an end that never fails stays such an end.
        ensures count { IsCaused (S.failure_count end.old) (S.failure_count end.new) result }
        ensures sure { S.never_fails end.old → (S.never_fails end.new)
            × (S.failure_count end.new ≡ S.failure_count end.old) }
    {
        answers_are_of_snapshots::<R>();
        standing_joins();
        let (snapshots, fronts) = self.look_after(rt, alloc, pusher, tenant, selector, question)?;
        let entries = run_query(alloc, snapshots, end, question)?;
        Ok(Answer { entries, fronts })
    }

    /// What the streams of a tenant tell that are asked and have an entry, in byte order, each text once. It looks at one shard after the
    /// other, each under its lock, and not at one moment; each has then at least as many entries as the pusher was told of, so that who
    /// pushed finds the streams. (Loki documentation: HTTP API, list series, list labels, list the values of a label; own.)
    ///
    /// `Misplaced`, and `NoMemory`.
    pub fn catalog_after<W: Wait>(
        &self,
        rt: &W,
        alloc: Global,
        pusher: &mut Pusher<N>,
        asked: &Asked<'_>,
    ) -> Result<Vec<String>, NodeFault>
        // Exactly what is asked for of the rows that each shard had then.
        ensures lists { IfOk result (λ texts. AreCatalogOf (asked_view asked.now) pusher.old.told
            N.settings.shards (map string_bytes texts.items)) }
        ensures refused { IfErr result (IsRoundRefusal N.settings.shards) }
        ensures same { pusher.new ≡ pusher.old }
    {
        let texts = self.texts_after(rt, alloc, pusher, asked)?;
        Ok(texts.into_vec(alloc)?)
    }

    /// The same, before they are put into a list.
    fn texts_after<W: Wait>(
        &self,
        rt: &W,
        alloc: Global,
        pusher: &mut Pusher<N>,
        asked: &Asked<'_>,
    ) -> Result<Texts, NodeFault>
        ensures told { IfOk result
            (AreToldBy (asked_view asked.now) pusher.old.told N.settings.shards) }
        ensures refused { IfErr result (IsRoundRefusal N.settings.shards) }
        ensures same { pusher.new ≡ pusher.old }
    {
        let mut texts = Texts::new(alloc);
        for place in 0..self.shards.len() {
            let share = &mut pusher.told[place].share;
            self.shards[place]
                .lock(rt)
                .add_catalog(place as u32, alloc, share, asked, &mut texts)?;
        }
        Ok(texts)
    }

    /// A snapshot of each shard, and how many entries it had accepted.
    fn look_after<'q, W: Wait>(
        &self,
        rt: &W,
        alloc: Global,
        pusher: &mut Pusher<N>,
        tenant: &Tenant,
        selector: &Selector,
        question: Question<'q>,
    ) -> Result<(Vec<Snapshot<'q, R>>, Vec<u64>), NodeFault>
        ensures snapshots { IfOk result (λ looked.
            All (IsAskedOf tenant.now selector.now (question_view question.entry)) looked.0.items) }
        ensures fronts { IfOk result (λ looked. (vec_len looked.1 ≡ N.settings.shards)
            × AreNoLess pusher.old.told looked.1.items) }
        ensures told { IfOk result (λ looked. looked.1.items ≡ map (λ s. s.front) looked.0.items) }
        ensures refused { IfErr result (IsRoundRefusal N.settings.shards) }
        ensures once { IfOk result (λ looked. StandApart (standing_in looked.0.items)) }
        ensures same { pusher.new ≡ pusher.old }
    {
        let mut snapshots = Vec::with_capacity(alloc, self.shards.len())?;
        let mut fronts = Vec::with_capacity(alloc, self.shards.len())?;
        for place in 0..self.shards.len() {
            let share = &mut pusher.told[place].share;
            let snapshot = self.shards[place]
                .lock(rt)
                .snapshot(place as u32, alloc, share, tenant, selector, question)?;
            fronts.push_reserved(snapshot.front);
            snapshots.push_reserved(snapshot);
        }
        Ok((snapshots, fronts))
    }
}
