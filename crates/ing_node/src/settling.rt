//! Whether the shards have exactly the entries that were noted.
ghost use Rattle.std.specs.Prelude.{◌≡◌, ◌<◌, ◌^◌, ℕ, All, IfErr, OnOk, false, length, map, true};
ghost use Rattle.ing_node.specs.Closing.{AreInPlaces};
ghost use Rattle.ing_diary.specs.Fronts.{front_in};
ghost use Rattle.ing_node.specs.Diaries.{HaveNoted, HaveNotedEach, KeepsDiary, NamesOtherIn, notes_at};
ghost use Rattle.ing_node.specs.Earlier.{had_at};
ghost use Rattle.ing_node.specs.Reports.{HasReason, IsCausedClose, IsNoBadClose, IsUnsettled};

use crate::held::Held;
use crate::laws::settle;
use crate::names::NodeName;
use crate::pusher::Pusher;
use crate::report::CloseRefusal;
use ing_diary::Fronts;
use ing_store::StoreEnd;
use ing_wal::LogDisk;
use std::alloc::Global;

/// Whether each of them keeps a diary.
pub(crate) fn keep_diaries<N: NodeName>(pushers: &[Pusher<N>]) -> bool
    ensures yes { result ≡ true → All KeepsDiary pushers.now }
    ensures no { result ≡ false → All KeepsDiary pushers.now → ⊥ }
{
    for pusher in pushers {
        if !pusher.keeps_diary() {
            return false;
        }
    }
    true
}

/// Whether in each shard, which stands at its place, exactly the entries that these pushers noted came since its streams had these fronts,
/// as `laws::settle`.
pub(crate) fn settle_all<N: NodeName, D: LogDisk, S: StoreEnd>(
    alloc: Global,
    end: &mut S,
    helds: &[Held<N, D, S::Receipt>],
    fronts: &[Fronts],
    pushers: &[Pusher<N>],
) -> Result<(), CloseRefusal>
    requires fronts { map front_in fronts.now ≡ N.earlier.fronts }
    requires each { length fronts.now ≡ length helds.now }
    requires few { length helds.now < 2 ^ 32 }
    requires all { length helds.now ≡ N.settings.shards }
    requires placed { AreInPlaces (λ held. held.shard.memory) helds.now }
    ensures settled { S.is_honest → OnOk result (HaveNoted (λ held. held.shard.memory.state.rows) (had_at N.earlier)
        (λ i. notes_at N.settings.shards i pushers.now) helds.now) }
    ensures places { OnOk result (HaveNotedEach (λ held. held.shard.memory.state.rows) (had_at N.earlier)
        (λ i. notes_at N.settings.shards i pushers.now) helds.now) }
    ensures differs { S.is_honest → IfErr result (NamesOtherIn (λ held. held.shard.memory.state.rows) (had_at N.earlier)
        (λ i. notes_at N.settings.shards i pushers.now) helds.now) }
    ensures why { IfErr result (λ why. HasReason why × IsUnsettled why) }
    ensures honest { S.is_honest → IfErr result IsNoBadClose }
    ensures count { OnOk result (S.failure_count end.new ≡ S.failure_count end.old) }
    ensures cause { IfErr result (IsCausedClose (S.failure_count end.old) (S.failure_count end.new)) }
    ensures sure { S.never_fails end.old → (S.never_fails end.new)
        × (S.failure_count end.new ≡ S.failure_count end.old) }
{
    for place in 0..helds.len() {
        let shards = helds.len() as u32;
        let had = &fronts[place];
        if let Err(why) = settle(
            helds[place].shard.memory(),
            shards,
            alloc,
            end,
            had,
            pushers,
        ) {
            return Err(CloseRefusal::Unsettled {
                shard: place as u32,
                why,
            });
        }
    }
    Ok(())
}
