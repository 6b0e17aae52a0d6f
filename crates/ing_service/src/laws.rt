//! What the definitions say of a whole output, apart from the code that writes it.
ghost use Rattle.std.specs.Prelude.{List, Option, ℕ};
ghost use Rattle.ing_limits.specs.Settings.{StoreSettings};
ghost use Rattle.ing_session.specs.Runs.{AnswersAll};
ghost use Rattle.ing_session.specs.declared.ticks.Tick.{Tick};
ghost use Rattle.ing_service.specs.ByShards.{by_shards};
ghost use Rattle.ing_service.specs.Held.{Begun};
ghost use Rattle.ing_service.specs.Ledger.{AddsUp};

use ing_store::StoreEnd;

/// Where an input came to its end, the report adds up with the replies in front of it: it tells as accepted as many entries as their
/// verdicts did, as recovered what each shard began with, and of each shard as many that went in as are stored or kept. A law of
/// the definition, with nothing to do, whatever the clock said between the lines; S is the end of the store that the output's queries read. (Own.)
pub fn the_report_adds_up<S: StoreEnd>()
    ensures { (begun : Begun) (settings : StoreSettings) (ticks : Option (List Tick)) (input : List ℕ) (before after : ℕ) (old new : Option (List ℕ))
        → AnswersAll (by_shards S.is_honest begun) settings ticks input before after old new → AddsUp begun old new }
{}
