//! What shards have before anything is said to them.

use std::marker::Brand;

/// Names what shards have before anything is said to them. It has no calls; whoever puts shards to service picks it. (Own.)
pub trait Beginning {
    ghost use Rattle.ing_service.specs.Held.{Begun};

    /// What is held before the first line, and whether there are logs.
    ghost begun: { Begun };
}

impl Beginning for Brand {
    ghost use Rattle.ing_service.specs.Held.{begun_new};

    ghost begun = { begun_new 1 };
}
