//! How the slow program counts a tenant's entries: by looking through all rows.
ghost use Rattle.std.specs.Prelude.{◌≡◌, reverse};
ghost use Rattle.ing_rows.specs.Gauges as model;
ghost use Rattle.ing_plain.specs.Plain.{at_kind};

use super::row::PlainRow;
use ing_rows::{Gauge, Place, Tenant};

/// The kinds of place.
#[derive(Clone, Copy, Debug)]
pub enum Kind {
    Head,
    Block,
    Flight,
    Stored,
}

impl Kind {
    /// Whether the place is of this kind.
    pub fn has(self, place: Place) -> bool
        ensures { result ≡ at_kind self place }
    {
        match self {
            Kind::Head => matches!(place, Place::Head),
            Kind::Block => matches!(place, Place::Block),
            Kind::Flight => matches!(place, Place::Flight(_)),
            Kind::Stored => matches!(place, Place::Stored(_)),
        }
    }
}

/// The tenant's entries at places of the kind.
pub fn gauge_of(rows: &[PlainRow], tenant: &Tenant, kind: Kind) -> Gauge
    ensures { result ≡ model.gauge_of (at_kind kind) (reverse rows.now) tenant.now }
{
    let mut entries: u64 = 0;
    let mut bytes: u128 = 0;
    for row in rows {
        if row.is_at(tenant, kind) {
            entries += 1;
            bytes += row.size();
        }
    }
    Gauge { entries, bytes }
}
