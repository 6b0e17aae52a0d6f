//! A person's side of `ingestd`: what each refusal means, what is refused of a line of input and where, and
//! which settings are in force.
#![tactic(auto)]

mod explained;
mod explaining;
mod hints;
mod in_force;
mod lookup;
mod member;
mod nearest;
mod notes;
mod settings_refusal;
mod shape;
mod stream;
mod stream_notes;
mod table;
mod walk;

pub use explained::{Cause, Explained};
pub use explaining::explain;
pub use hints::setting_hint;
pub use in_force::{rules_in_force, settings_in_force};
pub use lookup::{page_for, pages};
pub use member::{Field, Member, Part};
pub use notes::{Note, notes_of};
pub use settings_refusal::SettingsRefusal;
pub use stream::StreamFault;
pub use stream_notes::{StreamNote, stream_notes_of};
pub use table::Page;
