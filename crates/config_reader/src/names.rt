//! The names of a model's features, each with its number.
ghost use Rattle.std.specs.Prelude.{◌≡◌, ◌≤◌, length, IfOk};
ghost use Rattle.config_reader.specs.Names.{names_of};
ghost use Rattle.feature_tree.specs.WellFormed.{NamesDiffer};

use feature_tree::Feature;
use name_table::{Names, Seed};
use std::alloc::{AllocError, Global};

/// The names of the features of a model. A name is hashed after all of them, so that a hash depends on the whole list.
pub(crate) fn names_of(alloc: Global, features: &[Feature]) -> Result<Names<'_>, AllocError>
    requires few { length features.now ≤ 65535 }
    requires differ { NamesDiffer features.now }
    ensures { IfOk result (λ names. names ≡ names_of features.now) }
{
    let mut names = Names::new(alloc, seeded_by(features));
    for (number, feature) in features.iter().enumerate() {
        names.insert(feature.name.as_slice(), number as u32)?;
    }
    Ok(names)
}

/// Seeded by the names of these features.
fn seeded_by(features: &[Feature]) -> Seed {
    let mut seed = Seed::new();
    for feature in features {
        seed.feed(feature.name.as_slice());
    }
    seed
}
