// What is asked of definitions beside their texts.
ghost use Rattle.std.specs.Prelude.{◌≡◌, Bool};
ghost use Rattle.hs_plan.specs.declared.definition.Definition.{Definition as TheDefinition};
ghost use Rattle.hs_schema.specs.Catalogue.{Things};

use hs_plan::Definition;
use hs_schema::Catalog;

/// What is asked of a definition beside its text, that its names are new and its tables there: limits, and that foreign keys
/// reference keys.
pub trait Rules {
    /// Which definitions may be made beside the things of a catalogue.
    ghost may: { Self → Things → TheDefinition → Bool };

    /// Whether a definition may be made. Takes no memory.
    fn may_define(&self, catalog: &Catalog, definition: &Definition) -> bool
        ensures { result ≡ may self.now catalog.now definition.now };
}
